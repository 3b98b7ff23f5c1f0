//! What one line of a head says.

ghost use Rattle.std.specs.Prelude.{◌≡◌};
ghost use Rattle.lsp_frames.specs.Fields.{is_long_number};
ghost use Rattle.lsp_frames.specs.Lines.{fields_after, fields_with_length, length_fault, line_meaning};

use crate::charset::is_foreign;
use crate::field::{field_of, is_long_number, is_named, length_of};
use crate::frame::FrameFault;

/// What the lines of a head have said so far.
#[derive(Clone, Copy)]
pub(crate) struct Fields {
    pub(crate) content_length: Option<u32>,
    pub(crate) foreign: bool,
}

/// What a line says once its LF has come.
#[derive(Clone, Copy)]
pub(crate) enum Line {
    /// The head goes on, with these fields.
    More(Fields),
    /// It was the empty line: so many bytes of content follow, foreign or not.
    End(u32, bool),
    Fault(FrameFault),
}

impl Fields {
    pub(crate) const NONE: Fields = Fields {
        content_length: None,
        foreign: false,
    };
}

/// What is wrong with the value of a `Content-Length` that isn't 1 to 10 digits.
fn length_fault(value: &[u8]) -> FrameFault
    ensures { result ≡ length_fault (is_long_number value.now) }
{
    if is_long_number(value) {
        FrameFault::LongLength
    } else {
        FrameFault::BadLength
    }
}

fn fields_with_length(limit: u32, fields: Fields, value: &[u8]) -> Result<Fields, FrameFault>
    ensures { result ≡ fields_with_length limit fields fields.content_length value.now }
{
    if fields.content_length.is_some() {
        return Err(FrameFault::TwoLengths);
    }
    let Some(length) = length_of(value) else {
        return Err(length_fault(value));
    };
    if length > u64::from(limit) {
        return Err(FrameFault::TooLarge);
    }
    Ok(Fields {
        content_length: Some(length as u32),
        foreign: fields.foreign,
    })
}

/// What a line `name:value` adds to the lines before it, or the first of its faults.
#[tactic(auto, unfolding(crate::specs::Lines::fields_after))]
fn fields_after(limit: u32, fields: Fields, line: &[u8]) -> Result<Fields, FrameFault>
    ensures { result ≡ fields_after limit fields line.now }
{
    let Some((name, value)) = field_of(line) else {
        return Err(FrameFault::BadHead);
    };
    if is_named(name, b"Content-Length") {
        fields_with_length(limit, fields, value)
    } else if is_named(name, b"Content-Type") {
        Ok(Fields {
            content_length: fields.content_length,
            foreign: fields.foreign || is_foreign(value),
        })
    } else {
        Ok(fields)
    }
}

/// What a line says, given all of it before its LF.
#[tactic(auto, unfolding(crate::specs::Lines::line_meaning))]
pub(crate) fn line_meaning(limit: u32, fields: Fields, text: &[u8]) -> Line
    ensures { result ≡ line_meaning limit fields text.now }
{
    let size = text.len();
    if size == 0 || text[size - 1] != b'\r' {
        return Line::Fault(FrameFault::BadHead);
    }
    let line = &text[..size - 1];
    if line.is_empty() {
        return match fields.content_length {
            None => Line::Fault(FrameFault::NoLength),
            Some(length) => Line::End(length, fields.foreign),
        };
    }
    match fields_after(limit, fields, line) {
        Ok(fields) => Line::More(fields),
        Err(fault) => Line::Fault(fault),
    }
}
