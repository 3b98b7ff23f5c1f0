//! From bytes to values, and from values to their texts.

ghost use Rattle.std.specs.Prelude.{◌≡◌, ◌≤◌, Some, IfOk, IfSome, OnOk, option_map};
ghost use Rattle.std.specs.Str.{IsUtf8};
ghost use Rattle.json.specs.Tree.{HasNumbers, depth};
ghost use Rattle.json.specs.Value.{value_view};
ghost use Rattle.json_texts.specs.Texts.{json_text, text_value, value_of, compact_text};
ghost use Rattle.json_texts.specs.declared.json_text.TheConstants.{MOST_DEPTH_OUT};

use crate::compact::is_compact;
use crate::json_text::{JsonText, MOST_DEPTH_OUT};
use crate::spaced::compacted;
use crate::utf8::utf8_text;
use json::{Error, Reader, Scratch, Value};
use json_values::Text;
use std::alloc::{AllocError, Global};

/// The room that reading takes is kept from one text to the next where the text is at most this long, in bytes.
const KEPT_ROOM: usize = 65_536;

/// The value that bytes are, with its strings borrowed from them. There is none where they aren't UTF-8, aren't one JSON
/// value (RFC 8259), or nest more than `levels` deep.
pub fn read_value<'a>(
    alloc: Global,
    bytes: &'a [u8],
    levels: usize,
    scratch: &'a mut Scratch,
) -> Result<Option<Value<'a>>, AllocError>
    ensures value { IfOk result (λ v. option_map value_view v ≡ value_of levels bytes.now) }
    ensures writable { IfOk result (λ v. IfSome v (λ j. HasNumbers (value_view j))) }
    ensures nests { IfOk result (λ v. IfSome v (λ j. depth (value_view j) ≤ levels)) }
{
    let Some(text) = utf8_text(bytes) else {
        return Ok(None);
    };
    read_str(alloc, text, levels, scratch)
}

/// The value that a text is, with its strings borrowed from it. There is none where it isn't one JSON value (RFC 8259), or
/// nests more than `levels` deep.
pub fn read_str<'a>(
    alloc: Global,
    text: &'a str,
    levels: usize,
    scratch: &'a mut Scratch,
) -> Result<Option<Value<'a>>, AllocError>
    ensures value { IfOk result (λ v. option_map value_view v ≡ value_of levels text.now) }
    ensures writable { IfOk result (λ v. IfSome v (λ j. HasNumbers (value_view j))) }
    ensures nests { IfOk result (λ v. IfSome v (λ j. depth (value_view j) ≤ levels)) }
{
    read_tokens(alloc, text, levels, scratch)
}

fn read_tokens<'a>(
    alloc: Global,
    text: &'a str,
    levels: usize,
    scratch: &'a mut Scratch,
) -> Result<Option<Value<'a>>, AllocError>
    ensures value { IfOk result (λ v. option_map value_view v ≡ text_value levels text.now) }
    ensures writable { IfOk result (λ v. IfSome v (λ j. HasNumbers (value_view j))) }
    ensures nests { IfOk result (λ v. IfSome v (λ j. depth (value_view j) ≤ levels)) }
{
    let mut reader = Reader::new(text, scratch)?;
    match Value::read(alloc, &mut reader, levels) {
        Ok(value) => {
            if reader.next().is_some() {
                drop(value);
                return Ok(None);
            }
            Ok(Some(value))
        }
        Err(Error::OutOfMemory) => Err(AllocError),
        Err(_) => Ok(None),
    }
}

/// The compact text of a value that was read.
#[tactic(auto, unfolding(crate::specs::Texts::json_text))]
pub fn text_of(alloc: Global, value: &Value<'_>) -> Result<Text, AllocError>
    requires { HasNumbers (value_view value.now) }
    ensures text { IfOk result (λ text. text ≡ json_text (value_view value.now)) }
    ensures utf8 { OnOk result (IsUtf8 (json_text (value_view value.now))) }
{
    let bytes = json::to_vec(alloc, value)?;
    Ok(Text::from(unsafe { String::from_utf8_unchecked(bytes) }))
}

/// Reads one text after another, over the same room.
#[derive(Drop)]
pub struct TextReader {
    alloc: Global,
    scratch: Option<Box<Scratch>>,
}

impl TextReader {
    /// A reader that has no room yet. Takes no memory.
    pub fn new(alloc: Global) -> TextReader {
        TextReader {
            alloc,
            scratch: None,
        }
    }

    /// The compact text of the value that the bytes are. There is none where they aren't UTF-8, aren't one JSON value, or
    /// nest too deep.
    pub fn read(&mut self, bytes: &[u8]) -> Result<Option<JsonText>, AllocError>
        ensures { IfOk result (λ text. text ≡ compact_text MOST_DEPTH_OUT bytes.now) }
    {
        let Some(text) = utf8_text(bytes) else {
            return Ok(None);
        };
        if is_compact(text) {
            return Ok(Some(JsonText::copy_of(self.alloc, text)?));
        }
        match read_compacted(self.alloc, text)? {
            Some(read) => Ok(Some(read)),
            None => self.read_tokens(text),
        }
    }

    fn read_tokens(&mut self, text: &str) -> Result<Option<JsonText>, AllocError>
        ensures { IfOk result (λ read. read ≡ compact_text MOST_DEPTH_OUT text.now) }
    {
        let mut scratch = self.take_scratch()?;
        let read = read_text(self.alloc, text, &mut scratch);
        if text.len() <= KEPT_ROOM {
            self.scratch = Some(scratch);
        } else {
            drop(scratch);
        }
        read
    }

    fn take_scratch(&mut self) -> Result<Box<Scratch>, AllocError> {
        match self.scratch.take() {
            Some(scratch) => Ok(scratch),
            None => new_scratch(self.alloc),
        }
    }
}

/// The compact text of a value whose text isn't compact. There is none where this isn't seen to be one.
fn read_compacted(alloc: Global, text: &str) -> Result<Option<JsonText>, AllocError>
    ensures { IfOk result (λ r. IfSome r (λ read. compact_text MOST_DEPTH_OUT text.now ≡ Some read)) }
{
    match compacted(alloc, text, MOST_DEPTH_OUT)? {
        Some(compact) => Ok(Some(JsonText::of_compact(compact.text))),
        None => Ok(None),
    }
}

fn read_text(
    alloc: Global,
    text: &str,
    scratch: &mut Scratch,
) -> Result<Option<JsonText>, AllocError>
    ensures { IfOk result (λ read. read ≡ compact_text MOST_DEPTH_OUT text.now) }
{
    match read_str(alloc, text, MOST_DEPTH_OUT, scratch)? {
        Some(value) => Ok(Some(JsonText::of_value(alloc, &value)?)),
        None => Ok(None),
    }
}

/// Apart, since it holds the scratch's 16 KiB on the stack.
#[cold]
#[inline(never)]
fn new_scratch(alloc: Global) -> Result<Box<Scratch>, AllocError> {
    Ok(Box::new(alloc, Scratch::new(alloc))?)
}
