//! Values of which strings aren't copied.

ghost use Rattle.std.specs.Prelude.{◌≡◌, ◌<◌, length, Some, None, Err, IfOk, OnOk, option_map, string_bytes};
ghost use Rattle.json.specs.Json.{value};
ghost use Rattle.serde_json.specs.Find.{as_str};
ghost use Rattle.serde_json.specs.Read.{of_json, converted};
ghost use Rattle.serde_json.specs.View.{view};
ghost use Rattle.json_reading.specs.Piece.{piece_view};
ghost use Rattle.json_reading.specs.declared.fault.ReadFault.TheVariants.{Refused};

use crate::fault::ReadFault;
use crate::value::value_from;
use json::{Reader, Token};
use serde_json::Value;
use std::alloc::{AllocError, Global};

/// A JSON value that was read. A string is borrowed, and anything else is owned.
#[derive(Debug, Drop)]
pub enum Piece<'a> {
    Text(&'a str),
    Whole(Value),
}

/// The next value of the reader. Arrays and objects may nest `depth` deep.
#[inline(always)]
pub fn read_piece<'a>(
    alloc: Global,
    reader: &mut Reader<'a>,
    depth: usize,
) -> Result<Piece<'a>, ReadFault>
    ensures ok { IfOk result
        (λ p. converted of_json (value depth reader.old) ≡ Some (piece_view p, reader.new)) }
    ensures shorter { OnOk result (length reader.new < length reader.old) }
    ensures refused { result ≡ Err Refused → converted of_json (value depth reader.old) ≡ None }
{
    let token = reader.next().ok_or(ReadFault::Refused)?;
    match token {
        Token::String(text) => Ok(Piece::Text(text)),
        token => Ok(Piece::Whole(value_from(alloc, token, reader, depth)?)),
    }
}

impl<'a> Piece<'a> {
    /// The text of a string, lent.
    pub fn as_str(&self) -> Option<&str>
        ensures { option_map (λ s. s.now) result ≡ as_str (piece_view self.now) }
    {
        match self {
            Piece::Text(text) => Some(text),
            Piece::Whole(value) => value.as_str(),
        }
    }

    /// The text of a string, which takes memory where it was borrowed.
    pub fn into_string(self, alloc: Global) -> Result<Option<String>, AllocError>
        ensures { IfOk result
            (λ text. option_map string_bytes text ≡ as_str (piece_view self.entry)) }
    {
        match self {
            Piece::Text(text) => Ok(Some(String::from_str(alloc, text)?)),
            Piece::Whole(Value::String(text)) => Ok(Some(text)),
            Piece::Whole(_) => Ok(None),
        }
    }

    /// The value, which takes memory for a string that was borrowed.
    pub fn into_value(self, alloc: Global) -> Result<Value, AllocError>
        ensures { IfOk result (λ value. view value ≡ piece_view self.entry) }
    {
        match self {
            Piece::Text(text) => Ok(Value::String(String::from_str(alloc, text)?)),
            Piece::Whole(value) => Ok(value),
        }
    }
}
