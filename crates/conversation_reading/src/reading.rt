//! From contents to readings.

ghost use Rattle.std.specs.Prelude.{◌≡◌, IfOk, option_map};
ghost use Rattle.json.specs.Value.{value_view, items_view};
ghost use Rattle.json_texts.specs.Texts.{value_of};
ghost use Rattle.conversation_reading.specs.Fronts.{is_json};
ghost use Rattle.conversation_reading.specs.Strictly.{entries_of, value_reading, unreadable, json_reading, limited, limited_reading};
ghost use Rattle.conversation_reading.specs.declared.nesting.TheConstants.{SAFE_DEPTH};
ghost use Rattle.conversation_reading.specs.declared.reading.Reading.TheVariants.{Array};
ghost use Rattle.conversation_reading.specs.declared.reading.TheConstants.{MOST_DEPTH_IN, MOST_ENTRIES_IN};

use crate::entry::Entry;
use crate::front::{front_of, without_halves};
use crate::read::{read_entries, read_entry};
use json::{Scratch, Value};
use json_texts::{read_str, utf8_text};
use json_values::Items;
use std::alloc::{AllocError, Global};

/// A content that nests deeper isn't read, each array or object counting one.
pub const MOST_DEPTH_IN: usize = 127;

/// An array with more entries isn't read: each takes a hundred times the room of its two bytes, and more behind that.
pub const MOST_ENTRIES_IN: usize = 100_000;

/// The limits in figures. All other definitions and clauses cite the constants.
pub fn limits_in_figures()
    ensures { (MOST_DEPTH_IN ≡ 127) × (MOST_ENTRIES_IN ≡ 100000) × (SAFE_DEPTH ≡ 31) }
{}

/// The room that reading takes is kept from one content to the next where the content is at most this long, in bytes.
const KEPT_ROOM: usize = 65_536;

/// What a content is (JSON-RPC 2.0, sections 4 to 6).
#[derive(Debug, Drop)]
pub enum Reading {
    /// Its head names another charset than UTF-8.
    Foreign,
    /// It isn't UTF-8.
    NotText,
    /// It isn't JSON.
    NotJson,
    /// Arrays and objects nest deeper than 127 in it, before anything else in it is wrong; or it is an array with more
    /// than 100,000 entries.
    OverLimits,
    /// It is JSON, and a string in it has half of a surrogate pair.
    HalfPair,
    /// One entry.
    Single(Entry),
    /// The elements of an array, which may have none.
    Array(Items<Entry>),
}

/// Reads one content after another, over the same room.
#[derive(Drop)]
pub struct StrictReader {
    alloc: Global,
    scratch: Option<Box<Scratch>>,
}

impl StrictReader {
    /// A reader that has no room yet. Takes no memory.
    pub fn new(alloc: Global) -> StrictReader {
        StrictReader {
            alloc,
            scratch: None,
        }
    }

    /// What a content is. Every content has a reading, so it is refused only where it is out of memory; it can be read
    /// again then.
    pub fn read(&mut self, foreign: bool, content: &[u8]) -> Result<Reading, AllocError>
        ensures { IfOk result (λ reading. reading ≡ limited_reading foreign content.now) }
    {
        if foreign {
            return Ok(Reading::Foreign);
        }
        match utf8_text(content) {
            Some(text) => self.read_text(text),
            None => Ok(Reading::NotText),
        }
    }

    fn read_text(&mut self, text: &str) -> Result<Reading, AllocError>
        ensures { IfOk result
            (λ reading. reading ≡ limited (json_reading text.now (value_of MOST_DEPTH_IN text.now))) }
    {
        let mut scratch = self.take_scratch()?;
        let reading = read_json(self.alloc, text, &mut scratch);
        if text.len() <= KEPT_ROOM {
            self.scratch = Some(scratch);
        } else {
            drop(scratch);
        }
        reading
    }

    fn take_scratch(&mut self) -> Result<Box<Scratch>, AllocError> {
        match self.scratch.take() {
            Some(scratch) => Ok(scratch),
            None => new_scratch(self.alloc),
        }
    }
}

fn read_json(alloc: Global, text: &str, scratch: &mut Scratch) -> Result<Reading, AllocError>
    ensures { IfOk result (λ reading. reading ≡ limited (json_reading text.now (value_of MOST_DEPTH_IN text.now))) }
{
    if let Some(value) = read_str(alloc, text, MOST_DEPTH_IN, scratch)? {
        return read_value(alloc, &value);
    }
    read_unreadable(alloc, text.as_bytes(), scratch)
}

/// Why a content has no value.
#[cold]
#[inline(never)]
fn read_unreadable(alloc: Global, text: &[u8], scratch: &mut Scratch) -> Result<Reading, AllocError>
    ensures { IfOk result (λ reading. reading ≡ limited (unreadable text.now)) }
{
    match front_of(alloc, text)? {
        Some(front) => {
            if is_json(alloc, front.as_slice(), scratch)? {
                Ok(Reading::OverLimits)
            } else {
                Ok(Reading::NotJson)
            }
        }
        None => {
            if is_json(alloc, text, scratch)? {
                Ok(Reading::HalfPair)
            } else {
                Ok(Reading::NotJson)
            }
        }
    }
}

/// Whether bytes are JSON by its grammar, of at most 127 levels.
fn is_json(alloc: Global, text: &[u8], scratch: &mut Scratch) -> Result<bool, AllocError>
    ensures { IfOk result (λ is. is ≡ is_json text.now) }
{
    let whole = without_halves(alloc, text)?;
    match json_texts::read_value(alloc, whole.as_slice(), MOST_DEPTH_IN, scratch)? {
        Some(value) => {
            drop(value);
            Ok(true)
        }
        None => Ok(false),
    }
}

fn read_value(alloc: Global, value: &Value<'_>) -> Result<Reading, AllocError>
    ensures { IfOk result (λ reading. reading ≡ limited (value_reading (value_view value.now))) }
{
    match value {
        Value::Array(items) => read_array(alloc, items.as_slice()),
        value => Ok(Reading::Single(read_entry(alloc, value)?)),
    }
}

fn read_array(alloc: Global, values: &[Value<'_>]) -> Result<Reading, AllocError>
    ensures { IfOk result (λ reading. reading ≡ limited (Array (entries_of (items_view values.now)))) }
{
    if values.len() > MOST_ENTRIES_IN {
        return Ok(Reading::OverLimits);
    }
    let entries = read_entries(alloc, values)?;
    Ok(Reading::Array(Items::from(entries)))
}

/// Apart, since it holds the scratch's 16 KiB on the stack.
#[cold]
#[inline(never)]
fn new_scratch(alloc: Global) -> Result<Box<Scratch>, AllocError> {
    Ok(Box::new(alloc, Scratch::new(alloc))?)
}
