//! Units of contents.

ghost use Rattle.std.specs.Prelude.{◌≡◌, IfOk};
ghost use Rattle.std.specs.Prelude.{false};
ghost use Rattle.json.specs.Tree.{HasNumbers, ItemsHaveNumbers};
ghost use Rattle.json.specs.Value.{value_view, items_view};
ghost use Rattle.connection_messages.specs.Reading.{entries_of, batch_within, value_unit, unit_of};
ghost use Rattle.connection_messages.specs.declared.read.unit.TheConstants.{MOST_DEPTH_IN};

use super::batch::batch_within;
use super::compact::{read_compact, read_compacted};
use super::entry::{read_entries, read_entry};
use super::rooms::Rooms;
use crate::entry::Entry;
use crate::rules::Rules;
use crate::unit::Unit;
use json::{Scratch, Value};
use json_texts::{Known, read_str, utf8_text};
use std::alloc::{AllocError, Global};
use std::marker::Model;

/// Contents nest at most this deep, each array or object counting one. Other readers of JSON take as much (serde_json's
/// limit of recursion is 128), and the texts that go out nest less, so two connections understand each other.
pub const MOST_DEPTH_IN: usize = 127;

/// The limit in figures. All other definitions and clauses cite the constant.
pub fn limit_of_depth_in_figures()
    ensures { MOST_DEPTH_IN ≡ 127 }
{}

/// The room that reading takes is kept from one content to the next where the content is at most this long, in bytes. Most
/// contents are, and a connection that rests doesn't hold the room of a long one, which is at least as long as its text.
const KEPT_ROOM: usize = 65_536;

/// Reads one content after another, over the same rooms.
#[derive(Drop)]
pub struct UnitReader {
    alloc: Global,
    rules: Rules,
    rooms: Rooms,
    /// The room of the reader of tokens, where one is kept.
    scratch: Option<Box<Scratch>>,
}

impl Model for UnitReader {
    ghost use Rattle.connection_messages.specs.declared.rules.Rules.{Rules};

    ghost Value = { Rules };

    ghost view = { λ r. r.rules };
}

impl UnitReader {
    /// A reader by these rules, which has no room yet. Takes no memory.
    pub fn new(alloc: Global, rules: Rules) -> UnitReader
        ensures { result ≡ rules }
    {
        UnitReader {
            alloc,
            rules,
            rooms: Rooms::new(alloc),
            scratch: None,
        }
    }

    /// The unit of a content. Every content has one, so it is refused only where it is out of memory; it can be
    /// read again then.
    pub fn read(&mut self, foreign: bool, content: &[u8]) -> Result<Unit, AllocError>
        ensures unit { IfOk result (λ u. u ≡ unit_of self.old foreign content.now) }
        ensures rules { self.new ≡ self.old }
    {
        if foreign {
            return Ok(Unit::Unreadable);
        }
        self.read_content(content)
    }

    /// Keeps the rooms of a method and of a text that have gone, for those of contents to come: each where it is of at most 256
    /// bytes, and at most 64 of each. What is in them has no meaning. Where there is no memory to keep one, it goes.
    pub fn keep_rooms(&mut self, name: Vec<u8>, text: Vec<u8>)
        ensures { self.new ≡ self.old }
    {
        self.rooms.keep(name, text);
    }

    fn read_content(&mut self, content: &[u8]) -> Result<Unit, AllocError>
        ensures unit { IfOk result (λ u. u ≡ unit_of self.old false content.now) }
        ensures rules { self.new ≡ self.old }
    {
        let Some(text) = utf8_text(content) else {
            return Ok(Unit::Unreadable);
        };
        if let Some(unit) = read_compact(&mut self.rooms, self.rules, text, Known::NOTHING)? {
            return Ok(unit);
        }
        match read_compacted(&mut self.rooms, self.rules, text)? {
            Some(unit) => Ok(unit),
            None => self.read_tokens(text),
        }
    }

    fn read_tokens(&mut self, text: &str) -> Result<Unit, AllocError>
        ensures unit { IfOk result (λ u. u ≡ unit_of self.old false text.now) }
        ensures rules { self.new ≡ self.old }
    {
        let mut scratch = self.take_scratch()?;
        let unit = read_unit(self.alloc, self.rules, text, &mut scratch);
        if text.len() <= KEPT_ROOM {
            self.scratch = Some(scratch);
        } else {
            drop(scratch);
        }
        unit
    }

    fn take_scratch(&mut self) -> Result<Box<Scratch>, AllocError>
        ensures { self.new ≡ self.old }
    {
        match self.scratch.take() {
            Some(scratch) => Ok(scratch),
            None => new_scratch(self.alloc),
        }
    }
}

fn read_unit(
    alloc: Global,
    rules: Rules,
    text: &str,
    scratch: &mut Scratch,
) -> Result<Unit, AllocError>
    ensures { IfOk result (λ u. u ≡ unit_of rules false text.now) }
{
    match read_str(alloc, text, MOST_DEPTH_IN, scratch)? {
        Some(value) => unit_of_value(alloc, rules, &value),
        None => Ok(Unit::Unreadable),
    }
}

fn unit_of_value(alloc: Global, rules: Rules, value: &Value<'_>) -> Result<Unit, AllocError>
    requires { HasNumbers (value_view value.now) }
    ensures { IfOk result (λ u. u ≡ value_unit rules (value_view value.now)) }
{
    match value {
        Value::Array(items) => read_batch(alloc, rules, items.as_slice()),
        value => Ok(Unit::Single(read_entry(alloc, rules, value)?)),
    }
}

fn read_batch(alloc: Global, rules: Rules, values: &[Value<'_>]) -> Result<Unit, AllocError>
    requires { ItemsHaveNumbers (items_view values.now) }
    ensures { IfOk result (λ u. u ≡ batch_within rules.most_entries (entries_of rules (items_view values.now))) }
{
    if rules.are_too_many(values.len()) {
        return Ok(Unit::Single(Entry::Invalid));
    }
    Ok(batch_within(rules, read_entries(alloc, rules, values)?))
}

/// Apart, since it holds the scratch's 16 KiB on the stack.
#[cold]
#[inline(never)]
fn new_scratch(alloc: Global) -> Result<Box<Scratch>, AllocError> {
    Ok(Box::new(alloc, Scratch::new(alloc))?)
}
