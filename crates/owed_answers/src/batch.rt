ghost use Rattle.std.specs.Prelude.{◌≡◌, ◌<◌, ◌+◌, ◌==◌, ◌++◌, ◌∷◌, [], ℕ, List, Some, true, IfOk, OnOk, OnErr, length, slice_set, if◌then◌else◌};
ghost use Rattle.std.specs.Io.{StartsWith};
ghost use Rattle.connection_messages.specs.Texts.{batch_text};
ghost use Rattle.owed_answers.specs.Inner.{behind, next_mark};
ghost use Rattle.owed_answers.specs.Owed.{first_or_none, joined, lacking_slots, seen_slot, slot_in, slot_text, slot_texts, some_text};

use crate::held::Held;
use crate::slot::Slot;
use std::alloc::{AllocError, Global};
use std::marker::Model;

/// At most so much room is made for answers that aren't there yet.
const MOST_FIRST_ROOM: usize = 4096;

/// The slots of a batch. The answers that the host gave stand one behind another in a single text, so that each takes no
/// memory of its own, and a slot is small.
#[derive(Drop)]
pub struct Batch {
    held: Vec<Held>,
    /// How many slots are lacking, counted as they change.
    lacking: u64,
    /// How long the texts are that came with the batch.
    known_len: usize,
    /// The answers that were given, in the order in which they were.
    given: Vec<u8>,
}

impl Model for Batch {
    ghost use Rattle.std.specs.Prelude.{ℕ, List, Option};

    ghost Value = { List (Option (List ℕ)) };

    ghost use Rattle.owed_answers.specs.Batches.{held_slots, IsBatch};

    ghost view = { λ a. held_slots a.given.items a.held.items };

    ghost invariant = { λ a. IsBatch a.held.items a.lacking a.given.items };
}

impl Batch {
    /// A batch without slots, and room for so many.
    pub fn new(alloc: Global, count: usize) -> Result<Batch, AllocError>
        ensures { IfOk result (λ batch. batch ≡ []) }
    {
        Ok(Batch {
            held: Vec::with_capacity(alloc, count)?,
            lacking: 0,
            known_len: 0,
            given: Vec::new(alloc),
        })
    }

    /// One slot more.
    pub fn push(&mut self, slot: Slot) -> Result<(), AllocError>
        ensures ok { OnOk result (self.new ≡ self.old ++ seen_slot slot ∷ []) }
        ensures err { OnErr result (self.new ≡ self.old) }
    {
        self.held.push(Held::AsCame(slot))?;
        self.lacking += slot.is_lacking() as u64;
        self.known_len = self.known_len.saturating_add(slot.text().len());
        Ok(())
    }

    /// How many slots there are.
    pub fn len(&self) -> usize
        ensures { result ≡ length self.now }
    {
        self.held.len()
    }

    /// How many slots have no text.
    pub(crate) fn lacking(&self) -> u64
        ensures { result ≡ lacking_slots self.now }
    {
        self.lacking
    }

    /// Whether no slot would lack its text, were this one given its.
    pub(crate) fn is_complete_with(&self, slot: usize) -> bool
        ensures { (text : List ℕ) →
            result ≡ (lacking_slots (slice_set self.now slot (Some text)) == 0) }
    {
        self.lacking == self.is_lacking(slot) as u64
    }

    /// Whether this slot has no text, so that one fewer would be lacking, were it given its.
    fn is_lacking(&self, slot: usize) -> bool
        ensures { (text : List ℕ) →
            lacking_slots (slice_set self.now slot (Some text)) + (if result then 1 else 0)
            ≡ lacking_slots self.now }
    {
        slot < self.held.len() && self.held[slot].is_lacking()
    }

    /// Gives the slot this text. Where there is no such slot nothing changes.
    pub(crate) fn give(&mut self, slot: usize, text: &[u8]) -> Result<(), AllocError>
        ensures ok { OnOk result (self.new ≡ slice_set self.old slot (Some text.now)) }
        ensures err { OnErr result (self.new ≡ self.old) }
    {
        if slot >= self.held.len() {
            return Ok(());
        }
        self.make_first_room(text.len())?;
        let lacked = self.is_lacking(slot);
        let start = self.given.len();
        self.given.extend_from_slice(text)?;
        let end = self.given.len();
        self.held[slot] = Held::Given { start, end };
        self.lacking -= lacked as u64;
        Ok(())
    }

    /// Makes room for the answers at once, as if all were as long as the first: room that grows with each is moved again and
    /// again.
    fn make_first_room(&mut self, first_len: usize) -> Result<(), AllocError>
        ensures { self.new ≡ self.old }
    {
        if self.given.is_empty() {
            let all = first_len.saturating_mul(self.lacking as usize);
            self.given.reserve(all.min(MOST_FIRST_ROOM))?;
        }
        Ok(())
    }

    /// Whether an answer stands in one of the slots, where this one has this text.
    pub(crate) fn has_answer_with(&self, slot: usize, text: &[u8]) -> bool
        ensures { result ≡ some_text (slot_texts (slice_set self.now slot (Some text.now))) }
    {
        for index in 0..self.len() {
            if !self.text_with(index, slot, text).is_empty() {
                return true;
            }
        }
        false
    }

    /// Puts the answers behind these bytes as one array, where this slot has this text. Of no answers nothing is put.
    pub(crate) fn put_with(
        &self,
        bytes: &mut Vec<u8>,
        slot: usize,
        text: &[u8],
    ) -> Result<(), AllocError>
        ensures ok { OnOk result (bytes.new.items ≡ bytes.old.items ++
            first_or_none (joined true (slot_texts (slice_set self.now slot (Some text.now))))) }
        ensures err { OnErr result (bytes.new.items ≡ bytes.old.items) }
    {
        if !self.has_answer_with(slot, text) {
            return Ok(());
        }
        let before = bytes.len();
        match self.put_each_with(bytes, slot, text) {
            Ok(()) => Ok(()),
            Err(refused) => {
                bytes.truncate(before);
                Err(refused)
            }
        }
    }

    /// Where the answers can't be put whole, what was there still stands in front.
    fn put_each_with(&self, bytes: &mut Vec<u8>, slot: usize, text: &[u8]) -> Result<(), AllocError>
        requires { some_text (slot_texts (slice_set self.now slot (Some text.now))) ≡ true }
        ensures ok { OnOk result (bytes.new.items ≡ bytes.old.items ++
            batch_text (slot_texts (slice_set self.now slot (Some text.now)))) }
        ensures front { OnErr result (StartsWith bytes.new.items bytes.old.items) }
    {
        bytes.reserve(self.array_room(text))?;
        let mut mark = b'[';
        for index in 0..self.len() {
            mark = put_answer(bytes, mark, self.text_with(index, slot, text))?;
        }
        bytes.extend_from_slice(b"]")
    }

    /// The length of the array, and one more for the LF of a line; where a call has no answer, one more for its comma. Room
    /// for all of it at once is just that, where room that grows may be twice as large.
    fn array_room(&self, text: &[u8]) -> usize {
        let marks = self.held.len().saturating_add(2);
        let kept = self.known_len.saturating_add(self.given.len());
        kept.saturating_add(text.len()).saturating_add(marks)
    }

    /// What stands in the slot with this index, where that one has this text.
    fn text_with<'a>(&'a self, index: usize, slot: usize, text: &'a [u8]) -> &'a [u8]
        requires { index < length self.now }
        ensures { result.now ≡ slot_text (slot_in index (slice_set self.now slot (Some text.now))) }
    {
        if index == slot {
            return text;
        }
        self.held[index].text(self.given.as_slice())
    }
}

/// Puts this mark and the answer behind these bytes, and gives the mark of the next one. Of an empty text nothing is put.
fn put_answer(bytes: &mut Vec<u8>, mark: u8, answer: &[u8]) -> Result<u8, AllocError>
    ensures next { IfOk result (λ next. next ≡ next_mark mark answer.now) }
    ensures ok { OnOk result (bytes.new.items ≡ bytes.old.items ++ behind mark answer.now) }
    ensures front { StartsWith bytes.new.items bytes.old.items }
{
    if answer.is_empty() {
        return Ok(mark);
    }
    bytes.push(mark)?;
    bytes.extend_from_slice(answer)?;
    Ok(b',')
}
