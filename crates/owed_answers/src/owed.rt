ghost use Rattle.std.specs.Prelude.{◌≡◌, ◌==◌, ◌++◌, ◌∷◌, [], ℕ, List, true, false, IsTrue, IfOk, OnOk, OnErr};

use crate::batch::Batch;
use crate::slot::Slot;
use std::alloc::{AllocError, Global};
use std::marker::Model;

/// A unit whose answer isn't out: of each entry that has an answer its text, once it is given. There are as many units as
/// open calls, and most are no batch, so that what only a batch needs is boxed.
#[derive(Drop)]
pub struct Owed {
    slots: Slots,
}

#[derive(Drop)]
pub(crate) enum Slots {
    /// Of a unit that is no batch, as it came.
    One(Slot),
    /// The answer of a unit that is no batch, which was given, and can't go out yet.
    Given(Box<Vec<u8>>),
    Several(Box<Batch>),
}

impl Model for Owed {
    ghost use Rattle.owed_answers.specs.Owed.{OwedUnit};

    ghost Value = { OwedUnit };

    ghost use Rattle.owed_answers.specs.Slots.{unit_of};

    ghost view = { λ a. unit_of a.slots };
}

impl Owed {
    ghost use Rattle.owed_answers.specs.Owed.{given, has_answer, lacking, seen_slot, unit_text};

    /// A batch with these slots.
    pub fn batch(alloc: Global, batch: Batch) -> Result<Owed, AllocError>
        ensures { IfOk result (λ unit. unit ≡ record { is_batch = true; slots = batch }) }
    {
        Ok(Owed {
            slots: Slots::Several(Box::new(alloc, batch)?),
        })
    }

    /// A unit that is no batch. Takes no memory.
    pub fn single(slot: Slot) -> Owed
        ensures { result ≡ record { is_batch = false; slots = seen_slot slot ∷ [] } }
    {
        Owed {
            slots: Slots::One(slot),
        }
    }

    /// How many slots have no text.
    pub fn lacking(&self) -> u64
        ensures { result ≡ lacking self.now }
    {
        match &self.slots {
            Slots::One(slot) => slot.is_lacking() as u64,
            Slots::Given(_) => 0,
            Slots::Several(batch) => batch.lacking(),
        }
    }

    /// Whether no slot would lack its text, were this one given its.
    pub fn is_complete_with(&self, slot: u64) -> bool
        ensures { (text : List ℕ) → result ≡ (lacking (given slot text self.now) == 0) }
    {
        match &self.slots {
            Slots::One(only) => slot == 0 || !only.is_lacking(),
            Slots::Given(_) => true,
            Slots::Several(batch) => batch.is_complete_with(slot as usize),
        }
    }

    /// Whether the text that this slot is given is the answer of the unit, which is no batch.
    pub fn is_alone(&self, slot: u64) -> bool
        ensures { IsTrue result → (text : List ℕ) → unit_text (given slot text self.now) ≡ text }
    {
        slot == 0 && !matches!(&self.slots, Slots::Several(_))
    }

    /// Gives the slot this text. Where there is no such slot nothing changes.
    pub fn give(&mut self, alloc: Global, slot: u64, text: &[u8]) -> Result<(), AllocError>
        ensures ok { OnOk result (self.new ≡ given slot text.now self.old) }
        ensures err { OnErr result (self.new ≡ self.old) }
    {
        if let Slots::Several(batch) = &mut self.slots {
            return batch.give(slot as usize, text);
        }
        if slot == 0 {
            let copy = copy_of(alloc, text)?;
            self.slots = Slots::Given(Box::new(alloc, copy)?);
        }
        Ok(())
    }

    /// Whether there is something to write: a text that isn't empty.
    pub fn has_answer(&self) -> bool
        ensures { result ≡ has_answer self.now }
    {
        match &self.slots {
            Slots::One(slot) => !slot.text().is_empty(),
            Slots::Given(text) => !text.is_empty(),
            Slots::Several(batch) => batch.has_answer_with(batch.len(), &[]),
        }
    }

    /// Whether there would be something to write, were this slot given this text.
    pub fn has_answer_with(&self, slot: u64, text: &[u8]) -> bool
        ensures { result ≡ has_answer (given slot text.now self.now) }
    {
        if let Slots::Several(batch) = &self.slots {
            return batch.has_answer_with(slot as usize, text);
        }
        if slot == 0 {
            return !text.is_empty();
        }
        self.has_answer()
    }

    /// Puts the unit's answer behind these bytes, where there is something to write.
    pub fn put_text(&self, bytes: &mut Vec<u8>) -> Result<(), AllocError>
        ensures ok { OnOk result (bytes.new.items ≡ bytes.old.items ++ unit_text self.now) }
        ensures err { OnErr result (bytes.new.items ≡ bytes.old.items) }
    {
        match &self.slots {
            Slots::One(slot) => bytes.extend_from_slice(slot.text()),
            Slots::Given(text) => bytes.extend_from_slice(text.as_slice()),
            Slots::Several(batch) => batch.put_with(bytes, batch.len(), &[]),
        }
    }

    /// Puts the answer that the unit would have behind these bytes, were this slot given this text.
    pub fn put_text_with(
        &self,
        bytes: &mut Vec<u8>,
        slot: u64,
        text: &[u8],
    ) -> Result<(), AllocError>
        ensures ok { OnOk result (bytes.new.items ≡
            bytes.old.items ++ unit_text (given slot text.now self.now)) }
        ensures err { OnErr result (bytes.new.items ≡ bytes.old.items) }
    {
        if let Slots::Several(batch) = &self.slots {
            return batch.put_with(bytes, slot as usize, text);
        }
        if slot == 0 {
            return bytes.extend_from_slice(text);
        }
        self.put_text(bytes)
    }
}

/// A text that waits has just the room that it needs.
fn copy_of(alloc: Global, text: &[u8]) -> Result<Vec<u8>, AllocError>
    ensures { IfOk result (λ copy. copy.items ≡ text.now) }
{
    let mut copy = Vec::with_capacity(alloc, text.len())?;
    copy.extend_from_slice(text)?;
    Ok(copy)
}
