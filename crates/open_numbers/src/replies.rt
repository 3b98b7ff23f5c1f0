ghost use Rattle.std.specs.Prelude.{◌≡◌, IfOk, replicate, is_some, option_copied};
ghost use Rattle.open_numbers.specs.declared.replies.Slot.TheVariants.{Empty};
ghost use Rattle.open_numbers.specs.Replies.{slot_at, put_into, given_by};
ghost use Rattle.open_numbers.specs.Kept.{slots_with, slots_without};

use rpc_messages::{Reply, Standard};
use std::alloc::{AllocError, Global};
use std::marker::Model;
use std::mem;

/// The room for the reply of one turn.
#[derive(Drop)]
pub enum Slot {
    /// No reply has come.
    Empty,
    /// The first reply, which nobody has taken yet.
    Held(Reply),
    /// The reply was taken.
    Given,
}

/// What became of a reply that was put on the board.
#[derive(Clone, Copy, Debug, PartialEq, Eq)]
pub enum Put {
    /// Nobody can hear it: the board is closed, the number isn't open or has no such turn.
    Unknown,
    /// It isn't the first reply of its turn.
    Second,
    /// It is the first reply of its turn, and is kept.
    Kept,
}

/// The replies to the calls of one number, with room for each of its turns, seen by contracts as the list of its slots.
#[derive(Drop)]
pub struct Replies {
    slots: Vec<Slot>,
}

impl Model for Replies {
    ghost use Rattle.std.specs.Prelude.{List};
    ghost use Rattle.std.specs.Coded.{codes};
    ghost use Rattle.json_values.specs.Codes.{coded_data};
    ghost use Rattle.open_numbers.specs.declared.replies.Slot.{Slot};

    ghost Value = { List Slot };

    ghost coded = { Prim.hlevel (codes, coded_data) };

    ghost view = { λ r. r.slots.items };
}

impl Replies {
    /// Room for the turns 1 to `most`.
    pub fn with_room(alloc: Global, most: u32) -> Result<Replies, AllocError>
        ensures { IfOk result (λ replies. replies ≡ replicate most Empty) }
    {
        let mut slots = Vec::with_capacity(alloc, most as usize)?;
        for _turn in 0..most {
            slots.push(Slot::Empty)?;
        }
        Ok(Replies { slots })
    }

    /// Keeps the first reply of a turn.
    pub fn put(&mut self, turn: u32, reply: Reply) -> Put
        ensures put { result ≡ put_into (slot_at self.old turn) }
        ensures after { self.new ≡ slots_with self.old turn reply }
    {
        let put = put_of(self.slots.as_slice(), turn);
        match put {
            Put::Kept => drop(mem::replace(&mut self.slots[turn as usize - 1], Slot::Held(reply))),
            Put::Second | Put::Unknown => drop(reply),
        }
        put
    }

    /// Takes the reply of a turn out of its slot.
    pub fn take(&mut self, turn: u32, is_closed: bool) -> Option<Reply>
        ensures reply { result ≡ given_by is_closed (slot_at self.old turn) }
        ensures after { self.new ≡ slots_without is_closed self.old turn }
    {
        if !self.has(turn, is_closed) {
            return None;
        }
        match mem::replace(&mut self.slots[turn as usize - 1], Slot::Given) {
            Slot::Held(reply) => Some(reply),
            Slot::Empty => Some(Reply::Standard(Standard::NoReply)),
            Slot::Given => None,
        }
    }

    /// Whether `take` would give one.
    pub fn has(&self, turn: u32, is_closed: bool) -> bool
        ensures { result ≡ is_some (given_by is_closed (slot_at self.now turn)) }
    {
        match slot_of(self.slots.as_slice(), turn) {
            Some(Slot::Held(_)) => true,
            Some(Slot::Empty) => is_closed,
            Some(Slot::Given) | None => false,
        }
    }
}

fn put_of(slots: &[Slot], turn: u32) -> Put
    ensures { result ≡ put_into (slot_at slots.now turn) }
{
    match slot_of(slots, turn) {
        Some(Slot::Empty) => Put::Kept,
        Some(Slot::Held(_) | Slot::Given) => Put::Second,
        None => Put::Unknown,
    }
}

/// The slot of a turn, where it has one.
fn slot_of(slots: &[Slot], turn: u32) -> Option<&Slot>
    ensures { option_copied result ≡ slot_at slots.now turn }
{
    if turn == 0 {
        return None;
    }
    slots.get(turn as usize - 1)
}
