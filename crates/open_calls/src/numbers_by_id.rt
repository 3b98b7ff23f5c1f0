ghost use Rattle.std.specs.Prelude.{◌≡◌, ℕ, ◌<◌, ◌==◌, ◌&&◌, true, false, if◌then◌else◌, OnOk, OnErr, IfSome, IfNone, MatchOption};
ghost use Rattle.message_ids.specs.declared.id.Id.{Id};
ghost use Rattle.message_ids.specs.Ids.{same_id};

use crate::ascending_ids::AscendingIds;
use crate::other_numbers::OtherNumbers;
use message_ids::Id;
use std::alloc::{AllocError, Global};

/// The index by which a cancel finds its requests: of each id their numbers.
#[derive(Drop)]
pub struct NumbersById {
    /// Those whose ids came as ascending numbers.
    ascending: AscendingIds,
    /// All others.
    others: OtherNumbers,
}

impl NumbersById {
    ghost use Rattle.open_calls.specs.Inner.{is_listed, is_ascending};

    pub fn new(alloc: Global) -> NumbersById
        ensures { (id : Id) (k : ℕ) → is_listed result id k ≡ false }
    {
        NumbersById {
            ascending: AscendingIds::new(alloc),
            others: OtherNumbers::new(alloc),
        }
    }

    /// The least number of this id.
    pub fn least(&self, id: &Id) -> Option<u64>
        ensures { MatchOption result
            ((k : ℕ) → is_listed self.now id.now k ≡ false)
            (λ number. (is_listed self.now id.now number ≡ true) ×
            ((k : ℕ) → k < number → is_listed self.now id.now k ≡ false)) }
    {
        let other = self.others.least(id);
        match self.ascending.number_of(id) {
            Some(own) => match other {
                Some(other) if other < own => Some(other),
                _ => Some(own),
            },
            None => other,
        }
    }

    /// Takes a number of this id out.
    pub fn remove(&mut self, id: &Id, number: u64)
        ensures { (q : Id) (k : ℕ) → is_listed self.new q k ≡
            (if same_id id.now q && (number == k) then false else is_listed self.old q k) }
    {
        self.ascending.remove(id, number);
        self.others.remove(id, number);
    }

    pub fn add(&mut self, id: &Id, number: u64) -> Result<(), AllocError>
        ensures ok { OnOk result ((q : Id) (k : ℕ) → is_listed self.new q k ≡
            (if same_id id.now q && (number == k) then true else is_listed self.old q k)) }
        ensures err { OnErr result ((q : Id) (k : ℕ) →
            is_listed self.new q k ≡ is_listed self.old q k) }
    {
        if self.ascending.add(id, number)? {
            return Ok(());
        }
        self.others.add(id, number)
    }
}
