ghost use Rattle.std.specs.Prelude.{◌≡◌, ℕ, ◌<◌, ◌==◌, ◌&&◌, true, false, if◌then◌else◌, OnOk, OnErr, MatchOption};
ghost use Rattle.message_ids.specs.declared.id.Id.{Id};
ghost use Rattle.message_ids.specs.Ids.{same_id};

use crate::numbers::Numbers;
use message_ids::Id;
use std::alloc::{AllocError, Global};
use std::collections::BTreeMap;

/// Of each id the numbers of its requests, in a tree.
#[derive(Drop)]
pub struct OtherNumbers {
    alloc: Global,
    numbers: BTreeMap<Id, Numbers>,
}

impl OtherNumbers {
    ghost use Rattle.open_calls.specs.Inner.{is_other};

    pub fn new(alloc: Global) -> OtherNumbers
        ensures { (id : Id) (k : ℕ) → is_other result id k ≡ false }
    {
        OtherNumbers {
            alloc,
            numbers: BTreeMap::new(alloc),
        }
    }

    /// The least number of this id.
    pub fn least(&self, id: &Id) -> Option<u64>
        ensures { MatchOption result
            ((k : ℕ) → is_other self.now id.now k ≡ false)
            (λ number. (is_other self.now id.now number ≡ true) ×
            ((k : ℕ) → k < number → is_other self.now id.now k ≡ false)) }
    {
        self.numbers.get(id)?.least()
    }

    /// Takes a number of this id out.
    pub fn remove(&mut self, id: &Id, number: u64)
        ensures { (q : Id) (k : ℕ) → is_other self.new q k ≡
            (if same_id id.now q && (number == k) then false else is_other self.old q k) }
    {
        match self.numbers.get_mut(id) {
            Some(numbers) => {
                if numbers.remove(number) {
                    return;
                }
            }
            None => return,
        }
        drop(self.numbers.remove(id));
    }

    pub fn add(&mut self, id: &Id, number: u64) -> Result<(), AllocError>
        ensures ok { OnOk result ((q : Id) (k : ℕ) → is_other self.new q k ≡
            (if same_id id.now q && (number == k) then true else is_other self.old q k)) }
        ensures err { OnErr result ((q : Id) (k : ℕ) →
            is_other self.new q k ≡ is_other self.old q k) }
    {
        match self.numbers.get_mut(id) {
            Some(others) => others.add(self.alloc, number),
            None => self.add_first(id, number),
        }
    }

    /// Adds a number of an id that has none.
    fn add_first(&mut self, id: &Id, number: u64) -> Result<(), AllocError>
        requires { (k : ℕ) → is_other self.old id.now k ≡ false }
        ensures ok { OnOk result ((q : Id) (k : ℕ) → is_other self.new q k ≡
            (if same_id id.now q && (number == k) then true else is_other self.old q k)) }
        ensures err { OnErr result ((q : Id) (k : ℕ) →
            is_other self.new q k ≡ is_other self.old q k) }
    {
        self.numbers.insert(id.clone()?, Numbers::One(number))?;
        Ok(())
    }
}
