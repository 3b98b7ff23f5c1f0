ghost use Rattle.std.specs.Prelude.{◌≡◌, ◌<◌, ◌==◌, ◌&&◌, true, false, if◌then◌else◌, OnOk, OnErr, option_copied};
ghost use Rattle.open_numbers.specs.Requests.{id_in_reach_of, is_reached_by};
ghost use Rattle.message_ids.specs.declared.id.Id.{Id};
ghost use Rattle.message_ids.specs.Ids.{same_id};

use crate::kept::Kept;
use rpc_messages::Id;
use std::alloc::{AllocError, Global};
use std::collections::{BTreeMap, BTreeSet};

/// The numbers of requests, by their ids.
#[derive(Drop)]
pub struct RequestsById {
    alloc: Global,
    numbers: BTreeMap<Id, BTreeSet<u32>>,
}

impl RequestsById {
    ghost use Rattle.std.specs.Prelude.{ℕ};
    ghost use Rattle.open_numbers.specs.Requests.{is_reached_by, is_listed, IsLowestListed, IsUnchanged, IsWithMore, IsWithout};

    pub fn new(alloc: Global) -> RequestsById
        ensures { (id : Id) (k : ℕ) → is_listed result id k ≡ false }
    {
        RequestsById {
            alloc,
            numbers: BTreeMap::new(alloc),
        }
    }

    /// The lowest number of this id.
    pub fn lowest(&self, id: &Id) -> Option<u32>
        ensures { IsLowestListed self.now id.now result }
    {
        self.numbers.get(id)?.first().copied()
    }

    /// Takes a number of this id out.
    pub fn remove(&mut self, id: &Id, number: u32)
        ensures { (q : Id) (k : ℕ) → is_listed self.new q k ≡
            (if same_id id.now q && (number == k) then false else is_listed self.old q k) }
    {
        match self.numbers.get_mut(id) {
            Some(numbers) => {
                numbers.remove(&number);
                if !numbers.is_empty() {
                    return;
                }
            }
            None => return,
        }
        drop(self.numbers.remove(id));
    }

    /// Takes this number out, where it is one that a cancel can reach.
    pub fn remove_kept(&mut self, number: u32, kept: Option<&Kept>)
        ensures { ((id : Id) → is_listed self.old id number ≡
            is_reached_by id (option_copied kept.entry)) → IsWithout self.new self.old number }
    {
        match id_in_reach(kept) {
            Some(id) => self.remove(id, number),
            None => {}
        }
    }

    /// Adds this number, where it is one that a cancel can reach.
    pub fn add_kept(&mut self, number: u32, kept: Option<&Kept>) -> Result<(), AllocError>
        requires { (id : Id) → is_listed self.old id number ≡ false }
        ensures ok { OnOk result (IsWithMore self.new self.old number (option_copied kept.entry)) }
        ensures err { OnErr result (IsUnchanged self.new self.old) }
    {
        match id_in_reach(kept) {
            Some(id) => self.add(id, number),
            None => Ok(()),
        }
    }

    fn add(&mut self, id: &Id, number: u32) -> Result<(), AllocError>
        ensures listed { OnOk result ((q : Id) (k : ℕ) → is_listed self.new q k ≡
            (if same_id id.now q && (number == k) then true else is_listed self.old q k)) }
        ensures err { OnErr result (IsUnchanged self.new self.old) }
    {
        match self.numbers.get_mut(id) {
            Some(others) => {
                others.insert(number)?;
                Ok(())
            }
            None => self.add_first(id, number),
        }
    }

    /// Adds a number of an id that has none.
    fn add_first(&mut self, id: &Id, number: u32) -> Result<(), AllocError>
        requires { (k : ℕ) → is_listed self.old id.now k ≡ false }
        ensures listed { OnOk result ((q : Id) (k : ℕ) → is_listed self.new q k ≡
            (if same_id id.now q && (number == k) then true else is_listed self.old q k)) }
        ensures err { OnErr result (IsUnchanged self.new self.old) }
    {
        let mut numbers = BTreeSet::new(self.alloc);
        numbers.insert(number)?;
        self.numbers.insert(id.clone()?, numbers)?;
        Ok(())
    }
}

/// Whether this is an open request of that id that no cancel has reached.
pub(crate) fn is_reached_by(kept: Option<&Kept>, id: &Id) -> bool
    ensures { result ≡ is_reached_by id.now (option_copied kept.entry) }
{
    match id_in_reach(kept) {
        Some(own) => own == id,
        None => false,
    }
}

/// The id, where this is an open request that no cancel has reached.
fn id_in_reach(kept: Option<&Kept>) -> Option<&Id>
    ensures { option_copied result ≡ id_in_reach_of (option_copied kept.entry) }
{
    match kept {
        Some(Kept::Open(call)) => call.id_in_reach(),
        Some(Kept::Answered { .. }) | None => None,
    }
}
