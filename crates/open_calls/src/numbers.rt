ghost use Rattle.std.specs.Prelude.{◌≡◌, ℕ, ◌<◌, ◌==◌, true, false, if◌then◌else◌, IfOk, OnOk, OnErr, MatchOption};
ghost use Rattle.std.specs.BTreeSet.{contains};
ghost use Rattle.std.specs.Ordering.{nat_cmp};

use std::alloc::{AllocError, Global};
use std::collections::BTreeSet;

/// The numbers of the open requests that have one id, and that no cancel has reached. Few ids are used twice at a time, so a
/// number alone takes no memory of its own, and the set of several is boxed: its head would make each place in the
/// tree of ids a third larger.
#[derive(Drop)]
pub enum Numbers {
    One(u64),
    Several(Box<BTreeSet<u64>>),
}

impl Numbers {
    ghost use Rattle.open_calls.specs.Inner.{has_number};

    pub fn least(&self) -> Option<u64>
        ensures { MatchOption result
            ((k : ℕ) → has_number self.now k ≡ false)
            (λ number. (has_number self.now number ≡ true) ×
            ((k : ℕ) → k < number → has_number self.now k ≡ false)) }
    {
        match self {
            Numbers::One(number) => Some(*number),
            Numbers::Several(numbers) => numbers.first().copied(),
        }
    }

    pub fn add(&mut self, alloc: Global, number: u64) -> Result<(), AllocError>
        ensures ok { OnOk result ((k : ℕ) → has_number self.new k ≡
            (if number == k then true else has_number self.old k)) }
        ensures err { OnErr result ((k : ℕ) → has_number self.new k ≡ has_number self.old k) }
    {
        match self {
            Numbers::One(first) => {
                let both = Box::new(alloc, set_of(alloc, *first, number)?)?;
                *self = Numbers::Several(both);
            }
            Numbers::Several(numbers) => {
                numbers.insert(number)?;
            }
        }
        Ok(())
    }

    /// Takes a number out, where another one is left. Answers whether one is.
    pub fn remove(&mut self, number: u64) -> bool
        ensures some { result ≡ true → (k : ℕ) → has_number self.new k ≡
            (if number == k then false else has_number self.old k) }
        ensures none { result ≡ false → (k : ℕ) →
            (if number == k then false else has_number self.old k) ≡ false }
    {
        match self {
            Numbers::One(only) => *only != number,
            Numbers::Several(numbers) => {
                numbers.remove(&number);
                !numbers.is_empty()
            }
        }
    }
}

fn set_of(alloc: Global, first: u64, second: u64) -> Result<BTreeSet<u64>, AllocError>
    ensures { IfOk result (λ numbers. (k : ℕ) → contains nat_cmp numbers k ≡
        (if second == k then true else first == k)) }
{
    let mut numbers = BTreeSet::new(alloc);
    numbers.insert(first)?;
    numbers.insert(second)?;
    Ok(numbers)
}
