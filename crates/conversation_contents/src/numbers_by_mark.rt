ghost use Rattle.std.specs.Prelude.{◌≡◌, ℕ, ◌<◌, ◌==◌, ◌&&◌, true, false, if◌then◌else◌, OnOk, OnErr, MatchOption};

use std::alloc::{AllocError, Global};
use std::collections::BTreeSet;
use std::ops::Bound;

/// Numbers by marks. Each call takes a logarithm of how many pairs of a mark and a number there are.
#[derive(Drop)]
pub struct NumbersByMark {
    /// The mark first and then the number, so those of one mark stand together.
    pairs: BTreeSet<(u128, u64)>,
}

impl NumbersByMark {
    ghost use Rattle.conversation_contents.specs.Numbers.{has_number};

    /// Takes no memory.
    pub fn new(alloc: Global) -> NumbersByMark
        ensures { (mark number : ℕ) → has_number result mark number ≡ false }
    {
        NumbersByMark {
            pairs: BTreeSet::new(alloc),
        }
    }

    /// A number stands under a mark too.
    pub fn add(&mut self, mark: u128, number: u64) -> Result<(), AllocError>
        ensures ok { OnOk result ((m n : ℕ) → has_number self.new m n ≡
            (if (mark == m) && (number == n) then true else has_number self.old m n)) }
        ensures err { OnErr result ((m n : ℕ) → has_number self.new m n ≡ has_number self.old m n) }
    {
        self.pairs.insert((mark, number))?;
        Ok(())
    }

    /// A number stands under a mark no longer.
    pub fn remove(&mut self, mark: u128, number: u64)
        ensures { (m n : ℕ) → has_number self.new m n ≡
            (if (mark == m) && (number == n) then false else has_number self.old m n) }
    {
        self.pairs.remove(&(mark, number));
    }

    /// The least number of this mark above `after`.
    pub fn next(&self, mark: u128, after: u64) -> Option<u64>
        ensures { MatchOption result
            ((n : ℕ) → after < n → has_number self.now mark n ≡ false)
            (λ number. (after < number) × (has_number self.now mark number ≡ true) ×
            ((n : ℕ) → after < n → n < number → has_number self.now mark n ≡ false)) }
    {
        let pairs = (Bound::Excluded((mark, after)), Bound::Unbounded);
        match self.pairs.range(pairs).next() {
            Some((of, number)) if *of == mark => Some(*number),
            _ => None,
        }
    }
}
