ghost use Rattle.std.specs.Prelude.{◌≡◌, ℕ, ◌<◌, ◌==◌, ◌&&◌, true, false, if◌then◌else◌, OnOk, OnErr, MatchOption};

use std::alloc::{AllocError, Global};
use std::collections::BTreeSet;
use std::ops::Bound;

/// An index of calls of ours: their keys, by the numbers on whose behalf they were made.
#[derive(Drop)]
pub struct KeysByCaller {
    /// The caller first and then the key, so those of one caller stand together.
    pairs: BTreeSet<(u64, u64)>,
}

impl KeysByCaller {
    ghost use Rattle.open_calls.specs.Inner.{has_key};

    pub fn new(alloc: Global) -> KeysByCaller
        ensures { (caller key : ℕ) → has_key result caller key ≡ false }
    {
        KeysByCaller {
            pairs: BTreeSet::new(alloc),
        }
    }

    pub fn add(&mut self, caller: u64, key: u64) -> Result<(), AllocError>
        ensures ok { OnOk result ((c k : ℕ) → has_key self.new c k ≡
            (if (caller == c) && (key == k) then true else has_key self.old c k)) }
        ensures err { OnErr result ((c k : ℕ) → has_key self.new c k ≡ has_key self.old c k) }
    {
        self.pairs.insert((caller, key))?;
        Ok(())
    }

    pub fn remove(&mut self, caller: u64, key: u64)
        ensures { (c k : ℕ) → has_key self.new c k ≡
            (if (caller == c) && (key == k) then false else has_key self.old c k) }
    {
        self.pairs.remove(&(caller, key));
    }

    /// The least key of this caller above `after`.
    pub fn next(&self, caller: u64, after: u64) -> Option<u64>
        ensures { MatchOption result
            ((k : ℕ) → after < k → has_key self.now caller k ≡ false)
            (λ key. (after < key) × (has_key self.now caller key ≡ true) ×
            ((k : ℕ) → after < k → k < key → has_key self.now caller k ≡ false)) }
    {
        if self.pairs.is_empty() {
            return None;
        }
        let pairs = (Bound::Excluded((caller, after)), Bound::Unbounded);
        match self.pairs.range(pairs).next() {
            Some((of, key)) if *of == caller => Some(*key),
            _ => None,
        }
    }
}
