ghost use Rattle.std.specs.Prelude.{◌≡◌, ◌<◌, ◌^◌, [], length, false, OnOk, OnErr};
ghost use Rattle.conversation_rules.specs.Runs.{has_number, with_number};
ghost use Rattle.conversation_ids.specs.Next.{next_run, put};

use std::alloc::{AllocError, Global};
use std::collections::BTreeMap;
use std::marker::Model;

/// Numbers as runs, so that those that follow one another take the memory of one.
#[derive(Drop)]
pub(crate) struct Runs {
    /// The first number of each run, by its last.
    firsts: BTreeMap<u128, u128>,
}

impl Model for Runs {
    ghost use Rattle.std.specs.Prelude.{ℕ, List};

    ghost Value = { List (ℕ × ℕ) };

    ghost use Rattle.conversation_rules.specs.Runs.{AreRuns};

    ghost view = { λ s. s.firsts.entries };

    ghost invariant = { λ s. AreRuns 0 s.firsts.entries };
}

impl Runs {
    pub(crate) fn new(alloc: Global) -> Runs
        ensures { result ≡ [] }
    {
        Runs {
            firsts: BTreeMap::new(alloc),
        }
    }

    /// How many runs there are.
    pub(crate) fn len(&self) -> usize
        ensures { result ≡ length self.now }
    {
        self.firsts.len()
    }

    pub(crate) fn contains(&self, number: u128) -> bool
        ensures { result ≡ has_number number self.now }
    {
        match self.firsts.range(number..).next() {
            Some((_last, first)) => *first <= number,
            None => false,
        }
    }

    /// Puts a number in that isn't there.
    pub(crate) fn insert(&mut self, number: u128) -> Result<(), AllocError>
        requires positive { 0 < number }
        requires fits { number < 2 ^ 65 }
        requires missing { has_number number self.old ≡ false }
        ensures ok { OnOk result (self.new ≡ with_number number self.old) }
        ensures err { OnErr result (self.new ≡ self.old) }
    {
        let next = self.last_behind(number);
        let before = self.firsts.get(&(number - 1)).copied();
        put(&mut self.firsts, number, before, next)?;
        Ok(())
    }

    /// The last number of the run that begins right behind a number.
    fn last_behind(&self, number: u128) -> Option<u128>
        requires fits { number < 2 ^ 65 }
        ensures { result ≡ next_run number self.now }
    {
        let (last, first) = self.firsts.range(number..).next()?;
        if *first == number + 1 {
            Some(*last)
        } else {
            None
        }
    }
}

/// Puts a number in, by the first number of the run that ends right before it, and the last of the one that begins right
/// behind it.
fn put(
    firsts: &mut BTreeMap<u128, u128>,
    number: u128,
    before: Option<u128>,
    next: Option<u128>,
) -> Result<(), AllocError>
    requires { 0 < number }
    ensures ok { OnOk result (firsts.new.entries ≡ put number before next firsts.old.entries) }
    ensures err { OnErr result (firsts.new.entries ≡ firsts.old.entries) }
{
    firsts.insert(next.unwrap_or(number), before.unwrap_or(number))?;
    if before.is_some() {
        let _joined = firsts.remove(&(number - 1));
    }
    Ok(())
}
