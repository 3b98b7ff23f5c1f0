ghost use Rattle.std.specs.Prelude.{◌≡◌, ◌≤◌, ◌↔◌, ◌-◌, [], length, replicate, slice_get, IfOk, IsTrue, OnOk, OnErr, true, false};
ghost use Rattle.number_set.specs.declared.limits.TheConstants.{LARGEST_END};
ghost use Rattle.number_set.specs.Numbers.{HasRoom, is_in, marks_from, numbers, with_mark};

use crate::levels::{count_one_less, count_one_more, find_place, levels_over};
use crate::word::{WORD_SIZE, bit_behind, has_bit, with_bit, without_bit};
use std::alloc::{AllocError, Global};
use std::marker::Model;

/// Some of the numbers that there is room for, which are those from a first one up to an end.
#[derive(Drop)]
pub struct NumberSet {
    alloc: Global,
    /// The least number that there is room for.
    first: u32,
    /// How many numbers there is room for.
    room: u32,
    /// How many numbers are in.
    len: u32,
    /// For each number that there is room for a bit, which is set where it is in.
    words: Vec<u64>,
    /// Lowest, for each word, how many of its bits are set; then for each two counts their sum, and
    /// so on, up to a single count.
    levels: Vec<Vec<u32>>,
}

impl Model for NumberSet {
    ghost use Rattle.std.specs.Prelude.{map, take};
    ghost use Rattle.number_set.specs.Numbers.{Marked};
    ghost use Rattle.number_set.specs.Words.{AreWords, marks_of};

    ghost Value = { Marked };

    ghost view = { λ set. record {
      first = set.first;
      marks = take set.room (marks_of set.words.items);
    } };

    ghost invariant = { λ set. AreWords set.first set.room set.len set.words.items
        (map (λ counts. counts.items) set.levels.items) };
}

impl NumberSet {
    /// A set of no numbers, without room. Takes no memory.
    pub fn new(alloc: Global) -> NumberSet
        ensures { result ≡ record { first = 0; marks = [] } }
    {
        NumberSet {
            alloc,
            first: 0,
            room: 0,
            len: 0,
            words: Vec::new(alloc),
            levels: Vec::new(alloc),
        }
    }

    /// A set of no numbers, with room for those from `first` up to, and without, `end`.
    fn of_none(alloc: Global, first: u32, end: u32) -> Result<NumberSet, AllocError>
        requires order { first ≤ end }
        requires most { end ≤ LARGEST_END }
        ensures { IfOk result (λ set. set ≡
            record { first = first; marks = replicate (end - first) false }) }
    {
        let room = end - first;
        let count = (room as usize).div_ceil(WORD_SIZE);
        let words = vec![in alloc; 0u64; count]?;
        let levels = levels_over(alloc, vec![in alloc; 0u32; count]?)?;
        Ok(NumberSet {
            alloc,
            first,
            room,
            len: 0,
            words,
            levels,
        })
    }

    /// Makes room for the numbers from `first` up to, and without, `end`; what there was room for beside them is given
    /// back. It takes time and memory for all of them, so whoever makes room one number at a time asks for twice as much.
    pub fn make_room(&mut self, first: u32, end: u32) -> Result<(), AllocError>
        requires order { first ≤ end }
        requires most { end ≤ LARGEST_END }
        ensures ok { OnOk result (self.new ≡
            record { first = first; marks = marks_from self.old first (end - first) }) }
        ensures err { OnErr result (self.new ≡ self.old) }
    {
        let mut set = NumberSet::of_none(self.alloc, first, end)?;
        if self.len > 0 {
            put_all(&mut set, self, first, end);
        }
        *self = set;
        Ok(())
    }

    /// How many numbers are in.
    pub fn len(&self) -> u32
        ensures { result ≡ length (numbers self.now) }
    {
        self.len
    }

    /// Whether there is room for the number.
    pub fn has_room(&self, number: u32) -> bool
        ensures { IsTrue result ↔ HasRoom self.now number }
    {
        number >= self.first && number - self.first < self.room
    }

    /// Whether the number is in.
    pub fn contains(&self, number: u32) -> bool
        ensures { result ≡ is_in self.now number }
    {
        if !self.has_room(number) {
            return false;
        }
        let place = (number - self.first) as usize;
        has_bit(self.words[place / WORD_SIZE], (place % WORD_SIZE) as u32)
    }

    /// The number at a place, from 0, of those that are in, ascending.
    pub fn at(&self, place: u32) -> Option<u32>
        ensures { result ≡ slice_get (numbers self.now) place }
    {
        if place >= self.len {
            return None;
        }
        let found = find_place(self.levels.as_slice(), place);
        let bit = bit_behind(self.words[found.place], found.left);
        Some(self.first + (found.place * WORD_SIZE) as u32 + bit)
    }

    /// Puts a number in.
    pub fn insert(&mut self, number: u32)
        requires { HasRoom self.old number }
        ensures { self.new ≡ with_mark true number self.old }
    {
        if !self.contains(number) {
            let place = (number - self.first) as usize;
            let word = place / WORD_SIZE;
            self.words[word] = with_bit(self.words[word], (place % WORD_SIZE) as u32);
            count_one_more(self.levels.as_mut_slice(), word);
            self.len += 1;
        }
    }

    /// Takes a number out, where it is in.
    pub fn remove(&mut self, number: u32)
        ensures { self.new ≡ with_mark false number self.old }
    {
        if self.contains(number) {
            let place = (number - self.first) as usize;
            let word = place / WORD_SIZE;
            self.words[word] = without_bit(self.words[word], (place % WORD_SIZE) as u32);
            count_one_less(self.levels.as_mut_slice(), word);
            self.len -= 1;
        }
    }
}

/// Puts those of the numbers from `first` up to `end` in that are in `old`.
fn put_all(set: &mut NumberSet, old: &NumberSet, first: u32, end: u32)
    requires order { first ≤ end }
    requires none { set.old ≡ record { first = first; marks = replicate (end - first) false } }
    ensures { set.new ≡ record { first = first; marks = marks_from old.now first (end - first) } }
{
    for number in first..end {
        if old.contains(number) {
            set.insert(number);
        }
    }
}
