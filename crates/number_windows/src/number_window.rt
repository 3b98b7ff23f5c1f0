ghost use Rattle.std.specs.Prelude.{◌≡◌, ◌<◌, ◌^◌, ◌-◌, ◌++◌, ◌∷◌, [], length, true, Some, None, OnOk, IfOk, IfErr, option_copied};
ghost use Rattle.number_windows.specs.Numbered.{at, without, changed_at, first_number, first_above, next_number, Below};

use crate::block;
use crate::pages::Pages;
use std::alloc::{AllocError, Global};
use std::collections::VecDeque;

/// So many entries stand in the queue.
const RECENT: usize = 32;

/// Values by their numbers. New numbers are above all others that are there. The last few entries stand in a queue, which
/// keeps its room: where few are there, none of them takes memory of its own. Older ones are in pages, which go once they
/// are empty. `IsWindow` holds at each call: the numbers ascend, those of the pages before those of the queue.
#[derive(Drop)]
pub struct NumberWindow<T> {
    /// All but the last few.
    older: Pages<T>,
    /// The last few, at most `RECENT`.
    recent: VecDeque<(u64, T)>,
    /// How many there are.
    len: u64,
    /// No number is greater.
    top: u64,
}

impl<T: Drop> NumberWindow<T> {
    ghost use Rattle.std.specs.Borrow.{sem};
    ghost use Rattle.std.specs.Option.{option_copied_mut};
    ghost use Rattle.number_windows.specs.Lends.{lends_in_window};
    ghost use Rattle.number_windows.specs.Windows.{window_entries, IsWindow, HasRoom};

    /// Takes no memory.
    pub fn new(alloc: Global) -> NumberWindow<T>
        ensures entries { window_entries result ≡ [] }
        ensures window { IsWindow result }
    {
        NumberWindow {
            older: Pages::new(alloc),
            recent: VecDeque::new(alloc),
            len: 0,
            top: 0,
        }
    }

    /// How many there are.
    pub fn len(&self) -> u64
        requires { IsWindow self.now }
        ensures { result ≡ length (window_entries self.now) }
    {
        self.len
    }

    /// Whether a number is known to be above all others. Where a greater one was there it may not be.
    pub fn ends_below(&self, number: u64) -> bool
        requires { IsWindow self.now }
        ensures { result ≡ true → Below number (window_entries self.now) }
    {
        self.len == 0 || self.top < number
    }

    /// Makes room for one more. Where memory is refused nothing changes.
    pub fn make_room(&mut self) -> Result<(), AllocError>
        requires { IsWindow self.old }
        ensures entries { window_entries self.new ≡ window_entries self.old }
        ensures window { IsWindow self.new }
        ensures room { OnOk result (HasRoom self.new) }
    {
        if self.len == u64::MAX {
            return Err(AllocError);
        }
        if self.recent.len() == RECENT {
            return self.move_first();
        }
        self.recent.reserve(1)
    }

    /// Moves the first of the queue to the others.
    fn move_first(&mut self) -> Result<(), AllocError>
        requires window { IsWindow self.old }
        requires some { 0 < length self.old.recent.items }
        requires few { self.old.len < 2 ^ 64 - 1 }
        ensures entries { window_entries self.new ≡ window_entries self.old }
        ensures window { IsWindow self.new }
        ensures room { OnOk result (HasRoom self.new) }
    {
        let first = match self.recent.pop_front() {
            Some(first) => first,
            None => return Ok(()),
        };
        match self.older.push(first) {
            Ok(()) => Ok(()),
            Err(first) => {
                self.recent.push_front_reserved(first);
                Err(AllocError)
            }
        }
    }

    /// Adds an entry, whose number is above all others. Takes no memory.
    pub fn push(&mut self, number: u64, value: T)
        requires window { IsWindow self.old }
        requires room { HasRoom self.old }
        requires above { Below number (window_entries self.old) }
        ensures entries { window_entries self.new ≡ window_entries self.old ++ (number, value) ∷ [] }
        ensures window { IsWindow self.new }
    {
        self.recent.push_back_reserved((number, value));
        self.len += 1;
        self.top = number;
    }

    /// The value with this number.
    pub fn get(&self, number: u64) -> Option<&T>
        requires { IsWindow self.now }
        ensures { option_copied result ≡ at number (window_entries self.now) }
    {
        match block::get(&self.recent, number) {
            Some(value) => Some(value),
            None => self.older.get(number),
        }
    }

    /// The value with this number, for writing.
    pub fn get_mut(&mut self, number: u64) -> Option<&mut T>
        requires { IsWindow self.old }
        ensures* writes_back { sem 𝓛 (lends_in_window T.row self.entry number result) }
        ensures value { option_copied_mut result ≡ at number (window_entries self.old) }
    {
        match block::place(&self.recent, number) {
            Some(index) => Some(&mut self.recent[index].1),
            None => self.older.get_mut(number),
        }
    }

    /// Puts this value in the place of the one with this number, and answers what stood there. Where there is none nothing
    /// changes, and the value comes back. Takes no memory.
    pub fn replace(&mut self, number: u64, value: T) -> Result<T, T>
        requires { IsWindow self.old }
        ensures was { IfOk result (λ was. at number (window_entries self.old) ≡ Some was) }
        ensures missing { IfErr result (λ back.
            (back ≡ value) × (at number (window_entries self.old) ≡ None)) }
        ensures entries { window_entries self.new ≡
            changed_at number (λ _. value) (window_entries self.old) }
        ensures window { IsWindow self.new }
    {
        match block::put_in(&mut self.recent, number, value) {
            Ok(was) => Ok(was),
            Err(value) => self.older.replace(number, value),
        }
    }

    /// Takes the value with this number out.
    pub fn remove(&mut self, number: u64) -> Option<T>
        requires { IsWindow self.old }
        ensures value { result ≡ at number (window_entries self.old) }
        ensures entries { window_entries self.new ≡ without number (window_entries self.old) }
        ensures window { IsWindow self.new }
    {
        if let Some(value) = block::take_out(&mut self.recent, number) {
            self.len -= 1;
            return Some(value);
        }
        match self.older.remove(number) {
            Some(value) => {
                self.len -= 1;
                Some(value)
            }
            None => None,
        }
    }

    /// The least number.
    pub fn first(&self) -> Option<u64>
        requires { IsWindow self.now }
        ensures { result ≡ first_number (window_entries self.now) }
    {
        if let Some(number) = self.older.first() {
            return Some(number);
        }
        match self.recent.front() {
            Some((number, _)) => Some(*number),
            None => None,
        }
    }

    /// The least number above `after`.
    pub fn next(&self, after: u64) -> Option<u64>
        requires { IsWindow self.now }
        ensures { result ≡ next_number after (window_entries self.now) }
    {
        match self.first_above(after) {
            Some((number, _)) => Some(*number),
            None => None,
        }
    }

    /// The first entry above `after`. In a walk from entry to entry few are looked at twice.
    pub fn first_above(&self, after: u64) -> Option<&(u64, T)>
        requires { IsWindow self.now }
        ensures { option_copied result ≡ first_above after (window_entries self.now) }
    {
        if block::begins_up_to(&self.recent, after) {
            return block::first_above(&self.recent, after);
        }
        match self.older.first_above(after) {
            Some(entry) => Some(entry),
            None => block::first_above(&self.recent, after),
        }
    }
}
