ghost use Rattle.std.specs.Prelude.{◌≡◌, ◌<◌, ◌/◌, ◌++◌, ◌∷◌, [], Some, None, OnOk, OnErr, IfOk, IfErr, option_copied};
ghost use Rattle.number_windows.specs.Numbered.{at, without, changed_at, first_number, first_above, Below};

use crate::block;
use std::alloc::Global;
use std::collections::{BTreeMap, VecDeque};
use std::ops::Bound;

/// So many numbers are one page.
const PAGE: u64 = 32;

/// Entries in blocks: those whose numbers are of one page stand side by side, and a page that has none takes no memory. So
/// the memory follows the entries, however far apart they are. `IsPages` holds at each call.
#[derive(Drop)]
pub struct Pages<T> {
    alloc: Global,
    /// The entries of each page, by its number.
    pub(crate) pages: BTreeMap<u64, VecDeque<(u64, T)>>,
}

impl<T: Drop> Pages<T> {
    ghost use Rattle.std.specs.Borrow.{sem};
    ghost use Rattle.std.specs.Option.{option_copied_mut};
    ghost use Rattle.number_windows.specs.Lends.{lends_in_pages};
    ghost use Rattle.number_windows.specs.Windows.{page_entries, IsPages};

    pub fn new(alloc: Global) -> Pages<T>
        ensures entries { page_entries result ≡ [] }
        ensures pages { IsPages result }
    {
        Pages {
            alloc,
            pages: BTreeMap::new(alloc),
        }
    }

    /// Puts an entry behind all others. Where memory is refused it comes back.
    pub fn push(&mut self, entry: (u64, T)) -> Result<(), (u64, T)>
        requires pages { IsPages self.old }
        requires above { Below entry.0 (page_entries self.old) }
        ensures ok { OnOk result (page_entries self.new ≡ page_entries self.old ++ entry ∷ []) }
        ensures err { OnErr result (page_entries self.new ≡ page_entries self.old) }
        ensures back { IfErr result (λ e. e ≡ entry) }
        ensures pages { IsPages self.new }
    {
        match self.pages.get_mut(&(entry.0 / PAGE)) {
            Some(block) => match block.push_back(entry) {
                Ok(()) => Ok(()),
                Err(refused) => Err(refused.value),
            },
            None => self.push_page(entry),
        }
    }

    /// Puts an entry behind all others, whose page has none yet.
    fn push_page(&mut self, entry: (u64, T)) -> Result<(), (u64, T)>
        requires pages { IsPages self.old }
        requires above { Below entry.0 (page_entries self.old) }
        requires first { at (entry.0 / 32) self.old.pages.entries ≡ None }
        ensures ok { OnOk result (page_entries self.new ≡ page_entries self.old ++ entry ∷ []) }
        ensures err { OnErr result (page_entries self.new ≡ page_entries self.old) }
        ensures back { IfErr result (λ e. e ≡ entry) }
        ensures pages { IsPages self.new }
    {
        let page = entry.0 / PAGE;
        let mut block = VecDeque::new(self.alloc);
        if let Err(refused) = block.push_back(entry) {
            return Err(refused.value);
        }
        match self.pages.insert(page, block) {
            Ok(_) => Ok(()),
            Err(refused) => {
                let (_, mut block) = refused.value;
                Err(block.pop_front().unwrap())
            }
        }
    }

    pub fn get(&self, number: u64) -> Option<&T>
        requires { IsPages self.now }
        ensures { option_copied result ≡ at number (page_entries self.now) }
    {
        match self.pages.get(&(number / PAGE)) {
            Some(block) => block::get(block, number),
            None => None,
        }
    }

    /// The value with this number, for writing.
    pub fn get_mut(&mut self, number: u64) -> Option<&mut T>
        requires { IsPages self.old }
        ensures* writes_back { sem 𝓛 (lends_in_pages T.row self.entry number result) }
        ensures value { option_copied_mut result ≡ at number (page_entries self.old) }
    {
        match self.pages.get_mut(&(number / PAGE)) {
            Some(block) => match block::place(block, number) {
                Some(index) => Some(&mut block[index].1),
                None => None,
            },
            None => None,
        }
    }

    /// Puts this value in the place of the one with this number, and answers what stood there. Where there is none the
    /// value comes back.
    pub fn replace(&mut self, number: u64, value: T) -> Result<T, T>
        requires { IsPages self.old }
        ensures was { IfOk result (λ was. at number (page_entries self.old) ≡ Some was) }
        ensures missing { IfErr result (λ back.
            (back ≡ value) × (at number (page_entries self.old) ≡ None)) }
        ensures entries { page_entries self.new ≡
            changed_at number (λ _. value) (page_entries self.old) }
        ensures pages { IsPages self.new }
    {
        match self.pages.get_mut(&(number / PAGE)) {
            Some(block) => block::put_in(block, number, value),
            None => Err(value),
        }
    }

    /// A page that has no entry left goes, and one that has few gives room back.
    pub fn remove(&mut self, number: u64) -> Option<T>
        requires { IsPages self.old }
        ensures value { result ≡ at number (page_entries self.old) }
        ensures entries { page_entries self.new ≡ without number (page_entries self.old) }
        ensures pages { IsPages self.new }
    {
        let page = number / PAGE;
        let (value, is_empty) = match self.pages.get_mut(&page) {
            Some(block) => {
                let value = block::take_out(block, number);
                block::give_back_room(block);
                (value, block.is_empty())
            }
            None => return None,
        };
        if is_empty {
            drop(self.pages.remove(&page));
        }
        value
    }

    /// The least number.
    pub fn first(&self) -> Option<u64>
        requires { IsPages self.now }
        ensures { result ≡ first_number (page_entries self.now) }
    {
        match self.pages.first_key_value() {
            Some((_, block)) => match block.front() {
                Some((number, _)) => Some(*number),
                None => None,
            },
            None => None,
        }
    }

    /// The first entry above `after`.
    pub fn first_above(&self, after: u64) -> Option<&(u64, T)>
        requires { IsPages self.now }
        ensures { option_copied result ≡ first_above after (page_entries self.now) }
    {
        if self.pages.is_empty() {
            return None;
        }
        if let Some(block) = self.pages.get(&(after / PAGE)) {
            if let Some(entry) = block::first_above(block, after) {
                return Some(entry);
            }
        }
        self.search_above(after)
    }

    fn search_above(&self, after: u64) -> Option<&(u64, T)>
        requires { IsPages self.now }
        ensures { option_copied result ≡ first_above after (page_entries self.now) }
    {
        let from = (Bound::Included(after / PAGE), Bound::Unbounded);
        for (_, block) in self.pages.range(from) {
            if let Some(entry) = block::search_above(block, after) {
                return Some(entry);
            }
        }
        None
    }
}
