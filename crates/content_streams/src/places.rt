//! Where the contents begin that wait until they are taken.

ghost use Rattle.std.specs.Prelude.{◌≡◌, ◌++◌, ◌∷◌, [], None, drop, slice_get};
ghost use Rattle.content_streams.specs.Inner.Rows.{place_items};

use std::alloc::Global;
use std::collections::VecDeque;

/// The offsets of the contents in a row. That of the last one stands by itself, so that to add it takes no memory.
#[derive(Drop)]
pub(crate) struct Places {
    pub(crate) waiting: VecDeque<u64>,
    pub(crate) last: Option<u64>,
}

impl Places {
    pub(crate) fn new(alloc: Global) -> Places
        ensures items { place_items result ≡ [] }
        ensures last { result.last ≡ None }
    {
        Places {
            waiting: VecDeque::new(alloc),
            last: None,
        }
    }

    /// Adds that of the last content.
    pub(crate) fn add_last(&mut self, place: u64)
        requires { self.old.last ≡ None }
        ensures { place_items self.new ≡ place_items self.old ++ place ∷ [] }
    {
        self.last = Some(place);
    }

    pub(crate) fn front(&self) -> Option<u64>
        ensures { result ≡ slice_get (place_items self.now) 0 }
    {
        match self.waiting.front() {
            Some(place) => Some(*place),
            None => self.last,
        }
    }

    /// Takes the first, if there is one.
    pub(crate) fn pop(&mut self)
        ensures items { place_items self.new ≡ drop 1 (place_items self.old) }
        ensures last { self.old.last ≡ None → self.new.last ≡ None }
    {
        if self.waiting.pop_front().is_none() {
            self.last = None;
        }
    }
}
