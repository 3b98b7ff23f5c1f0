//! Bytes that are written one part behind another.

ghost use Rattle.std.specs.Prelude.{◌≡◌, ◌≤◌, ◌<◌, ◌^◌, ◌++◌, [], OnOk, length, slice_range};

use std::alloc::{AllocError, Global};
use std::marker::Model;
use std::simd::prelude::*;

/// So many bytes are moved at once.
pub(crate) const STORE: usize = 16;

/// So many bytes behind what was written have a value, at most: to give all the room one would cost a pass over it.
const AHEAD: usize = 1024;

/// What was written. Behind it stand bytes without a meaning, so that a short part is written by one store, with what stands
/// behind it in its text.
#[derive(Drop)]
pub(crate) struct Room {
    bytes: Vec<u8>,
    len: usize,
}

impl Model for Room {
    ghost use Rattle.std.specs.Prelude.{◌≤◌, ℕ, List, length, take};

    ghost Value = { List ℕ };

    ghost view = { λ r. take r.len r.bytes.items };

    ghost invariant = { λ r. r.len ≤ length r.bytes.items };
}

impl Room {
    /// Nothing was written. Takes no memory.
    pub(crate) fn new(alloc: Global) -> Room
        ensures { result ≡ [] }
    {
        Room {
            bytes: Vec::new(alloc),
            len: 0,
        }
    }

    pub(crate) fn len(&self) -> usize
        ensures value { result ≡ length self.now }
        ensures bound { result < 2 ^ 63 }
    {
        self.len
    }

    /// Writes this part of a text. What the whole text takes is asked for at once.
    #[inline(always)]
    pub(crate) fn append(&mut self, text: &[u8], from: usize, to: usize) -> Result<(), AllocError>
        requires { (from ≤ to) × (to ≤ length text.now) }
        ensures { OnOk result (self.new ≡ self.old ++ slice_range text.now from to) }
    {
        let count = to - from;
        let is_within = text.len() - from >= STORE;
        if count <= STORE && is_within && self.bytes.len() - self.len >= STORE {
            // (`copy_from_slice` would first look whether the two overlap.)
            let some = u8x16::from_slice(&text[from..]);
            some.copy_to_slice(&mut self.bytes.as_mut_slice()[self.len..self.len + STORE]);
            self.len += count;
            return Ok(());
        }
        self.append_slowly(text, from, to)
    }

    /// The same of any part.
    #[inline(never)]
    fn append_slowly(&mut self, text: &[u8], from: usize, to: usize) -> Result<(), AllocError>
        requires { (from ≤ to) × (to ≤ length text.now) }
        ensures { OnOk result (self.new ≡ self.old ++ slice_range text.now from to) }
    {
        let count = to - from;
        if self.bytes.len() - self.len < count {
            return self.extend(&text[from..to], text.len());
        }
        let room = &mut self.bytes.as_mut_slice()[self.len..self.len + count];
        room.copy_from_slice(&text[from..to]);
        self.len += count;
        Ok(())
    }

    /// The same where there is less room: room for so many bytes in all is asked for, where the part isn't longer.
    fn extend(&mut self, part: &[u8], whole: usize) -> Result<(), AllocError>
        ensures { OnOk result (self.new ≡ self.old ++ part.now) }
    {
        self.bytes.truncate(self.len);
        let left = whole.saturating_sub(self.len).max(part.len());
        self.bytes.reserve(left.saturating_add(STORE))?;
        self.bytes.extend_from_slice(part)?;
        self.len = self.bytes.len();
        let ahead = (self.bytes.capacity() - self.len).min(AHEAD);
        self.bytes.resize(self.len + ahead, 0)
    }

    /// What was written, with no new memory.
    pub(crate) fn into_vec(self) -> Vec<u8>
        ensures { result.items ≡ self }
    {
        let Room { mut bytes, len } = self;
        bytes.truncate(len);
        bytes
    }
}
