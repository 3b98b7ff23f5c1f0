//! The entries of a content.

ghost use Rattle.std.specs.Prelude.{◌≡◌, ◌<◌, ◌++◌, ◌∷◌, ◌==◌, [], length, map, position, remove, slice_get, Some, IfOk, IfSome, OnOk, OnErr, MatchOption};
ghost use Rattle.std.specs.List.{list_any, position_or_len};
ghost use Rattle.conversation_ids.specs.Ways.{fits};
ghost use Rattle.conversation_contents.specs.Entries.{AreEntries, HaveLost, IsIndexOf, IsToldOf, entries_among, entries_of};
ghost use Rattle.conversation_contents.specs.Left.{IsLeftOf, holds, index_of, left_entries};
ghost use Rattle.conversation_rules.specs.Dues.{cancelled};

use crate::look::Look;
use crate::taken::Taken;
use crate::what_is_left::Left;
use conversation_ids::{EntryMarks, Owed, Way};
use conversation_reading::WrittenId;
use std::alloc::{AllocError, Global};

/// From so many entries on an index is made once the first of them goes.
const MANY: usize = 16;

/// Entries, of which any may go. Where there are few, or all go at once, they stand in a list and are looked through. Of
/// many that go one by one an index tells which are left: what has gone stays in the list, so that nothing is moved.
/// `AreEntries` holds at each call.
#[derive(Drop)]
pub(crate) struct Entries {
    slots: Vec<Owed>,
    left: Option<Box<Left>>,
}

impl Entries {
    /// Takes no memory.
    pub(crate) fn new(alloc: Global) -> Entries
        ensures none { entries_of result ≡ [] }
        ensures stands { AreEntries result }
    {
        Entries {
            slots: Vec::new(alloc),
            left: None,
        }
    }

    pub(crate) fn is_empty(&self) -> bool
        requires { AreEntries self.now }
        ensures { result ≡ (length (entries_of self.now) == 0) }
    {
        match &self.left {
            Some(left) => left.is_empty(),
            None => self.slots.is_empty(),
        }
    }

    /// Whether there is one that is looked for.
    pub(crate) fn any(&self, look: Look, id: &WrittenId) -> bool
        requires { AreEntries self.now }
        ensures { result ≡ list_any (holds look id.now) (entries_of self.now) }
    {
        match &self.left {
            Some(left) => any_left(self.slots.as_slice(), left, look, id),
            None => self.slots.iter().any(|owed| look.holds(id, owed)),
        }
    }

    /// All of them, where no index tells which are left.
    pub(crate) fn in_line(&self) -> Option<&[Owed]>
        requires { AreEntries self.now }
        ensures { IfSome result (λ all. all.now ≡ entries_of self.now) }
    {
        match &self.left {
            Some(_) => None,
            None => Some(self.slots.as_slice()),
        }
    }

    /// A list in which they stand, and their places in it.
    pub(crate) fn placed(&self, alloc: Global) -> Result<(&[Owed], Vec<usize>), AllocError>
        requires { AreEntries self.now }
        ensures { IfOk result (λ all. IsLeftOf (slice_get all.0.now) all.1.items (entries_of self.now)) }
    {
        let places = match &self.left {
            Some(left) => places_left(alloc, self.slots.as_slice(), left)?,
            None => all_places(alloc, self.slots.as_slice())?,
        };
        Ok((self.slots.as_slice(), places))
    }

    pub(crate) fn push(&mut self, owed: Owed) -> Result<(), AllocError>
        requires { AreEntries self.old }
        ensures ok { OnOk result (entries_of self.new ≡ entries_of self.old ++ owed ∷ []) }
        ensures err { OnErr result (entries_of self.new ≡ entries_of self.old) }
        ensures stands { AreEntries self.new }
    {
        let place = self.slots.as_slice().len();
        self.slots.push(owed)?;
        match &mut self.left {
            Some(left) => left.add(self.slots.as_slice(), place, place),
            None => Ok(()),
        }
    }

    /// Takes the first off that fits, and tells of it.
    pub(crate) fn take_first(&mut self, alloc: Global, way: Way, id: &WrittenId) -> Option<Taken>
        requires { AreEntries self.old }
        ensures told { IsToldOf (slice_get (entries_of self.old) (position_or_len (fits way id.now) (entries_of self.old))) result }
        ensures entries { entries_of self.new ≡
            remove (entries_of self.old) (position_or_len (fits way id.now) (entries_of self.old)) }
        ensures stands { AreEntries self.new }
    {
        self.index_many(alloc);
        match &mut self.left {
            Some(left) => take_left(self.slots.as_slice(), left, way, id),
            None => take_in_line(&mut self.slots, way, id),
        }
    }

    /// Makes an index of many, if there is memory for it.
    fn index_many(&mut self, alloc: Global)
        requires { AreEntries self.old }
        ensures entries { entries_of self.new ≡ entries_of self.old }
        ensures stands { AreEntries self.new }
    {
        if self.left.is_none() && self.slots.len() >= MANY {
            if let Ok(left) = indexed(alloc, self.slots.as_slice()) {
                self.left = Some(left);
            }
        }
    }

    /// Takes any off, and answers its marks.
    pub(crate) fn pop(&mut self) -> Option<EntryMarks>
        requires { AreEntries self.old }
        ensures lost { MatchOption result
            (entries_of self.old ≡ [])
            (λ marks. HaveLost marks (entries_of self.old) (entries_of self.new)) }
        ensures stands { AreEntries self.new }
    {
        let taken = match &mut self.left {
            Some(left) => pop_left(self.slots.as_slice(), left),
            None => pop_in_line(&mut self.slots),
        };
        taken.map(|taken| taken.marks)
    }

    /// A cancel of this id was seen.
    pub(crate) fn cancel(&mut self, id: &WrittenId, settles: bool)
        requires { AreEntries self.old }
        ensures entries { entries_of self.new ≡ map (cancelled settles id.now) (entries_of self.old) }
        ensures stands { AreEntries self.new }
    {
        cancel_all(&mut self.slots, id, settles);
    }
}

fn any_left(slots: &[Owed], left: &Left, look: Look, id: &WrittenId) -> bool
    requires { IsIndexOf slots.now left.now }
    ensures { result ≡ list_any (holds look id.now) (entries_among slots.now (Some left.now)) }
{
    left.first(slots, look, id).is_some()
}

fn places_left(alloc: Global, slots: &[Owed], left: &Left) -> Result<Vec<usize>, AllocError>
    requires { IsIndexOf slots.now left.now }
    ensures { IfOk result (λ places. IsLeftOf (slice_get slots.now) places.items (entries_among slots.now (Some left.now))) }
{
    left.places(alloc)
}

/// An index of all of them.
fn indexed(alloc: Global, slots: &[Owed]) -> Result<Box<Left>, AllocError>
    ensures among { IfOk result (λ left. entries_among slots.now (Some left.value) ≡ slots.now) }
    ensures stands { IfOk result (λ left. IsIndexOf slots.now left.value) }
{
    let places = all_places(alloc, slots)?;
    let left = Left::of(alloc, slots, places.as_slice())?;
    Ok(Box::new(alloc, left)?)
}

/// The places of all of them.
fn all_places(alloc: Global, slots: &[Owed]) -> Result<Vec<usize>, AllocError>
    ensures { IfOk result (λ places. IsLeftOf (slice_get slots.now) places.items slots.now) }
{
    let mut places = Vec::new(alloc);
    for place in 0..slots.len() {
        places.push(place)?;
    }
    Ok(places)
}

fn take_in_line(slots: &mut Vec<Owed>, way: Way, id: &WrittenId) -> Option<Taken>
    ensures told { IsToldOf (slice_get slots.old.items (position_or_len (fits way id.now) slots.old.items)) result }
    ensures entries { slots.new.items ≡ remove slots.old.items (position_or_len (fits way id.now) slots.old.items) }
{
    match place_of(slots.as_slice(), way, id) {
        Some(place) => {
            let owed = slots.remove(place);
            Some(Taken::of(&owed))
        }
        None => None,
    }
}

/// The place of the first that fits.
fn place_of(entries: &[Owed], way: Way, id: &WrittenId) -> Option<usize>
    ensures place { result ≡ position (fits way id.now) entries.now }
    ensures within { IfSome result (λ place. place < length entries.now) }
{
    entries.iter().position(|owed| way.fits(id, owed))
}

fn take_left(slots: &[Owed], left: &mut Left, way: Way, id: &WrittenId) -> Option<Taken>
    requires { IsIndexOf slots.now left.old }
    ensures told { IsToldOf (slice_get (entries_among slots.now (Some left.old))
        (position_or_len (fits way id.now) (entries_among slots.now (Some left.old)))) result }
    ensures entries { entries_among slots.now (Some left.new) ≡ remove (entries_among slots.now (Some left.old))
        (position_or_len (fits way id.now) (entries_among slots.now (Some left.old))) }
    ensures stands { IsIndexOf slots.now left.new }
{
    match left.first(slots, Look::Fits(way), id) {
        Some(number) => take_numbered(slots, left, number),
        None => None,
    }
}

/// Takes the one with this number.
fn take_numbered(slots: &[Owed], left: &mut Left, number: u64) -> Option<Taken>
    requires { IsIndexOf slots.now left.old }
    ensures told { IsToldOf (slice_get (entries_among slots.now (Some left.old)) (index_of number (left_entries left.old)))
        result }
    ensures entries { entries_among slots.now (Some left.new) ≡
        remove (entries_among slots.now (Some left.old)) (index_of number (left_entries left.old)) }
    ensures stands { IsIndexOf slots.now left.new }
{
    match left.take(slots, number) {
        Some(place) => told_at(slots, place),
        None => None,
    }
}

fn told_at(slots: &[Owed], place: usize) -> Option<Taken>
    ensures { IsToldOf (slice_get slots.now place) result }
{
    match slots.get(place) {
        Some(owed) => Some(Taken::of(owed)),
        None => None,
    }
}

fn pop_left(slots: &[Owed], left: &mut Left) -> Option<Taken>
    requires { IsIndexOf slots.now left.old }
    ensures lost { MatchOption result
        (entries_among slots.now (Some left.old) ≡ [])
        (λ taken. HaveLost taken.marks (entries_among slots.now (Some left.old)) (entries_among slots.now (Some left.new))) }
    ensures stands { IsIndexOf slots.now left.new }
{
    match left.lowest() {
        Some(number) => take_numbered(slots, left, number),
        None => None,
    }
}

fn pop_in_line(slots: &mut Vec<Owed>) -> Option<Taken>
    ensures { MatchOption result
        (slots.old.items ≡ [])
        (λ taken. HaveLost taken.marks slots.old.items slots.new.items) }
{
    match slots.pop() {
        Some(owed) => Some(Taken::of(&owed)),
        None => None,
    }
}

fn cancel_all(slots: &mut Vec<Owed>, id: &WrittenId, settles: bool)
    ensures { slots.new.items ≡ map (cancelled settles id.now) slots.old.items }
{
    cancel_each(slots.as_mut_slice(), id, settles);
}

fn cancel_each(entries: &mut [Owed], id: &WrittenId, settles: bool)
    ensures { entries.new ≡ map (cancelled settles id.now) entries.old }
{
    for owed in entries.iter_mut() {
        owed.cancel(id, settles);
    }
}
