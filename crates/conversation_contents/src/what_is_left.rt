//! What is left of a list of entries, and an index by which the first is found that is looked for.

ghost use Rattle.std.specs.Prelude.{◌≡◌, ◌<◌, ◌+◌, ◌++◌, ◌∷◌, ◌==◌, [], ℕ, List, length, remove, slice_get, position, true, false, OnOk, OnErr, IfOk};
ghost use Rattle.std.specs.Option.{option_map_or, option_to_list};
ghost use Rattle.conversation_contents.specs.Left.{IsLeftOf, IsFindable, allowed_null, at_test, has_key, holds, index_in, index_of, key_of, left_entries, must_mark, places_of, values_of};
ghost use Rattle.conversation_contents.specs.Numbers.{has_number, Keeps, IsSameBut};
ghost use Rattle.conversation_rules.specs.Owed.{Owed as OwedValue};
ghost use Rattle.number_windows.specs.Numbered.{at, first_number, Above, Below};
ghost use Rattle.number_windows.specs.Windows.{window_entries, IsWindow};

use crate::look::{Look, Taking};
use crate::numbers_by_mark::NumbersByMark;
use conversation_ids::{Owed, null_mark};
use conversation_reading::WrittenId;
use number_windows::NumberWindow;
use std::alloc::{AllocError, Global};

/// The places of the entries that are left. `IsFindable` holds at each call: the index has each of them under its keys.
#[derive(Drop)]
pub struct Left {
    /// By numbers, which ascend.
    places: NumberWindow<usize>,
    marks: NumbersByMark,
}

impl Left {
    /// The entries at these places are left. They get the numbers from 1.
    pub fn of(alloc: Global, entries: &[Owed], places: &[usize]) -> Result<Left, AllocError>
        ensures places { IfOk result (λ left. places_of left ≡ places.now) }
        ensures findable { IfOk result (λ left. IsFindable (slice_get entries.now) left) }
        ensures below { IfOk result (λ left. Below (length places.now + 1) (left_entries left)) }
    {
        let mut left = Left {
            places: NumberWindow::new(alloc),
            marks: NumbersByMark::new(alloc),
        };
        for (count, place) in places.iter().enumerate() {
            left.add(entries, count, *place)?;
        }
        Ok(left)
    }

    /// One more is left, behind so many others at most.
    pub(crate) fn add(
        &mut self,
        entries: &[Owed],
        count: usize,
        place: usize,
    ) -> Result<(), AllocError>
        requires findable { IsFindable (slice_get entries.now) self.old }
        requires below { Below (count + 1) (left_entries self.old) }
        ensures ok { OnOk result (places_of self.new ≡ places_of self.old ++ place ∷ []) }
        ensures err { OnErr result (left_entries self.new ≡ left_entries self.old) }
        ensures findable { IsFindable (slice_get entries.now) self.new }
        ensures below { OnOk result (Below (count + 1 + 1) (left_entries self.new)) }
    {
        let number = match (count as u64).checked_add(1) {
            Some(number) => number,
            None => return Err(AllocError),
        };
        self.places.make_room()?;
        note_at(&mut self.marks, entries, place, number)?;
        self.places.push(number, place);
        Ok(())
    }

    pub(crate) fn is_empty(&self) -> bool
        requires { IsWindow self.now.places }
        ensures { result ≡ (length (places_of self.now) == 0) }
    {
        self.places.len() == 0
    }

    /// The number of the first that is looked for.
    pub fn first(&self, entries: &[Owed], look: Look, id: &WrittenId) -> Option<u64>
        requires { IsFindable (slice_get entries.now) self.now }
        ensures { (left : List OwedValue) → IsLeftOf (slice_get entries.now) (places_of self.now) left →
            index_in self.now result ≡ position (holds look id.now) left }
    {
        let key = look.key(id);
        let mut after = 0;
        while let Some(number) = self.marks.next(key, after) {
            if self.holds_at(entries, number, look, id) {
                return Some(number);
            }
            after = number;
        }
        None
    }

    fn holds_at(&self, entries: &[Owed], number: u64, look: Look, id: &WrittenId) -> bool
        requires { IsFindable (slice_get entries.now) self.now }
        ensures { result ≡ option_map_or (at_test (holds look id.now) (slice_get entries.now))
            (at number (left_entries self.now)) false }
    {
        match self.places.get(number) {
            Some(place) => holds_at_place(entries, *place, look, id),
            None => false,
        }
    }

    /// Takes one, and answers its place.
    pub fn take(&mut self, entries: &[Owed], number: u64) -> Option<usize>
        requires { IsFindable (slice_get entries.now) self.old }
        ensures places { places_of self.new ≡ remove (places_of self.old) (index_of number (left_entries self.old)) }
        ensures place { result ≡ slice_get (places_of self.old) (index_of number (left_entries self.old)) }
        ensures findable { IsFindable (slice_get entries.now) self.new }
        ensures below { (bound : ℕ) → Below bound (left_entries self.old) → Below bound (left_entries self.new) }
    {
        match self.places.remove(number) {
            Some(place) => {
                forget_at(&mut self.marks, entries, place, number);
                Some(place)
            }
            None => None,
        }
    }

    /// The least number.
    pub(crate) fn lowest(&self) -> Option<u64>
        requires { IsWindow self.now.places }
        ensures { result ≡ first_number (left_entries self.now) }
    {
        self.places.first()
    }

    /// The places of those that are left.
    pub fn places(&self, alloc: Global) -> Result<Vec<usize>, AllocError>
        requires window { IsWindow self.now.places }
        requires above { Above 0 (left_entries self.now) }
        ensures { IfOk result (λ places. places.items ≡ places_of self.now) }
    {
        let mut places = Vec::new(alloc);
        let mut after = 0;
        while let Some(number) = self.places.next(after) {
            self.push_place(number, &mut places)?;
            after = number;
        }
        Ok(places)
    }

    fn push_place(&self, number: u64, places: &mut Vec<usize>) -> Result<(), AllocError>
        requires { IsWindow self.now.places }
        ensures { OnOk result (places.new.items ≡ places.old.items ++ option_to_list (at number (left_entries self.now))) }
    {
        if let Some(place) = self.places.get(number) {
            places.push(*place)?;
        }
        Ok(())
    }
}

fn holds_at_place(entries: &[Owed], place: usize, look: Look, id: &WrittenId) -> bool
    ensures { result ≡ at_test (holds look id.now) (slice_get entries.now) place }
{
    match entries.get(place) {
        Some(owed) => look.holds(id, owed),
        None => false,
    }
}

/// Notes the entry at this place under a number.
fn note_at(
    marks: &mut NumbersByMark,
    entries: &[Owed],
    place: usize,
    number: u64,
) -> Result<(), AllocError>
    ensures noted { OnOk result ((key : ℕ) → at_test (has_key key) (slice_get entries.now) place ≡ true →
        has_number marks.new key number ≡ true) }
    ensures kept { Keeps marks.new marks.old }
{
    match entries.get(place) {
        Some(owed) => note(marks, owed, number),
        None => Ok(()),
    }
}

/// Notes an entry under this number by its keys.
fn note(marks: &mut NumbersByMark, owed: &Owed, number: u64) -> Result<(), AllocError>
    ensures noted { OnOk result ((key : ℕ) → has_key key owed.now ≡ true → has_number marks.new key number ≡ true) }
    ensures kept { Keeps marks.new marks.old }
{
    note_some(marks, Taking::Must, must_mark(owed), number)?;
    note_some(marks, Taking::Expected, owed.expected_mark(), number)?;
    note_some(marks, Taking::Allowed, owed.first_mark(), number)?;
    note_some(marks, Taking::Allowed, owed.own_mark(), number)?;
    note_some(marks, Taking::Allowed, allowed_null(owed), number)
}

/// Notes a number under a mark, where there is one.
fn note_some(
    marks: &mut NumbersByMark,
    taking: Taking,
    mark: Option<u128>,
    number: u64,
) -> Result<(), AllocError>
    ensures noted { OnOk result (option_map_or (λ mark. has_number marks.new (key_of taking mark) number) mark true ≡ true) }
    ensures kept { Keeps marks.new marks.old }
{
    match mark {
        Some(mark) => marks.add(taking.key(mark), number),
        None => Ok(()),
    }
}

/// Forgets the entry at this place, which was taken.
fn forget_at(marks: &mut NumbersByMark, entries: &[Owed], place: usize, number: u64)
    ensures { IsSameBut number marks.new marks.old }
{
    if let Some(owed) = entries.get(place) {
        forget(marks, owed, number);
    }
}

fn forget(marks: &mut NumbersByMark, owed: &Owed, number: u64)
    ensures { IsSameBut number marks.new marks.old }
{
    forget_some(marks, Taking::Must, must_mark(owed), number);
    forget_some(marks, Taking::Expected, owed.expected_mark(), number);
    forget_some(marks, Taking::Allowed, owed.first_mark(), number);
    forget_some(marks, Taking::Allowed, owed.own_mark(), number);
    forget_some(marks, Taking::Allowed, allowed_null(owed), number);
}

fn forget_some(marks: &mut NumbersByMark, taking: Taking, mark: Option<u128>, number: u64)
    ensures { IsSameBut number marks.new marks.old }
{
    if let Some(mark) = mark {
        marks.remove(taking.key(mark), number);
    }
}

/// The mark of the id that is expected, where the entry must be answered.
fn must_mark(owed: &Owed) -> Option<u128>
    ensures { result ≡ must_mark owed.now }
{
    if owed.must() {
        owed.expected_mark()
    } else {
        None
    }
}

/// The mark of null, where the answer may have that.
fn allowed_null(owed: &Owed) -> Option<u128>
    ensures { result ≡ allowed_null owed.now }
{
    if owed.may_be_null() {
        Some(null_mark())
    } else {
        None
    }
}
