ghost use Rattle.std.specs.Prelude.{is_some, ◌≡◌, ℕ, ◌+◌, ◌-◌, ◌*◌, ◌<◌, ◌≤◌, ◌^◌, ◌++◌, ◌∷◌, ◌↔◌, [], length, true, false, take, slice_set, Some, None, IfOk, IfSome, OnOk, OnErr, SomeIff, MatchOption, option_copied, IsTrue};
ghost use Rattle.std.specs.VecDeque.{deque_len};
ghost use Rattle.std.specs.Borrow.{sem};
ghost use Rattle.number_set.specs.Dense.{place_at, all_places, begins_here};
ghost use Rattle.number_set.specs.LendsSome.{lends_some};

use crate::place::Place;
use std::alloc::{AllocError, Global};
use std::collections::VecDeque;
use std::marker::Model;
use std::mem;

/// So many places are kept, however few of them are used: a window that is empty again and again asks for no memory each
/// time.
const KEPT_PLACES: usize = 64;

/// What stands for each number that was given, seen by contracts as a list from number 0 on. Only a window of it is kept:
/// it begins at the first number that isn't gone, and has a place for each number from there on.
#[derive(Drop)]
pub struct DenseWindow<P: Place> {
    /// All numbers below this one are gone.
    first: u32,
    /// The places of the numbers from `first` on. The first of them isn't gone.
    places: VecDeque<P>,
}

impl<P: Place> Model for DenseWindow<P> {
    ghost use Rattle.std.specs.Prelude.{List};
    ghost use Rattle.std.specs.Coded.{coded_list};
    ghost use Rattle.number_set.specs.Dense.{all_places, IsDense};

    ghost Value = { List P };

    ghost coded = { coded_list P.code };

    ghost view = { λ w. all_places P.gone w.first w.places.items };

    ghost invariant = { λ w. IsDense P.is_gone w.first w.places.items };
}

impl<P: Place + Drop> DenseWindow<P> {
    /// The number 0 is gone from the start. Takes no memory.
    pub fn new(alloc: Global) -> DenseWindow<P>
        ensures { result ≡ P.gone ∷ [] }
    {
        DenseWindow {
            first: 1,
            places: VecDeque::new(alloc),
        }
    }

    /// This stands for the number 0.
    pub fn with_first(alloc: Global, place: P) -> Result<DenseWindow<P>, AllocError>
        requires { P.is_gone place ≡ false }
        ensures { IfOk result (λ window. window ≡ place ∷ []) }
    {
        let mut places = VecDeque::new(alloc);
        places.push_back(place)?;
        Ok(DenseWindow { first: 0, places })
    }

    /// How many numbers were given, with number 0: the number that the next one takes.
    pub fn len(&self) -> u32
        ensures len { result ≡ length self.now }
        ensures some { 0 < result }
    {
        self.first + self.places.len() as u32
    }

    /// All numbers below this one are gone.
    pub fn first(&self) -> u32
        ensures within { result ≤ length self.now }
        ensures gone { (n : ℕ) → n < result → place_at P.gone self.now n ≡ P.gone }
    {
        self.first
    }

    /// Whether all numbers are gone.
    pub fn are_gone(&self) -> bool
        ensures { IsTrue result ↔ ((n : ℕ) → place_at P.gone self.now n ≡ P.gone) }
    {
        self.places.is_empty()
    }

    /// What stands for a number, where it isn't gone.
    pub fn get(&self, number: u32) -> Option<&P>
        ensures place { MatchOption result (place_at P.gone self.now number ≡ P.gone)
            (λ place. place_at P.gone self.now number ≡ place.now) }
        ensures here { IfSome result (λ place. P.is_gone place.now ≡ false) }
    {
        let index = index_of(self.first, self.places.len(), number)?;
        let place = &self.places[index];
        if place.is_gone() { None } else { Some(place) }
    }

    /// One further number.
    pub fn push(&mut self, place: P) -> Result<(), AllocError>
        requires { length self.old + 1 < 2 ^ 32 }
        ensures ok { OnOk result (self.new ≡ self.old ++ place ∷ []) }
        ensures err { OnErr result (self.new ≡ self.old) }
    {
        let is_gone = place.is_gone();
        self.places.push_back(place)?;
        if is_gone {
            trim(&mut self.first, &mut self.places);
        }
        Ok(())
    }

    /// Further numbers, in their order.
    pub fn append(&mut self, places: Vec<P>) -> Result<(), AllocError>
        requires { length self.old + length places.items < 2 ^ 32 }
        ensures ok { OnOk result (self.new ≡ self.old ++ places.items) }
        ensures err { OnErr result (self.new ≡ self.old) }
    {
        self.places.append(&mut VecDeque::from_vec(places))?;
        trim(&mut self.first, &mut self.places);
        Ok(())
    }

    /// Takes the last numbers back, so that `len` are left. Takes no memory.
    pub fn truncate(&mut self, len: u32)
        requires { (1 ≤ len) × (len ≤ length self.old) }
        ensures { self.new ≡ take len self.old }
    {
        if len < self.first {
            self.first = len;
            self.places.clear();
        } else {
            self.places.truncate((len - self.first) as usize);
        }
    }

    /// Puts this in the place of a number that isn't gone, and gives what stood there. Takes no memory.
    pub fn replace(&mut self, number: u32, place: P) -> P
        requires { P.is_gone (place_at P.gone self.old number) ≡ false }
        ensures before { result ≡ place_at P.gone self.old number }
        ensures after { self.new ≡ slice_set self.old number place }
    {
        let Some(index) = index_of(self.first, self.places.len(), number) else {
            return place;
        };
        let is_gone = place.is_gone();
        let before = mem::replace(&mut self.places[index], place);
        if is_gone {
            trim(&mut self.first, &mut self.places);
        }
        before
    }

    /// Gives memory back that the numbers before have left.
    pub fn shrink(&mut self)
        ensures { self.new ≡ self.old }
    {
        let used = self.places.len();
        if self.places.capacity() > KEPT_PLACES && used < self.places.capacity() / 4 {
            self.places
                .shrink_to(used.saturating_mul(2).max(KEPT_PLACES));
        }
    }
}

impl<T: Drop> DenseWindow<Option<T>> {
    ghost use Rattle.std.specs.Option.{option_copied_mut};
    ghost use Rattle.number_set.specs.Lends.{lends_get, lends_value};

    /// What stands for a number, where it isn't gone.
    pub fn value(&self, number: u32) -> Option<&T>
        ensures { option_copied result ≡ place_at None self.now number }
    {
        match self.get(number) {
            Some(Some(value)) => Some(value),
            Some(None) | None => None,
        }
    }

    /// The same for writing.
    pub fn value_mut(&mut self, number: u32) -> Option<&mut T>
        ensures* writes_back { sem 𝓛 (lends_get T.row ⟦<Option<T> as Place>⟧ self.entry number result) }
        ensures value { option_copied_mut result ≡ place_at None self.old number }
    {
        if self.get(number).is_some() {
            Some(self.held_mut(number))
        } else {
            None
        }
    }

    fn held_mut(&mut self, number: u32) -> &mut T
        requires { is_some (place_at None self.old number) ≡ true }
        ensures* writes_back { sem 𝓛 (lends_value T.row ⟦<Option<T> as Place>⟧ self.entry number result) }
        ensures value { place_at None self.old number ≡ Some result.now }
    {
        value_in(&mut self.places[(number - self.first) as usize])
    }

    /// Takes what stands for a number out: it is gone. Takes no memory.
    pub fn take(&mut self, number: u32) -> Option<T>
        ensures taken { result ≡ place_at None self.old number }
        ensures after { self.new ≡ slice_set self.old number None }
    {
        let index = index_of(self.first, self.places.len(), number)?;
        let taken = self.places[index].take();
        trim(&mut self.first, &mut self.places);
        taken
    }
}

fn value_in<T>(place: &mut Option<T>) -> &mut T
    requires { is_some place.old ≡ true }
    ensures* lends { sem 𝓛 (lends_some T.row place.entry result) }
    ensures value { place.old ≡ Some result.now }
{
    match place {
        Some(value) => value,
        None => unreachable!(),
    }
}

fn index_of(first: u32, len: usize, number: u32) -> Option<usize>
    ensures { SomeIff result ((first ≤ number) × (number < first + len)) (number - first) }
{
    let index = number.checked_sub(first)? as usize;
    if index < len { Some(index) } else { None }
}

/// Lets go of the places at the front of numbers that are gone.
fn trim<P: Place + Drop>(first: &mut u32, places: &mut VecDeque<P>)
    requires { first.old + deque_len places.old < 2 ^ 32 }
    ensures same { all_places P.gone first.new places.new.items ≡
        all_places P.gone first.old places.old.items }
    ensures trimmed { begins_here P.is_gone places.new.items ≡ true }
    ensures end { first.new + deque_len places.new ≡ first.old + deque_len places.old }
{
    while !begins_here(places) {
        drop(places.pop_front());
        *first += 1;
    }
}

fn begins_here<P: Place>(places: &VecDeque<P>) -> bool
    ensures { result ≡ begins_here P.is_gone places.now.items }
{
    match places.front() {
        Some(place) => !place.is_gone(),
        None => true,
    }
}
