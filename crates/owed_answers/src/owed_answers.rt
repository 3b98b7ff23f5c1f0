ghost use Rattle.std.specs.Prelude.{◌≡◌, ◌+◌, ◌-◌, ◌<◌, ◌^◌, [], length, OnOk, OnErr, option_copied};
ghost use Rattle.owed_answers.specs.Owed.{given};
ghost use Rattle.number_windows.specs.Numbered.{at, without, changed_at, first_number, next_number, Ascending};

use crate::owed::Owed;
use number_windows::NumberWindow;
use std::alloc::{AllocError, Global};
use std::marker::Model;

/// The units whose answer isn't out, by their places 0, 1, .. in the order in which they came.
#[derive(Drop)]
pub struct OwedAnswers {
    /// How many places there were. `IsOwed` holds: no unit that is owed an answer has this place or a greater one.
    places: u64,
    /// Those that are owed an answer, by their places.
    owed: NumberWindow<Owed>,
}

impl Model for OwedAnswers {
    ghost use Rattle.owed_answers.specs.Owed.{OwedState};

    ghost Value = { OwedState };

    ghost use Rattle.owed_answers.specs.Inner.{IsOwed};
    ghost use Rattle.number_windows.specs.Windows.{window_entries};

    ghost view = { λ a. record { places = a.places; owed = window_entries a.owed } };

    ghost invariant = { λ a. IsOwed a.places a.owed };
}

impl OwedAnswers {
    ghost use Rattle.std.specs.Borrow.{sem};
    ghost use Rattle.std.specs.Option.{option_copied_mut};
    ghost use Rattle.owed_answers.specs.Lends.{lends_unit};
    ghost use Rattle.owed_answers.specs.Owed.{opened};

    pub fn new(alloc: Global) -> OwedAnswers
        ensures { result ≡ record { places = 0; owed = [] } }
    {
        OwedAnswers {
            places: 0,
            owed: NumberWindow::new(alloc),
        }
    }

    /// How many units are owed an answer.
    pub fn len(&self) -> u64
        ensures { result ≡ length self.now.owed }
    {
        self.owed.len()
    }

    /// How many places there were. No unit that is owed an answer has this place or a greater one.
    pub fn places(&self) -> u64
        ensures places { result ≡ self.now.places }
        ensures owed { without self.now.places self.now.owed ≡ self.now.owed }
    {
        self.places
    }

    /// The unit at the next place is owed its answers.
    pub fn open(&mut self, unit: Owed) -> Result<(), AllocError>
        requires { self.old.places < 2 ^ 64 - 1 }
        ensures ok { OnOk result (self.new ≡ opened unit self.old) }
        ensures err { OnErr result (self.new ≡ self.old) }
    {
        self.owed.make_room()?;
        self.owed.push(self.places, unit);
        self.places += 1;
        Ok(())
    }

    /// The unit at the next place is owed nothing.
    pub fn skip(&mut self)
        requires { self.old.places < 2 ^ 64 - 1 }
        ensures { self.new ≡ record self.old { places = self.old.places + 1 } }
    {
        self.places += 1;
    }

    /// The last place is as if its unit had never come.
    pub fn undo_unit(&mut self)
        requires { 0 < self.old.places }
        ensures { self.new ≡ record {
          places = self.old.places - 1;
          owed = without (self.old.places - 1) self.old.owed;
        } }
    {
        let place = self.places - 1;
        drop(self.owed.remove(place));
        self.places = place;
    }

    /// Gives this slot of the unit at this place its text. Where there is no such slot nothing changes. Places ascend, so no
    /// other unit has this one.
    pub fn give(
        &mut self,
        alloc: Global,
        place: u64,
        slot: u64,
        text: &[u8],
    ) -> Result<(), AllocError>
        ensures ok { OnOk result (self.new ≡ record self.old {
          owed = changed_at place (given slot text.now) self.old.owed;
        }) }
        ensures err { OnErr result (self.new ≡ self.old) }
        ensures ascending { Ascending self.old.owed }
    {
        match self.get_mut(place) {
            Some(unit) => unit.give(alloc, slot, text),
            None => Ok(()),
        }
    }

    /// The unit at this place, where it is owed an answer. Places ascend.
    pub fn get(&self, place: u64) -> Option<&Owed>
        ensures unit { option_copied result ≡ at place self.now.owed }
        ensures ascending { Ascending self.now.owed }
    {
        self.owed.get(place)
    }

    /// The same for writing.
    pub fn get_mut(&mut self, place: u64) -> Option<&mut Owed>
        ensures* writes_back { sem 𝓛 (lends_unit self.entry place result) }
        ensures unit { option_copied_mut result ≡ at place self.old.owed }
        ensures ascending { Ascending self.old.owed }
    {
        self.owed.get_mut(place)
    }

    /// The unit at this place is owed nothing any more. Places ascend, so no other unit has this one.
    pub fn remove(&mut self, place: u64)
        ensures state { self.new ≡ record self.old { owed = without place self.old.owed } }
        ensures ascending { Ascending self.old.owed }
    {
        drop(self.owed.remove(place));
    }

    /// The least place whose unit is owed an answer. Places ascend.
    pub fn first(&self) -> Option<u64>
        ensures place { result ≡ first_number self.now.owed }
        ensures ascending { Ascending self.now.owed }
    {
        self.owed.first()
    }

    /// The least place above `after` whose unit is owed an answer.
    pub fn next(&self, after: u64) -> Option<u64>
        ensures { result ≡ next_number after self.now.owed }
    {
        self.owed.next(after)
    }
}
