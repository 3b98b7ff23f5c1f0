ghost use Rattle.std.specs.Prelude.{◌≡◌, ◌+◌, ◌≤◌, ◌++◌, [], ◌∷◌, IfOk, OnOk, OnErr, length, map};
ghost use Rattle.rpc_messages.specs.declared.key.TheConstants.{MOST_NUMBERS};
ghost use Rattle.open_numbers.specs.Kept.{kept_in};
ghost use Rattle.answer_desk.specs.Inner.Arrivals.{calls_of_place, calls_of, due_of_place, dues_of};

use crate::shape::Place;
use crate::waiting_unit::Due;
use open_numbers::{Kept, Numbers};
use std::alloc::{AllocError, Global};
use std::collections::VecDeque;

/// What a batch that arrives brings: what is kept for each of its calls, and what is due to each of its entries.
#[derive(Drop)]
pub struct Arrival {
    pub calls: Vec<Option<Box<Kept>>>,
    pub dues: Vec<Due>,
}

impl Arrival {
    /// The calls will take the numbers behind these.
    pub fn make(
        alloc: Global,
        numbers: &mut Numbers,
        places: Vec<Place>,
    ) -> Result<Arrival, AllocError>
        requires { length numbers.old + length (calls_of places.items) ≤ MOST_NUMBERS + 1 }
        ensures calls { IfOk result (λ arrival.
            map kept_in arrival.calls.items ≡ calls_of places.items) }
        ensures dues { IfOk result (λ arrival.
            arrival.dues.items ≡ dues_of (length numbers.old) places.items) }
        ensures same { numbers.new ≡ numbers.old }
    {
        let number = numbers.next();
        let mut calls = Vec::with_capacity(alloc, places.len())?;
        let mut dues = Vec::with_capacity(alloc, places.len())?;
        let mut rest = VecDeque::from_vec(places);
        while let Some(place) = rest.pop_front() {
            dues.push(due_of(number + calls.len() as u32, &place))?;
            push_call(alloc, numbers, &mut calls, place)?;
        }
        Ok(Arrival { calls, dues })
    }
}

/// Gives the call of a place, where it is one, the next number.
pub(crate) fn append_place(
    alloc: Global,
    numbers: &mut Numbers,
    place: Place,
) -> Result<(), AllocError>
    requires { length numbers.old + length (calls_of_place place) ≤ MOST_NUMBERS + 1 }
    ensures ok { OnOk result (numbers.new ≡ numbers.old ++ calls_of_place place) }
    ensures err { OnErr result (numbers.new ≡ numbers.old) }
{
    match place {
        Place::Numbered { id, most } => {
            let call = numbers.block(alloc, id, most)?;
            numbers.push(call)
        }
        Place::Unreadable | Place::Invalid | Place::Silent => Ok(()),
    }
}

/// What is due to the entry of a place, whose call has this number.
pub(crate) fn due_of(number: u32, place: &Place) -> Due
    ensures { result ≡ due_of_place number place.now }
{
    match place {
        Place::Unreadable => Due::ParseError,
        Place::Invalid => Due::InvalidRequest,
        Place::Silent => Due::Nothing,
        Place::Numbered {
            id: Some(_),
            most: _,
        } => Due::Answer(number),
        Place::Numbered { id: None, most: _ } => Due::Nothing,
    }
}

fn push_call(
    alloc: Global,
    numbers: &mut Numbers,
    calls: &mut Vec<Option<Box<Kept>>>,
    place: Place,
) -> Result<(), AllocError>
    ensures calls { OnOk result (map kept_in calls.new.items ≡
        map kept_in calls.old.items ++ calls_of_place place) }
    ensures same { numbers.new ≡ numbers.old }
{
    if let Place::Numbered { id, most } = place {
        calls.push(Some(numbers.block(alloc, id, most)?))?;
    }
    Ok(())
}
