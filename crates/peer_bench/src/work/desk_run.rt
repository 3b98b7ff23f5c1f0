//! The desk's work: requests that all arrive first, and then are finished in one order or another.
ghost use Rattle.std.specs.Prelude.{◌≡◌, ◌+◌, ◌<◌, ◌≤◌, IfOk, length};
ghost use Rattle.rpc_messages.specs.declared.key.TheConstants.{MOST_NUMBERS};
ghost use Rattle.answer_desk.specs.Desk.{view};
ghost use Rattle.answer_desk.specs.Places.{new_numbers};
ghost use Rattle.answer_desk.specs.State.{next_number};

use answer_desk::{Desk, Kind, Place, Shape};
use json_values::{Items, Json};
use program_edge::Failure;
use rpc_messages::{Id, MOST_NUMBERS, Reply, Standard};
use std::alloc::Global;

/// How many requests are finished in reverse at a time.
const WINDOW: u32 = 1_000;

/// The order in which requests are finished.
#[derive(Clone, Copy)]
pub enum Finishing {
    /// As they came, once all have come.
    Straight,
    /// In reverse within each 1,000 as they came, once all have come.
    Windows,
    /// As they came, once all have come, each when a cancel of its id has reached it.
    Cancels,
    /// Each before the next comes.
    Stream,
    /// Each before the next comes, but the first unit is a notification that is never finished.
    Behind,
    /// As they came, all in one batch.
    Batch,
}

impl Finishing {
    /// Each order.
    pub const ALL: [Finishing; 6] = [
        Finishing::Straight,
        Finishing::Windows,
        Finishing::Cancels,
        Finishing::Stream,
        Finishing::Behind,
        Finishing::Batch,
    ];

    /// What is worked on.
    pub fn name(self) -> &'static str {
        match self {
            Finishing::Straight => "desk straight",
            Finishing::Windows => "desk windows",
            Finishing::Cancels => "desk cancels",
            Finishing::Stream => "desk stream",
            Finishing::Behind => "desk behind",
            Finishing::Batch => "desk batch",
        }
    }
}

/// Opens so many units of one call each, at most 1,000,000, or a batch of so many, finishes them in some order, and releases
/// the answers as they come. It gives how many answers were released.
pub fn run_desk(alloc: Global, finishing: Finishing, units: u32) -> Result<usize, Failure> {
    let units = units.min(MOST_NUMBERS);
    let mut desk = Desk::new(alloc);
    let released = finish_by(alloc, &mut desk, finishing, units);
    drop(desk);
    released
}

/// Opens so many units at a desk that has room for their numbers, and finishes them so.
fn finish_by(
    alloc: Global,
    desk: &mut Desk,
    finishing: Finishing,
    units: u32,
) -> Result<usize, Failure>
    requires { next_number (view desk.old) + units ≤ MOST_NUMBERS + 1 }
{
    match finishing {
        Finishing::Straight => {
            open_all(alloc, desk, units)?;
            finish_by_windows(desk, units, 1)
        }
        Finishing::Windows => {
            open_all(alloc, desk, units)?;
            finish_by_windows(desk, units, WINDOW)
        }
        Finishing::Cancels => {
            open_all(alloc, desk, units)?;
            cancel_all(desk, units)
        }
        Finishing::Stream => answer_each(alloc, desk, units),
        Finishing::Behind => {
            let Some(requests) = units.checked_sub(1) else {
                return Ok(0);
            };
            open(alloc, desk, None)?;
            answer_each(alloc, desk, requests)
        }
        Finishing::Batch => {
            desk.open_unit(Shape {
                kind: Kind::Batch,
                places: Items::from(requests(alloc, units)?),
            })?;
            finish_by_windows(desk, units, 1)
        }
    }
}

/// So many requests, whose ids are their numbers in a new desk.
fn requests(alloc: Global, count: u32) -> Result<Vec<Place>, Failure>
    ensures { IfOk result (λ places. length (new_numbers places.items) ≡ count) }
{
    let mut places = Vec::with_capacity(alloc, count as usize)?;
    for index in 0..count {
        places.push(Place::Numbered {
            id: Some(id_of(index.saturating_add(1))),
            most: 0,
        })?;
    }
    Ok(places)
}

/// Opens so many requests, whose ids are their numbers in a new desk.
fn open_all(alloc: Global, desk: &mut Desk, units: u32) -> Result<(), Failure> {
    for index in 0..units {
        open(alloc, desk, Some(id_of(index.saturating_add(1))))?;
    }
    Ok(())
}

/// Opens a unit of one call, and gives its number. Refused where the desk has no number left.
fn open(alloc: Global, desk: &mut Desk, id: Option<Id>) -> Result<u32, Failure> {
    if desk.next_number() > MOST_NUMBERS {
        return Err(Failure::Memory);
    }
    let mut places = Vec::new(alloc);
    places.push(Place::Numbered { id, most: 0 })?;
    Ok(desk.open_unit(Shape {
        kind: Kind::Single,
        places: Items::from(places),
    })?)
}

fn id_of(number: u32) -> Id {
    Id::Unsigned(number as u64)
}

/// Finishes the requests window by window, and each window from its end.
fn finish_by_windows(desk: &mut Desk, units: u32, window: u32) -> Result<usize, Failure>
    requires { 0 < window }
{
    let mut released = 0usize;
    for index in 0..units.div_ceil(window) {
        let before = index.saturating_mul(window);
        let last = before.saturating_add(window).min(units);
        released = released.saturating_add(finish_in_reverse(desk, before, last)?);
    }
    Ok(released)
}

/// Finishes the requests after the number `before`, from `last` down.
fn finish_in_reverse(desk: &mut Desk, before: u32, last: u32) -> Result<usize, Failure> {
    let mut released = 0usize;
    for number in (before..last).rev() {
        let reply = Reply::Done(Json::boolean(true));
        finish(desk, number.saturating_add(1), reply);
        released = released.saturating_add(release(desk)?);
    }
    Ok(released)
}

/// Cancels the requests as they came, and finishes each that the cancel reached.
fn cancel_all(desk: &mut Desk, units: u32) -> Result<usize, Failure> {
    let mut released = 0usize;
    for number in 1..=units {
        if let Some(reached) = desk.reach(&id_of(number), units.saturating_add(1)) {
            finish(desk, reached, Reply::Standard(Standard::Cancelled));
        }
        released = released.saturating_add(release(desk)?);
    }
    Ok(released)
}

/// Opens so many requests, each once the one before it is finished.
fn answer_each(alloc: Global, desk: &mut Desk, requests: u32) -> Result<usize, Failure> {
    let mut released = 0usize;
    for index in 0..requests {
        let number = open(alloc, desk, Some(id_of(index.saturating_add(1))))?;
        finish(desk, number, Reply::Done(Json::boolean(true)));
        released = released.saturating_add(release(desk)?);
    }
    Ok(released)
}

/// The end of a request, where it is open.
fn finish(desk: &mut Desk, number: u32, reply: Reply) {
    if desk.is_open(number) {
        desk.finish(number, reply);
    }
}

/// How many answers are released now.
fn release(desk: &mut Desk) -> Result<usize, Failure> {
    Ok(desk.release()?.len())
}
