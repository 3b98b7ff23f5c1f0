//! Units that come. What needs memory is done first, for the whole unit; what its entries do is settled then, in their
//! order.

ghost use Rattle.std.specs.Prelude.{◌≡◌, ◌≤◌, ◌<◌, ◌+◌, ◌^◌, ◌++◌, ◌∷◌, [], ℕ, length, filter, flat_map, map, true, false, option_to_list, IfOk, OnOk, OnErr};
ghost use Rattle.connection_history.specs.Stream.{call_in, calls_in, entries_in};
ghost use Rattle.connection_history.specs.declared.event.Event.TheVariants.{Broken as broken_told};
ghost use Rattle.open_calls.specs.Theirs.{new_call};
ghost use Rattle.connection_steps.specs.States.{owed_slots};
ghost use Rattle.connection_steps.specs.Steps.{leaving, staying, new_call_slots, new_slots};
ghost use Rattle.connection_desk.specs.Desks.{answer_count, answer_texts, with_answers, with_texts};
ghost use Rattle.connection_desk.specs.Inner.{IsAdmitted, IsLonger, IsOpenEnded, added_call, added_calls, has_cancel as has_cancel_in, is_telling as is_telling_entry, most_events as most_events_in, owed_in, room_of, untold_of};

use crate::desk::{Desk, let_go};
use crate::events::Events;
use crate::leaving::let_out;
use crate::settling::settle;
use crate::tally::Tally;
use connection_history::{Broken, Event, Order};
use connection_messages::{Entry, Unit};
use message_ids::Id;
use open_calls::{TheirCall, TheirCalls, numbers_above_one, numbers_below_one};
use outbox::Outbox;
use owed_answers::{Batch, Owed, OwedAnswers, Slot};
use std::alloc::{AllocError, Global};

impl Desk {
    ghost use Rattle.connection_desk.specs.Desks.{after_unit};

    /// A unit comes. What is broken in it, where that is given, is told in front of its other events. Where it is refused, it
    /// hasn't come.
    pub fn take_in(&mut self, unit: Unit, broken: Option<Broken>) -> Result<(), AllocError>
        requires over { self.old.state.is_over ≡ false }
        requires calls { self.old.state.theirs.came + length (calls_in (entries_in unit)) < 2 ^ 64 }
        ensures ok { OnOk result (self.new ≡ after_unit broken unit self.old) }
        ensures err { OnErr result (self.new ≡ self.old) }
    {
        numbers_above_one::<TheirCall>();
        numbers_below_one::<TheirCall>();
        // The prover has the range of each count once it is read.
        let _tally = self.tally;
        let came = self.theirs.came();
        let place = self.owed.places();
        let first = broken.is_some() as usize;
        let due = admit(
            self.alloc,
            &mut self.theirs,
            &mut self.events,
            place,
            &unit,
            first,
        )?;
        let owed = owe(
            self.order,
            &mut self.owed,
            &mut self.outbox,
            &mut self.room,
            &mut self.tally,
            due,
        );
        let_go(self.alloc, &mut self.room);
        if let Err(refused) = owed {
            self.theirs.take_back(came);
            return Err(refused);
        }
        tell_broken(&mut self.events, broken);
        settle(
            &mut self.own,
            &mut self.theirs,
            &mut self.events,
            &mut self.tally,
            came,
            unit,
        );
        Ok(())
    }
}

/// A unit is owed this, where it is owed anything, and the answers that can go out do.
fn owe(
    order: Order,
    owed: &mut OwedAnswers,
    outbox: &mut Outbox,
    room: &mut Vec<u8>,
    tally: &mut Tally,
    due: Option<Owed>,
) -> Result<(), AllocError>
    requires { leaving order owed.old.owed ≡ [] }
    ensures owed { OnOk result (owed.new ≡ record {
      places = owed.old.places + 1;
      owed = staying order
          (owed.old.owed ++ owed_in owed.old.places due);
    }) }
    ensures outbox { OnOk result (outbox.new ≡ with_texts
        (answer_texts (leaving order
        (owed.old.owed ++ owed_in owed.old.places due)))
        outbox.old) }
    ensures tally { OnOk result (tally.new ≡ with_answers
        (answer_count (leaving order
        (owed.old.owed ++ owed_in owed.old.places due)))
        tally.old) }
    ensures owed_err { OnErr result (owed.new ≡ owed.old) }
    ensures outbox_err { OnErr result (outbox.new ≡ outbox.old) }
    ensures tally_err { OnErr result (tally.new ≡ tally.old) }
{
    let place = owed.places();
    if place == u64::MAX {
        return Err(AllocError);
    }
    let Some(unit) = due else {
        // The prover has the range of a count once it is read.
        let _answers = tally.answers;
        owed.skip();
        return Ok(());
    };
    let is_lacking = unit.lacking() > 0;
    owed.open(unit)?;
    if is_lacking {
        // The prover has the range of a count once it is read.
        let _answers = tally.answers;
        return Ok(());
    }
    match let_out(order, owed, place, outbox, room) {
        Ok(count) => {
            tally.add_answers(count);
            Ok(())
        }
        Err(refused) => {
            owed.undo_unit();
            Err(refused)
        }
    }
}

/// All else of a unit that needs memory: its calls are open, and there is room for its events and for so many that come
/// first. Answers what it is owed.
fn admit(
    alloc: Global,
    theirs: &mut TheirCalls,
    events: &mut Events,
    place: u64,
    unit: &Unit,
    first: usize,
) -> Result<Option<Owed>, AllocError>
    requires { theirs.old.came + length (calls_in (entries_in unit.now)) < 2 ^ 64 }
    ensures ok { IfOk result (λ due. IsAdmitted place unit.now theirs.old due theirs.new) }
    ensures room { OnOk result
        (first + most_events_in (length theirs.new.calls) (entries_in unit.now) ≤
        room_of events.new) }
    ensures longer { IsLonger theirs.old theirs.new }
    ensures err { OnErr result (theirs.new ≡ theirs.old) }
    ensures untold { untold_of events.new ≡ untold_of events.old }
    ensures open { IsOpenEnded events.old → IsOpenEnded events.new }
{
    let came = theirs.came();
    match admit_all(alloc, theirs, events, place, unit, first) {
        Ok(due) => Ok(due),
        Err(refused) => {
            theirs.take_back(came);
            Err(refused)
        }
    }
}

/// Where it is refused, some calls may be open.
fn admit_all(
    alloc: Global,
    theirs: &mut TheirCalls,
    events: &mut Events,
    place: u64,
    unit: &Unit,
    first: usize,
) -> Result<Option<Owed>, AllocError>
    requires { theirs.old.came + length (calls_in (entries_in unit.now)) < 2 ^ 64 }
    ensures ok { IfOk result (λ due. IsAdmitted place unit.now theirs.old due theirs.new) }
    ensures room { OnOk result
        (first + most_events_in (length theirs.new.calls) (entries_in unit.now) ≤
        room_of events.new) }
    ensures longer { IsLonger theirs.old theirs.new }
    ensures untold { untold_of events.new ≡ untold_of events.old }
    ensures open { IsOpenEnded events.old → IsOpenEnded events.new }
{
    let due = admit_unit(alloc, theirs, place, unit)?;
    let Some(count) = most_events(unit, theirs.len())?.checked_add(first) else {
        return Err(AllocError);
    };
    events.reserve(count)?;
    Ok(due)
}

/// At most so many events come with a unit, where so many calls are open then. A place is counted for each call and each
/// reply, and where a cancel came for each open call; an entry of which nothing is told takes none.
fn most_events(unit: &Unit, count: u64) -> Result<usize, AllocError>
    ensures { IfOk result (λ most. most ≡ most_events_in count (entries_in unit.now)) }
{
    let telling = telling_count(unit);
    if !has_cancel(unit) {
        return Ok(telling);
    }
    match telling.checked_add(count as usize) {
        Some(most) => Ok(most),
        None => Err(AllocError),
    }
}

/// How many entries are calls or replies.
fn telling_count(unit: &Unit) -> usize
    ensures { result ≡ length (filter is_telling_entry (entries_in unit.now)) }
{
    match unit {
        Unit::Unreadable => 0,
        Unit::Single(entry) => is_telling(entry) as usize,
        Unit::Batch(entries) => telling_among(entries.as_slice()),
    }
}

fn telling_among(entries: &[Entry]) -> usize
    ensures { result ≡ length (filter is_telling_entry entries.now) }
{
    let mut count: usize = 0;
    for entry in entries {
        count += is_telling(entry) as usize;
    }
    count
}

fn is_telling(entry: &Entry) -> bool
    ensures { result ≡ is_telling_entry entry.now }
{
    matches!(entry, Entry::Call(_) | Entry::Reply { .. })
}

fn has_cancel(unit: &Unit) -> bool
    ensures { result ≡ has_cancel_in (entries_in unit.now) }
{
    match unit {
        Unit::Unreadable => false,
        Unit::Single(entry) => matches!(entry, Entry::Cancel(_)),
        Unit::Batch(entries) => entries
            .as_slice()
            .iter()
            .any(|entry| matches!(entry, Entry::Cancel(_))),
    }
}

/// Tells what is broken, where that is given.
fn tell_broken(events: &mut Events, broken: Option<Broken>)
    requires open { IsOpenEnded events.old }
    requires room { length (option_to_list broken) ≤ room_of events.old }
    ensures untold { untold_of events.new ≡
        untold_of events.old ++ map broken_told (option_to_list broken) }
    ensures open { IsOpenEnded events.new }
    ensures room { room_of events.new + length (option_to_list broken) ≡ room_of events.old }
{
    if let Some(broken) = broken {
        events.push(Event::Broken(broken));
    }
}

/// Opens the calls of the unit at this place, and answers what it is owed.
fn admit_unit(
    alloc: Global,
    theirs: &mut TheirCalls,
    place: u64,
    unit: &Unit,
) -> Result<Option<Owed>, AllocError>
    requires { theirs.old.came + length (calls_in (entries_in unit.now)) < 2 ^ 64 }
    ensures ok { IfOk result (λ due. IsAdmitted place unit.now theirs.old due theirs.new) }
    ensures longer { IsLonger theirs.old theirs.new }
{
    match unit {
        Unit::Unreadable => Ok(Some(Owed::single(Slot::Unreadable))),
        Unit::Single(entry) => admit_single(theirs, place, entry),
        Unit::Batch(entries) => admit_batch(alloc, theirs, place, entries.as_slice()),
    }
}

/// Opens the call of an entry that is a unit by itself, and answers what it is owed.
fn admit_single(
    theirs: &mut TheirCalls,
    place: u64,
    entry: &Entry,
) -> Result<Option<Owed>, AllocError>
    requires { theirs.old.came + length (call_in entry.now) < 2 ^ 64 }
    ensures owed { IfOk result (λ due.
        owed_in place due ≡ owed_slots place false (new_slots entry.now)) }
    ensures theirs { OnOk result (theirs.new ≡ record {
      came = theirs.old.came + length (call_in entry.now);
      calls = theirs.old.calls ++ added_call place 0 theirs.old.came entry.now;
    }) }
    ensures longer { IsLonger theirs.old theirs.new }
{
    match entry {
        Entry::Call(call) => {
            theirs.add(call.id.clone()?, place, 0)?;
            Ok(call_owed(&call.id))
        }
        Entry::Invalid => Ok(Some(Owed::single(Slot::Invalid))),
        Entry::Cancel(_) | Entry::Reply { .. } | Entry::Stray => Ok(None),
    }
}

/// What a call is owed that is a unit by itself.
fn call_owed(id: &Option<Id>) -> Option<Owed>
    ensures { (place : ℕ) → owed_in place result ≡ owed_slots place false (new_call_slots id.now) }
{
    match id {
        Some(_) => Some(Owed::single(Slot::Lacking)),
        None => None,
    }
}

/// Opens the calls of a batch, and answers what it is owed.
fn admit_batch(
    alloc: Global,
    theirs: &mut TheirCalls,
    place: u64,
    entries: &[Entry],
) -> Result<Option<Owed>, AllocError>
    requires { theirs.old.came + length (calls_in entries.now) < 2 ^ 64 }
    ensures owed { IfOk result (λ due.
        owed_in place due ≡ owed_slots place true (flat_map new_slots entries.now)) }
    ensures theirs { OnOk result (theirs.new ≡ record {
      came = theirs.old.came + length (calls_in entries.now);
      calls = theirs.old.calls ++ added_calls place 0 theirs.old.came entries.now;
    }) }
    ensures longer { IsLonger theirs.old theirs.new }
{
    let batch = admit_entries(alloc, theirs, place, entries)?;
    if batch.len() == 0 {
        return Ok(None);
    }
    let unit = Owed::batch(alloc, batch)?;
    Ok(Some(unit))
}

fn admit_entries(
    alloc: Global,
    theirs: &mut TheirCalls,
    place: u64,
    entries: &[Entry],
) -> Result<Batch, AllocError>
    requires { theirs.old.came + length (calls_in entries.now) < 2 ^ 64 }
    ensures batch { IfOk result (λ batch. batch ≡ flat_map new_slots entries.now) }
    ensures theirs { OnOk result (theirs.new ≡ record {
      came = theirs.old.came + length (calls_in entries.now);
      calls = theirs.old.calls ++ added_calls place 0 theirs.old.came entries.now;
    }) }
    ensures longer { IsLonger theirs.old theirs.new }
{
    let mut batch = Batch::new(alloc, slot_count(entries))?;
    for entry in entries {
        admit_entry(theirs, place, entry, &mut batch)?;
    }
    Ok(batch)
}

/// How many slots the entries bring. Room for all of them at once is just that, where room that grows may be twice as
/// large, and a batch may have millions.
fn slot_count(entries: &[Entry]) -> usize {
    entries.iter().filter(|entry| has_slot(entry)).count()
}

fn has_slot(entry: &Entry) -> bool {
    match entry {
        Entry::Call(call) => call.id.is_some(),
        Entry::Invalid => true,
        Entry::Cancel(_) | Entry::Reply { .. } | Entry::Stray => false,
    }
}

fn admit_entry(
    theirs: &mut TheirCalls,
    place: u64,
    entry: &Entry,
    batch: &mut Batch,
) -> Result<(), AllocError>
    requires { theirs.old.came + length (call_in entry.now) < 2 ^ 64 }
    ensures batch { OnOk result (batch.new ≡ batch.old ++ new_slots entry.now) }
    ensures theirs { OnOk result (theirs.new ≡ record {
      came = theirs.old.came + length (call_in entry.now);
      calls = theirs.old.calls ++
          added_call place (length batch.old) theirs.old.came entry.now;
    }) }
    ensures longer { IsLonger theirs.old theirs.new }
{
    match entry {
        Entry::Call(call) => admit_call(theirs, place, &call.id, batch),
        Entry::Invalid => batch.push(Slot::Invalid),
        Entry::Cancel(_) | Entry::Reply { .. } | Entry::Stray => Ok(()),
    }
}

fn admit_call(
    theirs: &mut TheirCalls,
    place: u64,
    id: &Option<Id>,
    batch: &mut Batch,
) -> Result<(), AllocError>
    requires { theirs.old.came + 1 < 2 ^ 64 }
    ensures batch { OnOk result (batch.new ≡ batch.old ++ new_call_slots id.now) }
    ensures theirs { OnOk result (theirs.new ≡ record {
      came = theirs.old.came + 1;
      calls = theirs.old.calls ++
          (theirs.old.came + 1, new_call id.now place (length batch.old)) ∷ [];
    }) }
    ensures longer { IsLonger theirs.old theirs.new }
{
    let slot = batch.len() as u64;
    theirs.add(id.clone()?, place, slot)?;
    if id.is_some() {
        batch.push(Slot::Lacking)?;
    }
    Ok(())
}
