//! What the entries of a unit do, once it was admitted: they are told, and they cancel or end what they reach. There is
//! room for all that they tell.

ghost use Rattle.std.specs.Prelude.{◌≡◌, ◌≤◌, ◌<◌, ◌+◌, ◌^◌, ◌++◌, ◌∷◌, [], length, map, None, is_some, option_to_list, if◌then◌else◌};
ghost use Rattle.connection_history.specs.Stream.{call_in, calls_in, entries_in};
ghost use Rattle.connection_history.specs.declared.event.Event.TheVariants as event;
ghost use Rattle.connection_steps.specs.Steps.{own_after, own_after_all};
ghost use Rattle.open_calls.specs.Numbered.{at, without};
ghost use Rattle.connection_desk.specs.Inner.{untold_of, room_of, IsOpenEnded, told_at, told_along, calls_at, calls_along, reached_to, cancelled_to, counted, counted_along, counted_in, with_call, with_ignored_if};

use crate::events::Events;
use crate::tally::Tally;
use connection_history::Event;
use connection_messages::{Call, Entry, Reply, Unit};
use message_ids::Id;
use open_calls::{OwnCalls, TheirCalls};

/// What a unit does. `came` is the number of the call before its first one.
pub(crate) fn settle(
    own: &mut OwnCalls,
    theirs: &mut TheirCalls,
    events: &mut Events,
    tally: &mut Tally,
    came: u64,
    unit: Unit,
)
    requires open { IsOpenEnded events.old }
    requires numbers { came + length (calls_in (entries_in unit)) < 2 ^ 64 }
    requires room { length (told_along came own.old theirs.old.calls (entries_in unit)) ≤
        room_of events.old }
    ensures own { own.new ≡ own_after_all (entries_in unit) own.old }
    ensures theirs { theirs.new ≡ record theirs.old {
      calls = calls_along came (entries_in unit) theirs.old.calls;
    } }
    ensures untold { untold_of events.new ≡
        untold_of events.old ++ told_along came own.old theirs.old.calls (entries_in unit) }
    ensures open { IsOpenEnded events.new }
    ensures tally { tally.new ≡ counted_in unit came own.old theirs.old.calls tally.old }
{
    match unit {
        Unit::Unreadable => tally.add_unreadable(),
        Unit::Single(entry) => {
            settle_entry(own, theirs, events, tally, came, entry);
        }
        Unit::Batch(entries) => {
            settle_entries(own, theirs, events, tally, came, entries.into_vec());
        }
    }
}

fn settle_entries(
    own: &mut OwnCalls,
    theirs: &mut TheirCalls,
    events: &mut Events,
    tally: &mut Tally,
    came: u64,
    entries: Vec<Entry>,
)
    requires open { IsOpenEnded events.old }
    requires numbers { came + length (calls_in entries.items) < 2 ^ 64 }
    requires room { length (told_along came own.old theirs.old.calls entries.items) ≤
        room_of events.old }
    ensures own { own.new ≡ own_after_all entries.items own.old }
    ensures theirs { theirs.new ≡ record theirs.old {
      calls = calls_along came entries.items theirs.old.calls;
    } }
    ensures untold { untold_of events.new ≡
        untold_of events.old ++ told_along came own.old theirs.old.calls entries.items }
    ensures open { IsOpenEnded events.new }
    ensures tally { tally.new ≡ counted_along came own.old theirs.old.calls entries.items tally.old }
{
    let mut number = came;
    for entry in entries {
        number = settle_entry(own, theirs, events, tally, number, entry);
    }
}

/// What an entry does, where the call before it has this number. Gives the number of the last call then. It is a part of
/// its two callers, so that an entry by itself, as most are, is moved at once from where it was read to its event.
#[inline(always)]
fn settle_entry(
    own: &mut OwnCalls,
    theirs: &mut TheirCalls,
    events: &mut Events,
    tally: &mut Tally,
    number: u64,
    entry: Entry,
) -> u64
    requires open { IsOpenEnded events.old }
    requires numbers { number + length (call_in entry) < 2 ^ 64 }
    requires room { length (told_at number own.old theirs.old.calls entry) ≤ room_of events.old }
    ensures number { result ≡ number + length (call_in entry) }
    ensures own { own.new ≡ own_after entry own.old }
    ensures theirs { theirs.new ≡ record theirs.old {
      calls = calls_at number entry theirs.old.calls;
    } }
    ensures untold { untold_of events.new ≡
        untold_of events.old ++ told_at number own.old theirs.old.calls entry }
    ensures open { IsOpenEnded events.new }
    ensures room { room_of events.new + length (told_at number own.old theirs.old.calls entry) ≡
        room_of events.old }
    ensures tally { tally.new ≡
        counted (told_at number own.old theirs.old.calls entry) entry tally.old }
{
    match entry {
        Entry::Call(call) => {
            tell_call(events, tally, number + 1, call);
            return number + 1;
        }
        Entry::Cancel(id) => tell_cancels(theirs, events, tally, number, &id),
        Entry::Reply { key, reply } => tell_reply(own, events, tally, key, reply),
        Entry::Stray => tally.add_ignored(),
        Entry::Invalid => tally.add_invalid(),
    }
    number
}

fn tell_call(events: &mut Events, tally: &mut Tally, number: u64, call: Call)
    requires open { IsOpenEnded events.old }
    requires room { 0 < room_of events.old }
    ensures untold { untold_of events.new ≡ untold_of events.old ++ event.Call number call ∷ [] }
    ensures open { IsOpenEnded events.new }
    ensures room { room_of events.new + 1 ≡ room_of events.old }
    ensures tally { tally.new ≡ with_call call.id tally.old }
{
    tally.add_call(&call.id);
    events.push(Event::Call { number, call });
}

/// Tells the requests with this id, up to this number, that they are cancelled. A cancel that reaches none is ignored.
fn tell_cancels(theirs: &mut TheirCalls, events: &mut Events, tally: &mut Tally, most: u64, id: &Id)
    requires open { IsOpenEnded events.old }
    requires room { length (reached_to most id.now theirs.old.calls) ≤ room_of events.old }
    ensures theirs { theirs.new ≡ record theirs.old {
      calls = cancelled_to most id.now theirs.old.calls;
    } }
    ensures untold { untold_of events.new ≡ untold_of events.old ++
        map event.Cancelled (reached_to most id.now theirs.old.calls) }
    ensures open { IsOpenEnded events.new }
    ensures room { room_of events.new + length (reached_to most id.now theirs.old.calls) ≡
        room_of events.old }
    ensures tally { tally.new ≡ with_ignored_if
        (map event.Cancelled (reached_to most id.now theirs.old.calls)) tally.old }
{
    match reach_next(theirs, most, id) {
        Some(number) => {
            events.push(Event::Cancelled { number });
            tell_more_cancels(theirs, events, most, id);
        }
        None => tally.add_ignored(),
    }
}

/// Tells all requests that the cancel still reaches.
fn tell_more_cancels(theirs: &mut TheirCalls, events: &mut Events, most: u64, id: &Id)
    requires open { IsOpenEnded events.old }
    requires room { length (reached_to most id.now theirs.old.calls) ≤ room_of events.old }
    ensures theirs { theirs.new ≡ record theirs.old {
      calls = cancelled_to most id.now theirs.old.calls;
    } }
    ensures untold { untold_of events.new ≡ untold_of events.old ++
        map event.Cancelled (reached_to most id.now theirs.old.calls) }
    ensures open { IsOpenEnded events.new }
    ensures room { room_of events.new + length (reached_to most id.now theirs.old.calls) ≡
        room_of events.old }
{
    while let Some(number) = reach_next(theirs, most, id) {
        events.push(Event::Cancelled { number });
    }
}

/// Cancels the next request with this id, up to this number, and answers its number.
fn reach_next(theirs: &mut TheirCalls, most: u64, id: &Id) -> Option<u64>
    ensures came { theirs.new.came ≡ theirs.old.came }
    ensures number { reached_to most id.now theirs.old.calls ≡
        option_to_list result ++ reached_to most id.now theirs.new.calls }
    ensures calls { cancelled_to most id.now theirs.new.calls ≡
        cancelled_to most id.now theirs.old.calls }
    ensures rest { result ≡ None → reached_to most id.now theirs.old.calls ≡ [] }
    ensures none { result ≡ None → cancelled_to most id.now theirs.new.calls ≡ theirs.new.calls }
{
    theirs.reach_up_to(id, most)
}

fn tell_reply(own: &mut OwnCalls, events: &mut Events, tally: &mut Tally, key: u64, reply: Reply)
    requires open { IsOpenEnded events.old }
    requires room { (if is_some (at key own.old.waiting) then 1 else 0) ≤ room_of events.old }
    ensures own { own.new ≡ record own.old { waiting = without key own.old.waiting } }
    ensures untold { untold_of events.new ≡ untold_of events.old ++
        (if is_some (at key own.old.waiting) then event.Replied key reply ∷ [] else []) }
    ensures open { IsOpenEnded events.new }
    ensures room { room_of events.new + (if is_some (at key own.old.waiting) then 1 else 0) ≡
        room_of events.old }
    ensures tally { tally.new ≡ with_ignored_if
        (if is_some (at key own.old.waiting) then event.Replied key reply ∷ [] else []) tally.old }
{
    if !own.remove(key) {
        return tally.add_ignored();
    }
    events.push(Event::Replied { key, reply });
}
