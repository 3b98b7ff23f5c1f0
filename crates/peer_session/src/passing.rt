//! A unit is taken: its calls get numbers, and its entries are passed in their order.

ghost use Rattle.rpc_messages.specs.declared.key.TheConstants.{MOST_NUMBERS};
ghost use Rattle.std.specs.Prelude.{◌≡◌, ◌≤◌, ◌+◌, OnOk, OnErr, length, map};
ghost use Rattle.rpc_messages.specs.Entry.{entry_seen};
ghost use Rattle.rpc_messages.specs.Numbering.{numbers_in, numbers_of, unit_numbers, entries_in};
ghost use Rattle.rpc_messages.specs.Unit.{unit_seen};
ghost use Rattle.peer_events.specs.Finishing.{fault_passed, Cancels};
ghost use Rattle.peer_events.specs.Taking.{PassesEntry, PassesEntries, Takes};

use crate::finishing::{cancel_requests, pass_fault};
use method_steps::Table;
use rpc_messages::{Call, Entry, Unit, cancel_target};
use session_runs::Runs;
use std::alloc::{AllocError, Global};

/// Opens a unit, and goes through its entries.
pub(crate) fn take_unit(
    runs: &mut Runs,
    alloc: Global,
    table: &Table,
    unit: Unit,
) -> Result<(), AllocError>
    requires { length runs.old.stages + unit_numbers (unit_seen unit) ≤ MOST_NUMBERS + 1 }
    ensures ok { OnOk result (Takes table.now runs.old (unit_seen unit) runs.new) }
    ensures err { OnErr result (runs.new ≡ runs.old) }
{
    let first = runs.next_number();
    if let Err(error) = runs.open(alloc, table, &unit) {
        drop(unit);
        return Err(error);
    }
    pass_unit(runs, first, unit);
    Ok(())
}

/// Goes through the entries of a unit whose first call has the number `first`. Takes no memory.
fn pass_unit(runs: &mut Runs, first: u32, unit: Unit)
    requires { first + unit_numbers (unit_seen unit) ≤ MOST_NUMBERS + 1 }
    ensures { PassesEntries runs.old first (entries_in (unit_seen unit)) runs.new }
{
    match unit {
        Unit::Unreadable => {}
        Unit::Single(entry) => drop(pass_entry(runs, first, entry)),
        Unit::Batch(entries) => pass_entries(runs, first, entries.into_vec()),
    }
}

/// Goes through a batch. It may leave much memory at once, which a single entry doesn't.
fn pass_entries(runs: &mut Runs, first: u32, entries: Vec<Entry>)
    requires { first + numbers_in (map entry_seen entries.items) ≤ MOST_NUMBERS + 1 }
    ensures { PassesEntries runs.old first (map entry_seen entries.items) runs.new }
{
    let mut number = first;
    for entry in entries {
        number = pass_entry(runs, number, entry);
    }
    runs.shrink();
}

/// Goes through one entry, where the next call has this number, and gives the number that is next
/// then.
#[inline(always)]
fn pass_entry(runs: &mut Runs, number: u32, entry: Entry) -> u32
    requires { number + numbers_of (entry_seen entry) ≤ MOST_NUMBERS + 1 }
    ensures next { result ≡ number + numbers_of (entry_seen entry) }
    ensures passes { PassesEntry runs.old number (entry_seen entry) runs.new }
{
    match entry {
        Entry::Call(call) => {
            pass_call(runs, number, &call);
            number + 1
        }
        Entry::Reply {
            number: of,
            turn,
            reply,
        } => {
            if of < number {
                runs.put_reply(of, turn, Box::into_inner(reply));
            } else {
                drop(reply);
            }
            number
        }
        Entry::Stray | Entry::Invalid => number,
    }
}

/// A call is finished where it is at fault, and then, where it is a cancel, reaches the requests
/// before it.
#[inline(always)]
fn pass_call(runs: &mut Runs, number: u32, call: &Call)
    ensures { Cancels (fault_passed runs.old number) number call.now.target runs.new }
{
    pass_fault(runs, number);
    if let Some(id) = cancel_target(call) {
        cancel_requests(runs, id, number);
    }
}
