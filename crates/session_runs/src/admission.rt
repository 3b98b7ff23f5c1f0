//! A unit is entered: the desk opens it, and its calls get stages.

ghost use Rattle.rpc_messages.specs.declared.key.TheConstants.{MOST_NUMBERS};
ghost use Rattle.std.specs.Prelude.{◌≡◌, ◌≤◌, ◌<◌, ◌+◌, [], ◌∷◌, OnOk, OnErr, length, map};
ghost use Rattle.std.specs.Arc.{arc_value};
ghost use Rattle.rpc_messages.specs.declared.kind.Kind.TheVariants.{Single};
ghost use Rattle.rpc_messages.specs.Entry.{call as call_entry, entry_seen};
ghost use Rattle.rpc_messages.specs.Numbering.{numbers_in, numbers_of as numbers_of_entry, unit_numbers};
ghost use Rattle.rpc_messages.specs.Unit.{single, batch, unit_seen};
ghost use Rattle.answer_desk.specs.Desk.{view as desk_view};
ghost use Rattle.answer_desk.specs.Places.{new_numbers};
ghost use Rattle.answer_desk.specs.State.{with_unit};
ghost use Rattle.peer_events.specs.Taking.{opened};
ghost use Rattle.session_runs.specs.Runs.{core_of};

use crate::arrival::{Arrival, Incoming};
use crate::spare::Spare;
use answer_desk::{Desk, Kind, Place, Shape};
use json_values::Items;
use method_steps::Table;
use number_set::DenseWindow;
use peer_events::Stage;
use rpc_messages::{Call, Entry, Unit};
use std::alloc::{AllocError, Global};
use std::sync::Arc;

/// Enters a unit. Where there is no memory, the desk and the stages stay as they were.
pub(crate) fn enter(
    alloc: Global,
    table: &Table,
    spare: &mut Spare,
    desk: &mut Desk,
    stages: &mut DenseWindow<Stage>,
    unit: &Unit,
) -> Result<(), AllocError>
    requires numbers { length stages.old ≡ length (desk_view desk.old).numbers }
    requires room { length stages.old + unit_numbers (unit_seen unit.now) ≤ MOST_NUMBERS + 1 }
    ensures ok { OnOk result (core_of (desk_view desk.new) stages.new
        ≡ opened table.now (core_of (desk_view desk.old) stages.old) (unit_seen unit.now)) }
    ensures err { OnErr result (core_of (desk_view desk.new) stages.new
        ≡ core_of (desk_view desk.old) stages.old) }
{
    match unit {
        Unit::Unreadable => enter_place(desk, Place::Unreadable),
        Unit::Single(entry) => enter_single(table, spare, desk, stages, entry),
        Unit::Batch(entries) => enter_batch(alloc, table, spare, desk, stages, entries.as_slice()),
    }
}

fn enter_single(
    table: &Table,
    spare: &mut Spare,
    desk: &mut Desk,
    stages: &mut DenseWindow<Stage>,
    entry: &Entry,
) -> Result<(), AllocError>
    requires numbers { length stages.old ≡ length (desk_view desk.old).numbers }
    requires room { length stages.old + numbers_of_entry (entry_seen entry.now)
        ≤ MOST_NUMBERS + 1 }
    ensures ok { OnOk result (core_of (desk_view desk.new) stages.new
        ≡ opened table.now (core_of (desk_view desk.old) stages.old)
        (single (entry_seen entry.now))) }
    ensures err { OnErr result (core_of (desk_view desk.new) stages.new
        ≡ core_of (desk_view desk.old) stages.old) }
{
    match entry {
        Entry::Call(call) => enter_call(table, spare, desk, stages, call),
        Entry::Reply { .. } | Entry::Stray => enter_place(desk, Place::Silent),
        Entry::Invalid => enter_place(desk, Place::Invalid),
    }
}

/// A single entry that takes no number.
fn enter_place(desk: &mut Desk, place: Place) -> Result<(), AllocError>
    requires none { new_numbers (place ∷ []) ≡ [] }
    requires room { length (desk_view desk.old).numbers ≤ MOST_NUMBERS + 1 }
    ensures ok { OnOk result (desk_view desk.new ≡
        with_unit (desk_view desk.old) (record { kind = Single; places = place ∷ [] })) }
    ensures err { OnErr result (desk_view desk.new ≡ desk_view desk.old) }
{
    desk.open_single(place)?;
    Ok(())
}

/// A single call.
fn enter_call(
    table: &Table,
    spare: &mut Spare,
    desk: &mut Desk,
    stages: &mut DenseWindow<Stage>,
    call: &Arc<Call>,
) -> Result<(), AllocError>
    requires numbers { length stages.old ≡ length (desk_view desk.old).numbers }
    requires room { length stages.old < MOST_NUMBERS + 1 }
    ensures ok { OnOk result (core_of (desk_view desk.new) stages.new
        ≡ opened table.now (core_of (desk_view desk.old) stages.old)
        (single (call_entry (arc_value call.now)))) }
    ensures err { OnErr result (core_of (desk_view desk.new) stages.new
        ≡ core_of (desk_view desk.old) stages.old) }
{
    let number = stages.len();
    let Incoming { place, stage } = Incoming::of_call(table, spare, number, call)?;
    stages.push(stage)?;
    if let Err(error) = desk.open_single(place) {
        stages.truncate(number);
        return Err(error);
    }
    Ok(())
}

fn enter_batch(
    alloc: Global,
    table: &Table,
    spare: &mut Spare,
    desk: &mut Desk,
    stages: &mut DenseWindow<Stage>,
    entries: &[Entry],
) -> Result<(), AllocError>
    requires numbers { length stages.old ≡ length (desk_view desk.old).numbers }
    requires room { length stages.old + numbers_in (map entry_seen entries.now)
        ≤ MOST_NUMBERS + 1 }
    ensures ok { OnOk result (core_of (desk_view desk.new) stages.new
        ≡ opened table.now (core_of (desk_view desk.old) stages.old)
        (batch (map entry_seen entries.now))) }
    ensures err { OnErr result (core_of (desk_view desk.new) stages.new
        ≡ core_of (desk_view desk.old) stages.old) }
{
    let first = stages.len();
    let arrival = Arrival::of_entries(alloc, table, spare, first, entries)?;
    stages.append(arrival.stages)?;
    let shape = Shape {
        kind: Kind::Batch,
        places: Items::from(arrival.places),
    };
    if let Err(error) = desk.open_unit(shape) {
        stages.truncate(first);
        return Err(error);
    }
    Ok(())
}
