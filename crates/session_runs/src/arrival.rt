//! What arrives with a unit: how many calls it has, and what the desk and the stages keep of each.

ghost use Rattle.rpc_messages.specs.declared.key.TheConstants.{MOST_NUMBERS};
ghost use Rattle.std.specs.Prelude.{◌≡◌, ◌≤◌, ◌+◌, ◌++◌, [], ◌∷◌, IfOk, OnOk, map, if◌then◌else◌};
ghost use Rattle.std.specs.Arc.{arc_value};
ghost use Rattle.rpc_messages.specs.Entry.{call as call_entry, entry_seen};
ghost use Rattle.rpc_messages.specs.Numbering.{numbers_in, numbers_of as numbers_of_entry, unit_numbers, entries_in};
ghost use Rattle.rpc_messages.specs.Unit.{unit_seen};
ghost use Rattle.peer_output.specs.Work.{call_work};
ghost use Rattle.handler_future.specs.State.{new_state, program_at};
ghost use Rattle.peer_events.specs.declared.stage.Stage.TheVariants.{Idle};
ghost use Rattle.peer_events.specs.Taking.{place_of_entry, places_of_entries, entry_stages, stage_for, stages_for};
ghost use Rattle.session_runs.specs.declared.work.Work.TheVariants.{Run};
ghost use Rattle.session_runs.specs.Arriving.{MayRun};

use crate::spare::Spare;
use crate::work::{Work, work_of};
use answer_desk::Place;
use method_steps::Table;
use peer_events::Stage;
use rpc_messages::{Call, Entry, Unit};
use std::alloc::{AllocError, Global};
use std::slice;
use std::sync::Arc;

/// The unit's entries, in their order.
fn entries_of(unit: &Unit) -> &[Entry]
    ensures { map entry_seen result.now ≡ entries_in (unit_seen unit.now) }
{
    match unit {
        Unit::Unreadable => &[],
        Unit::Single(entry) => slice::from_ref(entry),
        Unit::Batch(entries) => entries.as_slice(),
    }
}

/// How many numbers the unit's calls take.
pub fn numbers_of(unit: &Unit) -> usize
    ensures { result ≡ unit_numbers (unit_seen unit.now) }
{
    calls_among(entries_of(unit))
}

fn calls_among(entries: &[Entry]) -> usize
    ensures { result ≡ numbers_in (map entry_seen entries.now) }
{
    let mut calls = 0;
    for entry in entries {
        calls += usize::from(is_call(entry));
    }
    calls
}

fn is_call(entry: &Entry) -> bool
    ensures { numbers_of_entry (entry_seen entry.now) ≡ (if result then 1 else 0) }
{
    matches!(entry, Entry::Call(_))
}

/// A call as it arrives: its place at the desk, and its stage.
pub(crate) struct Incoming {
    pub(crate) place: Place,
    pub(crate) stage: Stage,
}

impl Incoming {
    /// The call that takes this number. It stands within what calls it, since it gives much back.
    #[inline(always)]
    pub(crate) fn of_call(
        table: &Table,
        spare: &mut Spare,
        number: u32,
        call: &Arc<Call>,
    ) -> Result<Incoming, AllocError>
        requires { (1 ≤ number) × (number ≤ MOST_NUMBERS) }
        ensures place { IfOk result (λ incoming. incoming.place
            ≡ place_of_entry table.now (call_entry (arc_value call.now))) }
        ensures stage { IfOk result (λ incoming. incoming.stage
            ≡ stage_for number (call_work table.now (arc_value call.now))) }
    {
        let id = call.id.clone()?;
        match work_of(table, call) {
            Work::Fault(error) => Ok(Incoming {
                place: Place::Numbered { id, most: 0 },
                stage: Stage::Faulty(error),
            }),
            Work::Run(method) => {
                let most = table.calls_most(method);
                let stage = idle(table, spare, method, number, call)?;
                Ok(Incoming {
                    place: Place::Numbered { id, most },
                    stage,
                })
            }
        }
    }
}

/// The stage of a call whose method runs, before the first poll.
#[inline(always)]
fn idle(
    table: &Table,
    spare: &mut Spare,
    method: u32,
    number: u32,
    call: &Arc<Call>,
) -> Result<Stage, AllocError>
    requires number { (1 ≤ number) × (number ≤ MOST_NUMBERS) }
    requires runs { MayRun table.now (arc_value call.now) (Run method) }
    ensures { IfOk result (λ stage. stage
        ≡ Idle (new_state number (program_at table.now.methods method call.now)) 0) }
{
    let handler = spare.handler(table, method, number, Arc::try_clone(call)?)?;
    Ok(Stage::Idle(handler, 0))
}

/// What the desk and the stages keep of a batch.
#[derive(Drop)]
pub(crate) struct Arrival {
    pub(crate) places: Vec<Place>,
    pub(crate) stages: Vec<Stage>,
    /// The number that the next call takes.
    next: u32,
}

impl Arrival {
    /// Entries of which the first call takes the number `first`.
    pub(crate) fn of_entries(
        alloc: Global,
        table: &Table,
        spare: &mut Spare,
        first: u32,
        entries: &[Entry],
    ) -> Result<Arrival, AllocError>
        requires first { 1 ≤ first }
        requires room { first + numbers_in (map entry_seen entries.now) ≤ MOST_NUMBERS + 1 }
        ensures places { IfOk result (λ arrival. arrival.places.items
            ≡ places_of_entries table.now (map entry_seen entries.now)) }
        ensures stages { IfOk result (λ arrival. arrival.stages.items
            ≡ stages_for table.now first (map entry_seen entries.now)) }
    {
        let mut arrival = Arrival {
            places: Vec::with_capacity(alloc, entries.len())?,
            stages: Vec::with_capacity(alloc, entries.len())?,
            next: first,
        };
        for entry in entries {
            arrival.add(table, spare, entry)?;
        }
        Ok(arrival)
    }

    /// One more entry.
    fn add(&mut self, table: &Table, spare: &mut Spare, entry: &Entry) -> Result<(), AllocError>
        requires first { 1 ≤ self.old.next }
        requires room { self.old.next + numbers_of_entry (entry_seen entry.now)
            ≤ MOST_NUMBERS + 1 }
        ensures places { OnOk result (self.new.places.items
            ≡ self.old.places.items ++ place_of_entry table.now (entry_seen entry.now) ∷ []) }
        ensures stages { OnOk result (self.new.stages.items ≡ self.old.stages.items
            ++ entry_stages table.now self.old.next (entry_seen entry.now)) }
        ensures next { OnOk result (self.new.next
            ≡ self.old.next + numbers_of_entry (entry_seen entry.now)) }
    {
        match entry {
            Entry::Call(call) => {
                let Incoming { place, stage } = Incoming::of_call(table, spare, self.next, call)?;
                self.stages.push(stage)?;
                self.places.push(place)?;
                self.next += 1;
            }
            Entry::Reply { .. } | Entry::Stray => self.places.push(Place::Silent)?,
            Entry::Invalid => self.places.push(Place::Invalid)?,
        }
        Ok(())
    }
}
