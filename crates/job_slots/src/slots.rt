//! The slots, and all that is done with them.
ghost use Rattle.std.specs.Prelude.{◌≡◌, ℕ, ◌+◌, ◌-◌, ◌<◌, ◌≤◌, [], Some, None, IsOk, IfOk, IfErr, OnErr, IfSome, OnSome, IfNone, IsTrue, position, replicate, slice_get, slice_set};
ghost use Rattle.job_slots.specs.declared.limits.TheConstants.{MOST_SLOTS};
ghost use Rattle.job_slots.specs.declared.view.Look.TheVariants.{Free, In};
ghost use Rattle.job_slots.specs.Looks.{is_free, HasJob, HasTurned};

use crate::clerk::ClerkSeat;
use crate::closing::gather;
use crate::collecting::take_home;
use crate::free_slots::FreeSlots;
use crate::limits::MOST_SLOTS;
use crate::offering::fill;
use crate::plays::{Hire, TakeIn};
use crate::rule::SlotTable;
use crate::running::run_at;
use crate::turns::Turns;
use crate::word::{DONE, EMPTY};
use crate::worker::{Ran, WorkerSeat};
use std::alloc::Global;

/// The slots, which the clerk and all workers share by reference.
#[derive(Drop)]
pub struct JobSlots<J: Turns> {
    pub(crate) table: SlotTable<J>,
    pub(crate) count: u32,
    ghost sized: { (table.shared.table_id.words ≡ count) × (table.shared.table_id.slots ≡ count)
        × (0 < count) × (count ≤ MOST_SLOTS) },
}

/// There was no memory for a table, or it makes no more seats.
#[derive(Debug, Clone, Copy, PartialEq, Eq)]
pub struct Refused;

impl<J: Turns> JobSlots<J> {
    ghost use Rattle.job_slots.specs.Seats.{IsClerkOf, IsWorkerOf, TellsTurn, looks_of, live_of, shut_of, slot_count};

    /// A table of 1 to 128 slots, all free, with its clerk's seat and no worker's. Refused where memory runs out.
    pub fn make(alloc: Global, slots: u32) -> Result<(JobSlots<J>, ClerkSeat<J>), Refused>
        requires some { 0 < slots }
        requires few { slots ≤ MOST_SLOTS }
        ensures table { IfOk result (λ made. IsClerkOf made.0 made.1) }
        ensures count { IfOk result (λ made. slot_count made.0 ≡ slots) }
        ensures free { IfOk result (λ made. looks_of made.1 ≡ replicate slots Free) }
        ensures alone { IfOk result (λ made. live_of made.1 ≡ 0) }
    {
        let count = slots as usize;
        let Ok(room) = Vec::with_capacity(alloc, count) else {
            return Err(Refused);
        };
        let words = [EMPTY; MOST_SLOTS];
        let Ok((table, seat)) = SlotTable::vacant(alloc, &words[..count], count, &count) else {
            room.destroy_empty();
            return Err(Refused);
        };
        let clerk = ClerkSeat {
            seat,
            free: FreeSlots::all(slots),
            room,
        };
        Ok((
            JobSlots {
                table,
                count: slots,
            },
            clerk,
        ))
    }

    /// A worker's seat, which has shut no slot. It takes no memory, and this base never refuses one.
    pub fn split(&self, clerk: &mut ClerkSeat<J>) -> Result<WorkerSeat<J>, Refused>
        requires { IsClerkOf self.now clerk.old }
        ensures table { IsClerkOf self.now clerk.new }
        ensures looks { looks_of clerk.new ≡ looks_of clerk.old }
        ensures hired { live_of clerk.new ≡ live_of clerk.old + 1 }
        ensures worker { IfOk result (IsWorkerOf self.now) }
        ensures fresh { IfOk result (λ worker. shut_of worker ≡ []) }
        ensures never_refused { IsOk result }
    {
        let seat = self.table.shared.split_seat::<Hire>(&mut clerk.seat);
        Ok(WorkerSeat { seat })
    }

    /// Puts the job into the least slot that is free in the clerk's view. Where none is, the job comes back.
    pub fn offer(&self, clerk: &mut ClerkSeat<J>, job: J) -> Result<u32, J>
        requires { IsClerkOf self.now clerk.old }
        ensures table { IsClerkOf self.now clerk.new }
        ensures workers { live_of clerk.new ≡ live_of clerk.old }

        ensures least { IfOk result (λ slot. position is_free (looks_of clerk.old) ≡ Some slot) }
        ensures placed { IfOk result (λ slot.
            looks_of clerk.new ≡ slice_set (looks_of clerk.old) slot (In job)) }

        ensures full { OnErr result (position is_free (looks_of clerk.old) ≡ None) }
        ensures given_back { IfErr result (λ back. back ≡ job) }
        ensures unchanged { OnErr result (looks_of clerk.new ≡ looks_of clerk.old) }
    {
        let Some(slot) = clerk.free.least() else {
            return Err(job);
        };
        fill(&self.table.shared, &mut clerk.seat, slot as usize, job);
        clerk.free.remove(slot);
        Ok(slot)
    }

    /// Tries each slot once, in order, and turns the first job that it claims.
    pub fn run_one(&self, worker: &mut WorkerSeat<J>) -> Ran
        requires { IsWorkerOf self.now worker.old }
        ensures table { IsWorkerOf self.now worker.new }
        ensures told { TellsTurn self.now worker.old result worker.new }
    {
        self.run_among(worker, 0, self.count)
    }

    /// The same from a slot on, and then from the first one up to it: a worker that looks on from where it found a job finds
    /// the next one in a few steps.
    pub fn run_one_from(&self, worker: &mut WorkerSeat<J>, from: u32) -> Ran
        requires { IsWorkerOf self.now worker.old }
        ensures table { IsWorkerOf self.now worker.new }
        ensures told { TellsTurn self.now worker.old result worker.new }
    {
        let from = from.min(self.count);
        match self.run_among(worker, from, self.count) {
            Ran::One(slot) => Ran::One(slot),
            Ran::Nothing => self.run_among(worker, 0, from),
        }
    }

    /// Tries the slots from one on and before another, and turns the first job that it claims.
    fn run_among(&self, worker: &mut WorkerSeat<J>, from: u32, to: u32) -> Ran
        requires worker { IsWorkerOf self.now worker.old }
        requires to { to ≤ slot_count self.now }
        ensures table { IsWorkerOf self.now worker.new }
        ensures told { TellsTurn self.now worker.old result worker.new }
    {
        for slot in from..to {
            if run_at(&self.table.shared, &mut worker.seat, slot as usize) {
                return Ran::One(slot);
            }
        }
        Ran::Nothing
    }

    /// The least slot from this one on that is in use: the clerk put a job in there, and hasn't taken it home.
    pub fn next_in_use(&self, clerk: &ClerkSeat<J>, from: u32) -> Option<u32>
        requires { IsClerkOf self.now clerk.now }
        ensures within { IfSome result (λ slot. (from ≤ slot) × (slot < MOST_SLOTS)) }
        ensures in_use { IfSome result (HasJob (looks_of clerk.now)) }

        ensures passed { IfSome result (λ slot. (k : ℕ) → from ≤ k → k < slot →
            slice_get (looks_of clerk.now) k ≡ Some Free) }
        ensures none { IfNone result ((k : ℕ) → from ≤ k → k < slot_count self.now →
            slice_get (looks_of clerk.now) k ≡ Some Free) }
    {
        let Some(slot) = clerk.free.next_in_use(from) else {
            return None;
        };
        if slot >= self.count {
            return None;
        }
        Some(slot)
    }

    /// Whether the job of a slot that is in use lies there turned, by a look: then `collect` gives it. A caller that asks
    /// first makes no room for a job that isn't there.
    pub fn is_turned(&self, clerk: &ClerkSeat<J>, slot: u32) -> bool
        ensures within { IsTrue result → slot < slot_count self.now }
        ensures in_use { IsTrue result → IsClerkOf self.now clerk.now →
            HasJob (looks_of clerk.now) slot }
    {
        slot < self.count && !clerk.free.has(slot) && self.table.shared.peek(slot as usize) == DONE
    }

    /// The job of the slot, turned once. `None` where it is not done, where the slot is free in the clerk's view, and
    /// where there is no such slot.
    pub fn collect(&self, clerk: &mut ClerkSeat<J>, slot: u32) -> Option<J>
        requires { IsClerkOf self.now clerk.old }
        ensures table { IsClerkOf self.now clerk.new }
        ensures workers { live_of clerk.new ≡ live_of clerk.old }

        ensures turned { IfSome result (HasTurned J.turned (looks_of clerk.old) slot) }
        ensures emptied { OnSome result (looks_of clerk.new ≡
            slice_set (looks_of clerk.old) slot Free) }

        ensures not_yet { IfNone result (looks_of clerk.new ≡ looks_of clerk.old) }
    {
        if slot >= self.count || clerk.free.has(slot) {
            return None;
        }
        let job = take_home(&self.table.shared, &mut clerk.seat, slot as usize)?;
        clerk.free.insert(slot);
        Some(job)
    }

    /// Takes a worker's seat in, so that one worker fewer may have a job.
    pub fn join(&self, clerk: &mut ClerkSeat<J>, worker: WorkerSeat<J>)
        requires clerk { IsClerkOf self.now clerk.old }
        requires worker { IsWorkerOf self.now worker }
        ensures table { IsClerkOf self.now clerk.new }
        ensures looks { looks_of clerk.new ≡ looks_of clerk.old }
        ensures joined { live_of clerk.new ≡ live_of clerk.old - 1 }
    {
        let seat = worker.into_seat();
        self.table.shared.join_seat::<TakeIn>(&mut clerk.seat, seat);
    }
}

impl<J: Turns + Drop> JobSlots<J> {
    ghost use Rattle.job_slots.specs.Seats.{IsClerkOf, view_of, looks_of, live_of};
    ghost use Rattle.job_slots.specs.Closing.{EndsLawful, ComesBack};

    /// The jobs still inside, by slot, each as it was offered or turned once. A job that a worker's seat holds, which was
    /// not joined, is not among them: it is dropped.
    pub fn close(self, clerk: ClerkSeat<J>) -> Vec<J>
        requires { IsClerkOf self clerk }
        ensures lawful { EndsLawful J.turned (view_of clerk) result.items }
        ensures back { ComesBack J.turned (live_of clerk) (looks_of clerk) result.items }
    {
        let ClerkSeat {
            seat,
            free: _,
            room,
        } = clerk;
        let JobSlots { table, count: _ } = self;
        gather(table.close_with(seat), room)
    }
}
