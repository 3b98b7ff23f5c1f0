//! What closing gives, for each combination of free slots, waiting jobs and turned ones that four slots may have.
ghost use Rattle.job_slots.specs.Seats.{IsClerkOf, IsWorkerOf};

use super::{Counted, offer_each, seat};
use job_slots::{ClerkSeat, JobSlots, Ran, WorkerSeat};
use std::alloc::{AllocError, Global};
use std::process::Abort;
use std::test::Fail;

const SLOTS: u32 = 4;

const COMBINATIONS: u32 = 81;

/// The waiting job of slot 0 has this number, and those of the next slots the next ones.
const WAITING: u32 = 10;

/// What lies in a slot in a combination, whose digits to the base 3 are its slots: nothing, a waiting job or a turned one.
fn lies_in(combination: u32, slot: u32) -> u32 {
    let rest = match slot {
        0 => combination,
        1 => combination / 3,
        2 => combination / 9,
        _ => combination / 27,
    };
    rest % 3
}

/// The jobs of a combination, by slot.
fn jobs_of(alloc: Global, combination: u32) -> Result<Vec<Counted>, AllocError> {
    let mut jobs = Vec::new(alloc);
    for slot in 0..SLOTS {
        match lies_in(combination, slot) {
            0 => {}
            1 => jobs.push(Counted(slot.saturating_add(WAITING), 0))?,
            _ => jobs.push(Counted(slot, 1))?,
        }
    }
    Ok(jobs)
}

/// Has the first worker run a job, or the second.
fn run(
    slots: &JobSlots<Counted>,
    first: &mut WorkerSeat<Counted>,
    second: &mut WorkerSeat<Counted>,
    is_first: bool,
) -> Ran
    requires { IsWorkerOf slots.now first.old × IsWorkerOf slots.now second.old }
    ensures { IsWorkerOf slots.now first.new × IsWorkerOf slots.now second.new }
{
    if is_first {
        slots.run_one(first)
    } else {
        slots.run_one(second)
    }
}

/// Has two workers by turns run the jobs of all slots.
fn run_all(
    rt: &impl Abort,
    slots: &JobSlots<Counted>,
    first: &mut WorkerSeat<Counted>,
    second: &mut WorkerSeat<Counted>,
)
    requires { IsWorkerOf slots.now first.old × IsWorkerOf slots.now second.old }
    ensures { IsWorkerOf slots.now first.new × IsWorkerOf slots.now second.new }
{
    for slot in 0..SLOTS {
        assert!(rt; run(slots, first, second, slot % 2 == 0) == Ran::One(slot));
    }
}

/// Takes the turned job of a slot home.
fn take_home(rt: &impl Abort, slots: &JobSlots<Counted>, clerk: &mut ClerkSeat<Counted>, slot: u32)
    requires { IsClerkOf slots.now clerk.old }
    ensures { IsClerkOf slots.now clerk.new }
{
    assert!(rt; slots.collect(clerk, slot) == Some(Counted(slot, 1)));
}

/// Has a slot, which holds a turned job, hold what it does in a combination. All slots below hold jobs.
fn refill(
    rt: &impl Abort,
    slots: &JobSlots<Counted>,
    clerk: &mut ClerkSeat<Counted>,
    combination: u32,
    slot: u32,
)
    requires { IsClerkOf slots.now clerk.old }
    ensures { IsClerkOf slots.now clerk.new }
{
    match lies_in(combination, slot) {
        0 => take_home(rt, slots, clerk, slot),
        1 => {
            take_home(rt, slots, clerk, slot);
            let job = Counted(slot.saturating_add(WAITING), 0);
            assert!(rt; slots.offer(clerk, job) == Ok(slot));
        }
        _ => {}
    }
}

/// Has the slots, all of which hold turned jobs, hold those of a combination: from the last on, so that a job that is offered
/// goes into the slot that was emptied before it.
fn refill_all(
    rt: &impl Abort,
    slots: &JobSlots<Counted>,
    clerk: &mut ClerkSeat<Counted>,
    combination: u32,
)
    requires { IsClerkOf slots.now clerk.old }
    ensures { IsClerkOf slots.now clerk.new }
{
    for slot in [3, 2, 1, 0] {
        refill(rt, slots, clerk, combination, slot);
    }
}

/// A worker's seat is joined, or it isn't.
fn let_go(
    slots: &JobSlots<Counted>,
    clerk: &mut ClerkSeat<Counted>,
    worker: WorkerSeat<Counted>,
    is_joined: bool,
)
    requires { IsClerkOf slots.now clerk.old × IsWorkerOf slots.now worker }
    ensures { IsClerkOf slots.now clerk.new }
{
    if is_joined {
        slots.join(clerk, worker);
    } else {
        drop(worker);
    }
}

/// Closes the slots in a combination, behind two workers of which so many are joined.
fn close(rt: &impl Abort, alloc: Global, combination: u32, joined: u32) -> Result<(), Fail> {
    let (slots, mut clerk) = JobSlots::make(alloc, SLOTS)?;
    let mut first = seat(rt, &slots, &mut clerk);
    let mut second = seat(rt, &slots, &mut clerk);
    offer_each(rt, &slots, &mut clerk, SLOTS);
    run_all(rt, &slots, &mut first, &mut second);
    let_go(&slots, &mut clerk, first, joined > 0);
    let_go(&slots, &mut clerk, second, joined > 1);
    refill_all(rt, &slots, &mut clerk, combination);
    let jobs = jobs_of(alloc, combination)?;
    assert!(rt;
        slots.close(clerk).as_slice() == jobs.as_slice(),
        "{combination}"
    );
    Ok(())
}

#[test]
fn close_gives_what_lies_in_each_slot(rt: HostRuntime) -> Result<(), Fail> {
    for combination in 0..COMBINATIONS {
        for joined in 0..3 {
            close(&rt, rt.alloc(), combination, joined)?;
        }
    }
    Ok(())
}
