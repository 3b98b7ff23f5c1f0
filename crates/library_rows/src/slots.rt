//! Jobs that go through slots to workers and come home.
ghost use Rattle.std.specs.Prelude.{◌≡◌};
ghost use Rattle.job_slots.specs.Seats.{IsClerkOf, IsWorkerOf};

mod closings;
mod workers;

use job_slots::{ClerkSeat, JobSlots, Ran, Turns, WorkerSeat};
use std::alloc::Global;
use std::process::Abort;
use std::test::Fail;

// A job of a number, which counts its turns.
#[derive(Clone, Copy, PartialEq, Eq, Drop)]
struct Counted(u32, u32);

impl Turns for Counted {
    ghost use Rattle.std.specs.Prelude.{◌≡◌, ◌+◌, ◌-◌, ◌^◌, min};

    ghost turned = { λ before after. (after.0 ≡ before.0)
        × (after.1 ≡ min (before.1 + 1) (2 ^ 32 - 1)) };

    fn turn(&mut self) {
        self.1 = self.1.saturating_add(1);
    }
}

// What is done, and what it gives.
enum Act {
    // Offers the job of that number, which goes into that slot, or comes back since none is free.
    Offer(u32, Result<u32, Counted>),
    // A worker runs one job, or finds none.
    Run(Ran),
    // The same from a slot on.
    RunFrom(u32, Ran),
    Collect(u32, Option<Counted>),
    // Whether the job of the slot lies there turned.
    Looks(u32, bool),
}

use Act::{Collect, Looks, Offer, Run, RunFrom};

fn comes_out(
    slots: &JobSlots<Counted>,
    clerk: &mut ClerkSeat<Counted>,
    worker: &mut WorkerSeat<Counted>,
    act: &Act,
) -> bool
    requires { IsClerkOf slots.now clerk.old × IsWorkerOf slots.now worker.old }
    ensures { IsClerkOf slots.now clerk.new × IsWorkerOf slots.now worker.new }
{
    match act {
        Act::Offer(number, want) => slots.offer(clerk, Counted(*number, 0)) == *want,
        Act::Run(want) => slots.run_one(worker) == *want,
        Act::RunFrom(slot, want) => slots.run_one_from(worker, *slot) == *want,
        Act::Collect(slot, want) => slots.collect(clerk, *slot) == *want,
        Act::Looks(slot, want) => slots.is_turned(clerk, *slot) == *want,
    }
}

// A worker's seat, which is never refused.
fn seat(
    rt: &impl Abort,
    slots: &JobSlots<Counted>,
    clerk: &mut ClerkSeat<Counted>,
) -> WorkerSeat<Counted>
    requires { IsClerkOf slots.now clerk.old }
    ensures { IsClerkOf slots.now clerk.new × IsWorkerOf slots.now result }
{
    slots.split(clerk).ok().expect(rt, "a seat")
}

// Offers so many jobs, each of which goes into the next slot.
fn offer_each(rt: &impl Abort, slots: &JobSlots<Counted>, clerk: &mut ClerkSeat<Counted>, jobs: u32)
    requires { IsClerkOf slots.now clerk.old }
    ensures { IsClerkOf slots.now clerk.new }
{
    for number in 0..jobs {
        assert!(rt; slots.offer(clerk, Counted(number, 0)) == Ok(number));
    }
}

fn each_comes_out(
    rt: &impl Abort,
    slots: &JobSlots<Counted>,
    clerk: &mut ClerkSeat<Counted>,
    worker: &mut WorkerSeat<Counted>,
    acts: &[Act],
)
    requires { IsClerkOf slots.now clerk.old × IsWorkerOf slots.now worker.old }
    ensures { IsClerkOf slots.now clerk.new × IsWorkerOf slots.now worker.new }
{
    for (index, act) in acts.iter().enumerate() {
        assert!(rt; comes_out(slots, clerk, worker, act), "act {index}");
    }
}

// Acts at two new slots with one worker, and the jobs that `close` gives.
fn played(rt: &impl Abort, alloc: Global, acts: &[Act], left: &[Counted]) -> Result<(), Fail> {
    let (slots, mut clerk) = JobSlots::make(alloc, 2)?;
    let mut worker = seat(rt, &slots, &mut clerk);
    each_comes_out(rt, &slots, &mut clerk, &mut worker, acts);
    drop(worker);
    assert!(rt; slots.close(clerk).as_slice() == left);
    Ok(())
}

const GONE_OUT: &[Act] = &[
    Run(Ran::Nothing),
    Offer(10, Ok(0)),
    Offer(11, Ok(1)),
    Offer(12, Err(Counted(12, 0))),
    Run(Ran::One(0)),
];

#[test]
fn close_gives_the_turned_job_and_the_one_that_waits(rt: HostRuntime) -> Result<(), Fail> {
    played(&rt, rt.alloc(), GONE_OUT, &[Counted(10, 1), Counted(11, 0)])
}

const FILLED_AGAIN: &[Act] = &[
    Run(Ran::Nothing),
    Looks(0, false),
    Offer(10, Ok(0)),
    Offer(11, Ok(1)),
    Offer(12, Err(Counted(12, 0))),
    Run(Ran::One(0)),
    Looks(0, true),
    Looks(1, false),
    Looks(2, false),
    Collect(1, None),
    Collect(0, Some(Counted(10, 1))),
    Looks(0, false),
    Offer(12, Ok(0)),
];

#[test]
fn a_job_comes_home_turned_once_and_its_slot_is_filled_again(rt: HostRuntime) -> Result<(), Fail> {
    played(
        &rt,
        rt.alloc(),
        FILLED_AGAIN,
        &[Counted(12, 0), Counted(11, 0)],
    )
}

const LOOKED_FROM: &[Act] = &[
    Offer(0, Ok(0)),
    Offer(1, Ok(1)),
    RunFrom(1, Ran::One(1)),
    RunFrom(1, Ran::One(0)),
    RunFrom(0, Ran::Nothing),
    Collect(1, Some(Counted(1, 1))),
    Offer(3, Ok(1)),
    RunFrom(u32::MAX, Ran::One(1)),
];

#[test]
fn a_worker_looks_on_from_a_slot_and_then_from_the_first(rt: HostRuntime) -> Result<(), Fail> {
    played(
        &rt,
        rt.alloc(),
        LOOKED_FROM,
        &[Counted(0, 1), Counted(3, 1)],
    )
}
