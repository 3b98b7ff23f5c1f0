//! Two workers in threads of their own.
ghost use Rattle.std.specs.Prelude.{◌≡◌};
ghost use Rattle.job_slots.specs.Seats.{IsClerkOf, IsWorkerOf};

use super::{Counted, offer_each, seat};
use job_slots::{ClerkSeat, JobSlots, Ran, WorkerSeat};
use std::alloc::Global;
use std::process::Abort;
use std::snapshot::Snapshot;
use std::sync::Wait;
use std::sync::atomic::Ordering::SeqCst;
use std::sync::atomic::{AtomicBool, AtomicU32};
use std::test::Fail;
use std::thread;
use std::thread::{Promise, PromisedHandle, Scope, Threads};

// Runs jobs until it has seen the stop and then finds none. It gives its seat back, and how many jobs it ran.
fn work<R: Wait>(
    rt: &R,
    slots: &JobSlots<Counted>,
    worker: WorkerSeat<Counted>,
    stop: &AtomicBool,
    ran: &AtomicU32,
) -> (WorkerSeat<Counted>, u32)
    requires { IsWorkerOf slots.now worker }
    ensures { IsWorkerOf slots.now result.0 }
{
    let mut worker = worker;
    let mut count = 0u32;
    for _ in rt.forever() {
        let last = stop.load(SeqCst);
        match slots.run_one(&mut worker) {
            Ran::One(_) => {
                count = count.saturating_add(1);
                ran.fetch_add(1, SeqCst);
            }
            Ran::Nothing if last => break,
            Ran::Nothing => thread::yield_now(),
        }
    }
    (worker, count)
}

fn wait_until<R: Wait>(rt: &R, ran: &AtomicU32, enough: u32) {
    for _ in rt.forever() {
        if ran.load(SeqCst) >= enough {
            return;
        }
        thread::yield_now();
    }
}

// A worker's seat comes back as one of the same table.
#[derive(Drop)]
struct SeatOf(Snapshot<JobSlots<Counted>>);

impl Promise<(WorkerSeat<Counted>, u32)> for SeatOf {
    ghost use Rattle.job_slots.specs.Seats.{IsWorkerOf};

    ghost kept_by = { λ p r. IsWorkerOf p.0.value r.0 };
}

// A worker of a scope. Its seat comes back as one of the same table.
fn start<'s, E, R: Wait + Abort + Sync>(
    rt: &'s R,
    scope: &Scope<'s, E>,
    slots: &'s JobSlots<Counted>,
    worker: WorkerSeat<Counted>,
    stop: &'s AtomicBool,
    ran: &'s AtomicU32,
) -> PromisedHandle<(WorkerSeat<Counted>, u32), SeatOf>
    requires { IsWorkerOf slots.now worker }
    ensures { result.promise.0.value ≡ slots.now }
{
    let promise = SeatOf(Snapshot::of(slots));
    scope
        .spawn_with(promise, move || work(rt, slots, worker, stop, ran))
        .ok()
        .expect(rt, "a thread")
}

// Two workers and eight jobs. They stop once so many were turned. It gives how many jobs each says that it ran.
fn run_by_two<R: Threads + Wait + Abort + Sync>(
    rt: &R,
    slots: &JobSlots<Counted>,
    first: WorkerSeat<Counted>,
    second: WorkerSeat<Counted>,
    enough: u32,
) -> (u32, u32)
    requires { IsWorkerOf slots.now first × IsWorkerOf slots.now second }
{
    let (stop, ran) = (AtomicBool::new(false), AtomicU32::new(0));
    let (stop, ran) = (&stop, &ran);
    thread::scope(
        thread::scope_env(),
        rt,
        move |scope| -> (u32, u32)
            requires { IsWorkerOf slots.now first × IsWorkerOf slots.now second }
        {
            let first = start(rt, scope, slots, first, stop, ran);
            let second = start(rt, scope, slots, second, stop, ran);
            wait_until(rt, ran, enough);
            stop.store(true, SeqCst);
            (first.join(rt).1, second.join(rt).1)
        },
    )
}

// How many of the jobs were turned, where they stand in their order and each was turned at most once.
fn turned_once(jobs: &[Counted]) -> Option<u32> {
    let mut number = 0u32;
    let mut ones = 0u32;
    for job in jobs {
        if job.0 != number || job.1 > 1 {
            return None;
        }
        number = number.saturating_add(1);
        ones = ones.saturating_add(job.1);
    }
    Some(ones)
}

// How many of eight jobs two workers turned, where that is what they say and `close` gives all eight.
fn eight_jobs_by_two<R: Threads + Wait + Abort + Sync>(
    rt: &R,
    alloc: Global,
    enough: u32,
) -> Result<Option<u32>, Fail> {
    let (slots, mut clerk) = JobSlots::make(alloc, 8)?;
    let first = seat(rt, &slots, &mut clerk);
    let second = seat(rt, &slots, &mut clerk);
    offer_each(rt, &slots, &mut clerk, 8);
    let (a, b) = run_by_two(rt, &slots, first, second, enough);
    let left = slots.close(clerk);
    let ones = turned_once(left.as_slice());
    let is_so = left.len() == 8 && ones == Some(a.saturating_add(b));
    Ok(if is_so { ones } else { None })
}

#[test]
fn two_workers_turn_each_job_at_most_once(rt: HostRuntime) -> Result<(), Fail> {
    assert!(rt; eight_jobs_by_two(&rt, rt.alloc(), 0)?.is_some());
    Ok(())
}

#[test]
fn all_jobs_are_turned_before_the_stop(rt: HostRuntime) -> Result<(), Fail> {
    assert!(rt; eight_jobs_by_two(&rt, rt.alloc(), 8)? == Some(8));
    Ok(())
}
