//! One owner's jobs, through job slots to its workers and home.
ghost use Rattle.job_slots.specs.Seats.{IsClerkOf, IsWorkerOf};

use super::crew::Crew;
use super::job::Job;
use super::tally::Tally;
use job_slots::{ClerkSeat, JobSlots, Ran, WorkerSeat};
use program_edge::Failure;
use std::alloc::Global;
use std::sync::Wait;
use std::sync::atomic::AtomicBool;
use std::sync::atomic::Ordering::SeqCst;
use std::thread;
use std::thread::{Scope, Threads};

/// The clerk of some slots.
#[derive(Drop)]
struct Clerk<'a> {
    slots: &'a JobSlots<Job>,
    seat: ClerkSeat<Job>,
    count: u32,
    ghost same_table: { IsClerkOf slots.now seat },
}

impl<'a> Clerk<'a> {
    /// Makes the end of one more worker.
    fn hire(&mut self) -> Result<Hand<'a>, Failure> {
        match self.slots.split(&mut self.seat) {
            Ok(seat) => Ok(Hand {
                slots: self.slots,
                seat,
                last: 0,
            }),
            Err(_) => Err(Failure::Memory),
        }
    }

    /// Hands out as many jobs as there is room for.
    fn offer_all<R: Wait>(&mut self, rt: &R, tally: &mut Tally) {
        for _ in rt.forever() {
            let Some(job) = tally.next_job() else {
                return;
            };
            if self.slots.offer(&mut self.seat, job).is_err() {
                return;
            }
            tally.hand_out();
        }
    }

    /// Takes home what is done now.
    fn collect(&mut self, tally: &mut Tally) {
        for slot in 0..self.count {
            if let Some(job) = self.slots.collect(&mut self.seat, slot) {
                tally.take_home(&job);
            }
        }
    }
}

/// A worker at some slots.
#[derive(Drop)]
struct Hand<'a> {
    slots: &'a JobSlots<Job>,
    seat: WorkerSeat<Job>,
    /// The slot of its last job, from which it looks on as a server's worker does.
    last: u32,
    ghost same_table: { IsWorkerOf slots.now seat },
}

impl Hand<'_> {
    /// Turns one job and sends it home, or says that it found none.
    fn run_one(&mut self) -> bool {
        match self.slots.run_one_from(&mut self.seat, self.last) {
            Ran::One(slot) => {
                self.last = slot;
                true
            }
            Ran::Nothing => false,
        }
    }
}

/// Sends jobs through slots to workers and back.
pub fn through_slots<R: Threads + Wait + Sync>(
    rt: &R,
    alloc: Global,
    crew: Crew,
    tally: &mut Tally,
) -> Result<(), Failure> {
    let Ok((slots, seat)) = JobSlots::make(alloc, crew.room) else {
        return Err(Failure::Memory);
    };
    let stop = AtomicBool::new(false);
    let mut clerk = Clerk {
        slots: &slots,
        seat,
        count: crew.room,
    };
    let handed = hand_out(rt, &mut clerk, crew.workers, tally, &stop);
    drop(clerk);
    handed
}

/// Starts so many workers in a scope, hands all jobs out to them and takes each one home.
fn hand_out<'a, R>(
    rt: &'a R,
    clerk: &mut Clerk<'a>,
    workers: u32,
    tally: &mut Tally,
    stop: &'a AtomicBool,
) -> Result<(), Failure>
where
    R: Threads + Wait + Sync,
{
    thread::scope(
        thread::scope_env(),
        rt,
        move |scope| -> Result<(), Failure> {
            let hired = hire_all(scope, rt, clerk, workers, stop);
            if hired.is_ok() {
                own(rt, clerk, tally);
            }
            stop.store(true, SeqCst);
            hired
        },
    )
}

/// Starts so many workers.
fn hire_all<'s, 'a: 's, E, R>(
    scope: &'s Scope<'s, E>,
    rt: &'s R,
    clerk: &mut Clerk<'a>,
    workers: u32,
    stop: &'s AtomicBool,
) -> Result<(), Failure>
where
    R: Wait + Sync,
{
    for _ in 0..workers {
        let hand = clerk.hire()?;
        if scope.spawn(move || work(rt, hand, stop)).is_err() {
            return Err(Failure::Thread);
        }
    }
    Ok(())
}

/// Hands all jobs out and takes each one home. Whenever a round moves nothing, the thread yields.
fn own<R: Wait>(rt: &R, clerk: &mut Clerk<'_>, tally: &mut Tally) {
    for _ in rt.forever() {
        if tally.is_over() {
            return;
        }
        let before = tally.moves();
        clerk.offer_all(rt, tally);
        clerk.collect(tally);
        if tally.moves() == before {
            thread::yield_now();
        }
    }
}

/// Runs jobs until it has seen the stop and then finds none. Whenever it finds none, the thread yields.
fn work<R: Wait>(rt: &R, mut hand: Hand<'_>, stop: &AtomicBool) {
    for _ in rt.forever() {
        let is_last = stop.load(SeqCst);
        if hand.run_one() {
            continue;
        }
        if is_last {
            return;
        }
        thread::yield_now();
    }
}
