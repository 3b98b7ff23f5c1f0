//! A worker: a thread that turns jobs.

ghost use Rattle.job_slots.specs.Seats.{IsWorkerOf};

use crate::bells::{Bells, Stopped};
use crate::patience::Patience;
use job_slots::{JobSlots, Ran, Turns, WorkerSeat};
use std::sync::Wait;

/// Turns jobs until it sees that the server has stopped. It looks on from the slot of its last job.
pub(crate) fn work<J: Turns, R: Wait>(
    rt: &R,
    slots: &JobSlots<J>,
    seat: WorkerSeat<J>,
    bells: &Bells,
    yields: u32,
) -> Stopped
    requires { IsWorkerOf slots.now seat }
{
    let mut seat = seat;
    let mut last = 0;
    let mut patience = Patience::new(yields);
    for _ in rt.forever() {
        let key = patience.announce(&bells.workers);
        if let Some(stopped) = bells.stopped() {
            return stopped;
        }
        match slots.run_one_from(&mut seat, last) {
            Ran::One(slot) => {
                last = slot;
                bells.clerk.notify_one();
                patience.renew();
            }
            Ran::Nothing => patience.rest(rt, key),
        }
    }
    unreachable!()
}
