ghost use Rattle.std.specs.Prelude.{◌≡◌, true, []};
ghost use Rattle.job_slots.specs.Looks.{is_idle, IsWorkerAtRest};

use crate::rule::Place;

/// A worker's right to run jobs. It knows which slots it has shut.
pub struct WorkerSeat<J> {
    /// The worker's seat at the table, with its view: the slots that it has shut.
    pub(crate) seat: Place<J>,
    // While nobody calls, a worker holds no slot and has no job: a call that claims one shuts the slot before it returns. So
    // a seat that was not joined loses no job, unless its thread was cut off in a turn.
    ghost rests: { IsWorkerAtRest seat.me },
}

impl<J> WorkerSeat<J> {
    pub(crate) fn into_seat(self) -> Place<J>
        ensures { (result ≡ self.seat) × (is_idle result.me.0 ≡ true) × (result.me.1 ≡ []) }
    {
        let Self { seat } = self;
        seat
    }
}

impl<J> Drop for WorkerSeat<J> {
    fn drop(self) {
        let Self { seat: _ } = self;
    }
}

/// What one call of `run_one` did.
#[derive(Debug, Clone, Copy, PartialEq, Eq)]
pub enum Ran {
    /// The job of this slot was turned.
    One(u32),
    /// No job was there to claim.
    Nothing,
}
