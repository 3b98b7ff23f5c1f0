//! The kinds of atomic step, and what each tells its seat.
ghost use Rattle.job_slots.specs.Steps.{reserved, opened, claimed, shut, looked, cleared};

use crate::turns::Turns;
use crate::view::View;
use atomic_table::{Join, Play, Split};

/// The clerk stores FILLING and takes a free slot.
pub(crate) struct Reserve;

impl<J> Play<Option<J>, View<J>> for Reserve {
    ghost then = { reserved };
}

/// The clerk stores READY and gives the slot back with a job.
pub(crate) struct Open;

impl<J> Play<Option<J>, View<J>> for Open {
    ghost then = { opened };
}

/// A worker exchanges READY for RUNNING and takes the slot, or nothing changes.
pub(crate) struct Claim;

impl<J> Play<Option<J>, View<J>> for Claim {
    ghost then = { claimed };
}

/// A worker stores DONE and gives the slot back with the turned job.
pub(crate) struct Shut;

impl<J> Play<Option<J>, View<J>> for Shut {
    ghost then = { shut };
}

/// The clerk loads the word, and takes the slot where it is DONE.
pub(crate) struct LookAt;

impl<J: Turns> Play<Option<J>, View<J>> for LookAt {
    ghost then = { looked J.turned };
}

/// The clerk stores EMPTY and gives the slot back with nothing in it.
pub(crate) struct Clear;

impl<J> Play<Option<J>, View<J>> for Clear {
    ghost then = { cleared };
}

/// A worker's seat is cut off from the clerk's.
pub(crate) struct Hire;

impl<J> Split<View<J>> for Hire {
    ghost use Rattle.std.specs.Prelude.{[]};
    ghost use Rattle.job_slots.specs.declared.view.View.TheVariants.{Idle};
    ghost use Rattle.job_slots.specs.Looks.{one_hired};

    ghost left = { one_hired };

    ghost right = { λ _. Idle [] };
}

/// A worker's seat is taken in by the clerk's.
pub(crate) struct TakeIn;

impl<J> Join<View<J>> for TakeIn {
    ghost use Rattle.job_slots.specs.declared.view.View.TheVariants.{Spent};
    ghost use Rattle.job_slots.specs.Looks.{one_joined};

    ghost both = { λ v _. one_joined v };

    ghost spent = { Spent };
}
