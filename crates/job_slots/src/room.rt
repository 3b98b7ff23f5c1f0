//! Whether a slot is free in the clerk's view.

use crate::clerk::ClerkSeat;

impl<J> ClerkSeat<J> {
    ghost use Rattle.std.specs.Prelude.{◌≡◌, position, is_some};
    ghost use Rattle.job_slots.specs.Looks.{is_free};
    ghost use Rattle.job_slots.specs.Seats.{looks_of};

    /// Whether a slot is free in the clerk's view, so that `offer` takes a job.
    pub fn has_room(&self) -> bool
        ensures { result ≡ is_some (position is_free (looks_of self.now)) }
    {
        self.free.least().is_some()
    }
}
