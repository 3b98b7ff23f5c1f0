//! The host's memory where a new handle goes.
ghost use Rattle.std.specs.Prelude.{◌≡◌, Option, Some, None};
ghost use Rattle.std.specs.Coded.{coded_option};
ghost use Rattle.bullmyrtle.specs.Held.{held_row, Held};
ghost use Rattle.bullmyrtle.specs.Places.{held_at};

use crate::handle::Handle;
use std::marker::Model;

/// A place for one handle, and the value of the handle that lies there, if one does.
pub(crate) struct Place {
    pub(crate) at: *mut Handle,
    pub(crate) ghost held: { Option Held } by { coded_option held_row.coded },
}

impl Model for Place {
    ghost also_owns = { λ p. held_at p.at p.held };
}

impl Place {
    /// Puts the handle there.
    pub(crate) fn put(self, handle: Handle) -> Place
        requires { self.held ≡ None }
        ensures place { result.at ≡ self.at }
        ensures held { result.held ≡ Some handle.value }
    {
        let Place { at } = self;
        unsafe {
            at.write(handle);
        }
        Place { at }
    }
}
