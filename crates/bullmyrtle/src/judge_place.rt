//! The host's memory where a new handle goes.
ghost use Rattle.std.specs.Prelude.{◌≡◌, Option, Some, None};
ghost use Rattle.std.specs.Coded.{coded_option};
ghost use Rattle.bullmyrtle.specs.JudgeHeld.{held_row, Held};
ghost use Rattle.bullmyrtle.specs.JudgePlaces.{held_at};

use crate::judge_handle::JudgeHandle;
use std::marker::Model;

/// A place for one handle, and the value of the handle that lies there, if one does.
pub(crate) struct JudgePlace {
    pub(crate) at: *mut JudgeHandle,
    pub(crate) ghost held: { Option Held } by { coded_option held_row.coded },
}

impl Model for JudgePlace {
    ghost also_owns = { λ p. held_at p.at p.held };
}

impl JudgePlace {
    /// Puts the handle there.
    pub(crate) fn put(self, handle: JudgeHandle) -> JudgePlace
        requires { self.held ≡ None }
        ensures place { result.at ≡ self.at }
        ensures held { result.held ≡ Some handle.value }
    {
        let JudgePlace { at } = self;
        unsafe {
            at.write(handle);
        }
        JudgePlace { at }
    }
}
