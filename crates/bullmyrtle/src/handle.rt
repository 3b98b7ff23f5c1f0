//! A box as C holds it.
ghost use Rattle.std.specs.Prelude.{◌≡◌};
ghost use Rattle.std.specs.Borrow.{sem};
ghost use Rattle.std_alloc.specs.Box.Ownership.{box_owns};
ghost use Rattle.bullmyrtle.specs.Heap.{frees};
ghost use Rattle.bullmyrtle.specs.Held.{held_row};

use crate::loose::Loose;
use host_calls::HostedConnection;
use std::alloc::Global;
use std::marker::Model;

/// A pointer that owns what a box would own: what it points to, and the right to free its block. C sees the pointer alone.
#[repr(C)]
pub struct Handle {
    at: *mut u8,
    alloc: Global,
    pub ghost value: { held_row.Denot } by { held_row.coded },
}

impl Model for Handle {
    ghost also_owns = { λ h. box_owns (frees h.alloc) held_row h.at h.value };
}

// It may go to another thread: its value may, and whichever thread frees a block of the heap.
unsafe impl Send for Handle {}

impl Handle {
    ghost use Rattle.bullmyrtle.specs.Lending.{LendsValue};

    pub fn of(value: Box<HostedConnection>) -> Handle
        ensures { result.value ≡ value.value }
    {
        Handle::of_loose(Loose::of(value))
    }

    pub fn into_box(self) -> Box<HostedConnection>
        ensures { result.value ≡ self.value }
    {
        self.into_loose().into_box()
    }

    fn of_loose(loose: Loose<HostedConnection, Global>) -> Handle
        ensures { result.value ≡ loose.value }
    {
        let Loose { at, alloc } = loose;
        Handle {
            at: at.cast::<u8>(),
            alloc,
        }
    }

    fn into_loose(self) -> Loose<HostedConnection, Global>
        ensures { result.value ≡ self.value }
    {
        let Handle { at, alloc } = self;
        Loose {
            at: at.cast::<HostedConnection>(),
            alloc,
        }
    }

    /// What it points to.
    pub fn as_mut(&mut self) -> &mut HostedConnection
        ensures* writes_back { sem 𝓛 (LendsValue self.entry result) }
        ensures value { result.now ≡ self.old.value }
    {
        unsafe { &mut *self.at.cast::<HostedConnection>() }
    }
}
