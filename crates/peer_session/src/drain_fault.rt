use std::alloc::AllocError;

/// Why what is due wasn't written.
#[derive(Clone, Copy, Debug, PartialEq, Eq)]
pub enum DrainFault {
    /// There was no memory for it, or a handler had found none. Nothing was written.
    Memory,
    /// The sink failed, in this drain or in an earlier one.
    Write,
}

impl From<AllocError> for DrainFault {
    ghost use Rattle.std.specs.Prelude.{◌≡◌};
    ghost use Rattle.peer_session.specs.declared.drain_fault.DrainFault.TheVariants as fault;

    ghost from_gives = { λ _ made. made ≡ fault.Memory };

    fn from(_error: AllocError) -> DrainFault {
        DrainFault::Memory
    }
}
