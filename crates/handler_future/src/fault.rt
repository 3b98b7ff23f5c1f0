use rpc_messages::Standard;
use std::alloc::AllocError;

/// Why a step has no value.
#[derive(Clone, Copy)]
pub(crate) enum StepFault {
    /// The method ends with this error.
    Ended(Standard),
    /// A growth was refused.
    Memory,
}

impl From<AllocError> for StepFault {
    ghost use Rattle.std.specs.Prelude.{◌≡◌};
    ghost use Rattle.handler_future.specs.declared.fault.StepFault.TheVariants as fault;

    ghost from_gives = { λ _ made. made ≡ fault.Memory };

    fn from(_: AllocError) -> StepFault {
        StepFault::Memory
    }
}
