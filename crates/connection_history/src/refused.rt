use std::alloc::AllocError;

/// Why a connection didn't do what its host said. A refusal changes nothing.
#[derive(Clone, Copy, Debug, Drop, PartialEq, Eq)]
pub enum Refused {
    /// Out of memory. The same call may be made again.
    Memory,
    /// The call isn't open: it never came, or is answered.
    NotOpen,
    /// Our call doesn't wait for a reply, or is withdrawn already.
    NotWaiting,
    /// The input is over.
    Over,
    /// A batch of no calls; or nothing is said where an answer is owed.
    Empty,
    /// There are no more keys for calls of ours.
    Full,
}

impl From<AllocError> for Refused {
    ghost use Rattle.std.specs.Prelude.{◌≡◌};
    ghost use Rattle.connection_history.specs.declared.refused.Refused.TheVariants.{Memory};

    ghost from_gives = { λ _ why. why ≡ Memory };

    fn from(_: AllocError) -> Self {
        Refused::Memory
    }
}
