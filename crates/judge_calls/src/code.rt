//! What a call answers, as a number.

ghost use Rattle.std.specs.Prelude.{◌≡◌};
ghost use Rattle.judge_calls.specs.Codes.{code_of_said};

use std::alloc::AllocError;

/// Why something counts as not seen.
#[derive(Drop)]
pub enum NotSeen {
    /// Memory was refused, now or before.
    Memory,
    /// There is no such side, or no such end.
    Settings,
}

impl From<AllocError> for NotSeen {
    ghost use Rattle.std.specs.Prelude.{◌≡◌};
    ghost use Rattle.judge_calls.specs.declared.code.NotSeen.TheVariants.{Memory};

    ghost from_gives = { λ _ why. why ≡ Memory };

    fn from(_: AllocError) -> Self {
        NotSeen::Memory
    }
}

/// The code of an answer.
pub fn code_of(answer: Result<(), NotSeen>) -> i32
    ensures { result ≡ code_of_said answer }
{
    match answer {
        Ok(()) => 0,
        Err(NotSeen::Memory) => 1,
        Err(NotSeen::Settings) => 7,
    }
}
