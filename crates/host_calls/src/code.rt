//! What a call answers, as a number.
ghost use Rattle.std.specs.Prelude.{◌≡◌};
ghost use Rattle.host_calls.specs.Codes.{code_of_said};

use connection::Refused;
use std::alloc::AllocError;

/// Why a call isn't done.
#[derive(Drop)]
pub enum Why {
    /// The connection refuses it.
    Refused(Refused),
    NotText,
    NotJson,
    Settings,
}

impl From<Refused> for Why {
    ghost use Rattle.std.specs.Prelude.{◌≡◌};
    ghost use Rattle.host_calls.specs.declared.code.Why.TheVariants.{Refused as By};

    ghost from_gives = { λ refused why. why ≡ By refused };

    fn from(refused: Refused) -> Self {
        Why::Refused(refused)
    }
}

impl From<AllocError> for Why {
    ghost use Rattle.std.specs.Prelude.{◌≡◌};
    ghost use Rattle.host_calls.specs.declared.code.Why.TheVariants.{Refused as By};
    ghost use Rattle.connection_history.specs.declared.refused.Refused.TheVariants.{Memory};

    ghost from_gives = { λ _ why. why ≡ By Memory };

    fn from(_: AllocError) -> Self {
        Why::Refused(Refused::Memory)
    }
}

/// The code of an answer.
pub fn code_of(answer: Result<(), Why>) -> i32
    ensures { result ≡ code_of_said answer }
{
    match answer {
        Ok(()) => 0,
        Err(Why::Refused(refused)) => match refused {
            Refused::Memory => 1,
            Refused::NotOpen => 2,
            Refused::NotWaiting => 3,
            Refused::Over => 4,
            Refused::Empty => 8,
            Refused::Full => 9,
        },
        Err(Why::NotJson) => 5,
        Err(Why::NotText) => 6,
        Err(Why::Settings) => 7,
    }
}
