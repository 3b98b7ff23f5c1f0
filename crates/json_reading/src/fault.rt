use std::alloc::{AllocError, AllocFailed};

/// Why a value wasn't read.
#[derive(Clone, Copy, Debug, Drop, PartialEq, Eq)]
pub enum ReadFault {
    /// The tokens are no value that nests as deep as it may, or a number in it is too large for a float.
    Refused,
    /// There is no memory.
    Memory,
}

impl From<json::Invalid> for ReadFault {
    ghost use Rattle.json_reading.specs.declared.fault.ReadFault.TheVariants.{Refused};
    ghost use Rattle.std.specs.Prelude.{◌≡◌};

    ghost from_gives = { λ _ e. e ≡ Refused };

    fn from(_invalid: json::Invalid) -> ReadFault {
        ReadFault::Refused
    }
}

impl From<AllocError> for ReadFault {
    ghost use Rattle.json_reading.specs.declared.fault.ReadFault.TheVariants.{Memory};
    ghost use Rattle.std.specs.Prelude.{◌≡◌};

    ghost from_gives = { λ _ e. e ≡ Memory };

    fn from(_refused: AllocError) -> ReadFault {
        ReadFault::Memory
    }
}

impl<T: Drop> From<AllocFailed<T>> for ReadFault {
    ghost use Rattle.json_reading.specs.declared.fault.ReadFault.TheVariants.{Memory};
    ghost use Rattle.std.specs.Prelude.{◌≡◌};

    ghost from_gives = { λ _ e. e ≡ Memory };

    fn from(_refused: AllocFailed<T>) -> ReadFault {
        ReadFault::Memory
    }
}
