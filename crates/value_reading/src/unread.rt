//! Why a text wasn't read.

use std::alloc::{AllocError, AllocFailed};

/// Why a text wasn't read.
#[derive(Clone, Copy, Drop)]
pub enum Unread {
    /// It is no JSON, nests too deep, or has something rare, as a number that no float holds.
    Unusual,
    /// There is no memory.
    Memory,
}

impl From<AllocError> for Unread {
    ghost use Rattle.value_reading.specs.declared.unread.Unread.TheVariants.{Memory};
    ghost use Rattle.std.specs.Prelude.{◌≡◌};

    ghost from_gives = { λ _ e. e ≡ Memory };

    fn from(_refused: AllocError) -> Unread {
        Unread::Memory
    }
}

impl<T: Drop> From<AllocFailed<T>> for Unread {
    ghost use Rattle.value_reading.specs.declared.unread.Unread.TheVariants.{Memory};
    ghost use Rattle.std.specs.Prelude.{◌≡◌};

    ghost from_gives = { λ _ e. e ≡ Memory };

    fn from(_refused: AllocFailed<T>) -> Unread {
        Unread::Memory
    }
}
