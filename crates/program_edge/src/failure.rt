//! Why a program gave up, and what it says of it.
ghost use Rattle.std.specs.Prelude.{◌≡◌, ◌≢◌};

use std::alloc::{AllocError, AllocFailed};
use thiserror::Error;

/// Why a run of a program failed. Its text is the one line on standard error.
#[derive(Clone, Copy, Debug, Error)]
pub enum Failure {
    /// The words of the command line can't be read.
    #[error("the arguments cannot be read")]
    Words,
    /// A growth was refused.
    #[error("failed: Memory")]
    Memory,
    /// Standard input failed, or took more reads than the program makes.
    #[error("failed: Read")]
    Read,
    /// Standard output failed.
    #[error("failed: Write")]
    Write,
    /// A content that would be written as a line is over 16,777,216 bytes.
    #[error("failed: Long")]
    Long,
    /// A thread could not be started.
    #[error("failed: Thread")]
    Thread,
    /// The clock cannot be read.
    #[error("failed: Clock")]
    Clock,
}

impl Failure {
    /// The status that the program ends with.
    pub fn status(self) -> u8
        ensures words { self ≡ Failure.Words → result ≡ 2 }
        ensures others { self ≢ Failure.Words → result ≡ 1 }
    {
        match self {
            Failure::Words => 2,
            Failure::Memory
            | Failure::Read
            | Failure::Write
            | Failure::Long
            | Failure::Thread
            | Failure::Clock => 1,
        }
    }
}

impl From<AllocError> for Failure {
    ghost use Rattle.program_edge.specs.declared.failure.Failure.{Failure};

    ghost from_gives = { λ _ failure. failure ≡ Failure.Memory };

    fn from(_error: AllocError) -> Failure {
        Failure::Memory
    }
}

impl<T: Drop> From<AllocFailed<T>> for Failure {
    ghost use Rattle.program_edge.specs.declared.failure.Failure.{Failure};

    ghost from_gives = { λ _ failure. failure ≡ Failure.Memory };

    fn from(_error: AllocFailed<T>) -> Failure {
        Failure::Memory
    }
}
