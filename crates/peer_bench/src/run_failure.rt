//! Why a run of the program failed.
use program_edge::Failure;
use std::alloc::{AllocError, AllocFailed};

/// Why a command wasn't done to its end.
#[derive(Clone, Copy)]
pub enum RunFailure {
    /// The program itself failed.
    Program(Failure),
    /// The table or a case is refused. This is the one line on standard error.
    Refused(&'static str),
}

/// A line isn't one of a case, or the stream behind it is shorter than it says.
pub const BROKEN_CASE: RunFailure = RunFailure::Refused("a case cannot be read");

impl From<Failure> for RunFailure {
    fn from(failure: Failure) -> RunFailure {
        RunFailure::Program(failure)
    }
}

impl From<AllocError> for RunFailure {
    fn from(_error: AllocError) -> RunFailure {
        RunFailure::Program(Failure::Memory)
    }
}

impl<T: Drop> From<AllocFailed<T>> for RunFailure {
    fn from(_error: AllocFailed<T>) -> RunFailure {
        RunFailure::Program(Failure::Memory)
    }
}
