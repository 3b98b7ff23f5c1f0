//! Why a run of the program failed.
use program_edge::Failure;
use std::alloc::AllocError;
use thiserror::Error;

/// Why a command wasn't done. Its text is the one line on standard error.
#[derive(Clone, Copy, Debug, Error)]
pub enum RunFailure {
    /// The program itself failed.
    #[error(transparent)]
    Program(Failure),
    /// The table's file can't be opened or read, or takes more reads than the program makes.
    #[error("table: cannot be read")]
    UnreadableTable,
    /// The table has a fault, by its kind and its place; a place counts from 1, and is 0 where there is none.
    #[error("table: {kind}, method {method}, step {step}")]
    RefusedTable {
        kind: &'static str,
        method: u32,
        step: u32,
    },
    /// A recording has a line that is none, counted from 1.
    #[error("recording: fault in line {line}")]
    NoRecording {
        line: u64,
    },
    /// So many rules were broken in a recording that must be kept.
    #[error("judged: {must} must")]
    Broken {
        must: u64,
    },
}

impl RunFailure {
    /// The status that the program ends with.
    pub fn status(self) -> u8 {
        match self {
            RunFailure::Program(failure) => failure.status(),
            RunFailure::UnreadableTable
            | RunFailure::RefusedTable { .. }
            | RunFailure::NoRecording { .. } => 2,
            RunFailure::Broken { .. } => 1,
        }
    }
}

impl From<Failure> for RunFailure {
    fn from(failure: Failure) -> RunFailure {
        RunFailure::Program(failure)
    }
}

impl From<AllocError> for RunFailure {
    fn from(_error: AllocError) -> RunFailure {
        RunFailure::Program(Failure::Memory)
    }
}
