//! Why a recording wasn't judged to its end.
use crate::replay::ReplayFault;
use std::alloc::{AllocError, AllocFailed};

/// Why a recording wasn't judged to its end. What was found before is told.
#[derive(Clone, Copy, Debug, PartialEq, Eq)]
pub enum TalkFailure {
    /// A growth was refused.
    Memory,
    /// Reading it failed, or took more reads than are made.
    Read,
    /// What was found can't be written.
    Write,
    /// This line, counted from 1, is none of a recording.
    NoRecording(u64),
}

impl From<AllocError> for TalkFailure {
    fn from(_error: AllocError) -> TalkFailure {
        TalkFailure::Memory
    }
}

impl<T: Drop> From<AllocFailed<T>> for TalkFailure {
    fn from(_error: AllocFailed<T>) -> TalkFailure {
        TalkFailure::Memory
    }
}

impl From<ReplayFault> for TalkFailure {
    fn from(fault: ReplayFault) -> TalkFailure {
        match fault {
            ReplayFault::Memory => TalkFailure::Memory,
            ReplayFault::NoRecording(line) => TalkFailure::NoRecording(line),
        }
    }
}
