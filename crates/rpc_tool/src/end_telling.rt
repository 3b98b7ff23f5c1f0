//! The line that says how a run ended.
use crate::run_failure::RunFailure;
use lsp_frames::FrameFault;
use program_edge::Failure;
use rpc_peer::{Close, EndHook, ServeFault};
use std::cell::{Cell, RefCell};
use std::io::Write;

/// Tells how a server ended before it waits for its reader.
#[derive(Drop)]
pub struct EndTeller<'a, E> {
    errors: RefCell<&'a mut E>,
    has_told: Cell<bool>,
}

impl<'a, E: Write> EndTeller<'a, E> {
    /// Nothing was told yet.
    pub fn new(errors: &'a mut E) -> EndTeller<'a, E> {
        EndTeller {
            errors: RefCell::new(errors),
            has_told: Cell::new(false),
        }
    }

    /// Whether it was told how the server ended.
    pub fn has_told(&self) -> bool {
        self.has_told.get()
    }
}

impl<'a, E: Write> EndHook for EndTeller<'a, E> {
    fn ended(&self, end: Result<Close, ServeFault>) {
        let Ok(mut errors) = self.errors.try_borrow_mut() else {
            return;
        };
        tell_end(outcome_of(end), &mut **errors);
        self.has_told.set(true);
    }
}

/// What the program makes of how a server ended.
pub fn outcome_of(end: Result<Close, ServeFault>) -> Result<Close, RunFailure> {
    match end {
        Ok(close) => Ok(close),
        Err(fault) => Err(RunFailure::Program(failure_of(fault))),
    }
}

/// What the program tells of a server that gave up. The command line lets no other numbers of workers through than a server has.
fn failure_of(fault: ServeFault) -> Failure {
    match fault {
        ServeFault::Workers => Failure::Words,
        ServeFault::Memory => Failure::Memory,
        ServeFault::Write => Failure::Write,
    }
}

/// The status that the program ends with.
pub fn status_of(outcome: Result<Close, RunFailure>) -> u8 {
    match outcome {
        Ok(Close::Clean) => 0,
        Ok(_) => 1,
        Err(failure) => failure.status(),
    }
}

/// Tells how the input ended, where it isn't cleanly, or why nothing came of it.
pub fn tell_end<E: Write>(outcome: Result<Close, RunFailure>, errors: &mut E) {
    match outcome {
        Ok(Close::Clean) => {}
        Ok(close) => {
            let name = name_of(close);
            let _ = writeln!(errors, "input ended: {name}");
        }
        Err(failure) => {
            let _ = writeln!(errors, "{failure}");
        }
    }
}

fn name_of(close: Close) -> &'static str {
    match close {
        Close::Clean => "Clean",
        Close::Frame(FrameFault::BadHead) => "BadHead",
        Close::Frame(FrameFault::BadLength | FrameFault::LongLength) => "BadLength",
        Close::Frame(FrameFault::TwoLengths) => "TwoLengths",
        Close::Frame(FrameFault::TooLarge) => "TooLarge",
        Close::Frame(FrameFault::NoLength) => "NoLength",
        Close::Frame(FrameFault::HeadTooLong) => "HeadTooLong",
        Close::Frame(FrameFault::Truncated) => "Truncated",
        Close::Read => "Read",
        Close::Full => "Full",
    }
}
