//! What a run notes as it goes, so that it can explain how it ended.
use crate::watch::Watch;
use method_steps::TableFault;
use std::io;

/// What is known of the table.
#[derive(Drop)]
pub struct TableNotes {
    /// Why its file couldn't be opened or read, where the system said so.
    pub failure: Option<io::Error>,
    /// The text of that file, where it was refused.
    pub refused: Option<RefusedText>,
    /// Whether the run has got its table.
    pub is_there: bool,
}

/// A text that was refused as a table.
#[derive(Drop)]
pub struct RefusedText {
    pub text: Vec<u8>,
    pub fault: TableFault,
}

impl TableNotes {
    /// Nothing was done yet.
    pub fn new() -> TableNotes {
        TableNotes {
            failure: None,
            refused: None,
            is_there: false,
        }
    }
}

/// What is known of a stream that was read.
#[derive(Drop)]
pub struct InputNotes {
    /// Whether anything was asked of it.
    pub was_read: bool,
    /// Why a read failed, where one did.
    pub failure: Option<io::Error>,
    /// What follows its bytes, to find the place of a fault.
    pub watch: Option<Watch>,
}

/// What is known of a run that is over.
#[derive(Clone, Copy)]
pub struct RunNotes<'a> {
    pub table: &'a TableNotes,
    /// Of standard input.
    pub input: &'a InputNotes,
    /// Why standard output failed, where it did.
    pub output: Option<io::Error>,
}
