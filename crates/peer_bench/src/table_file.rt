//! The table of methods, read from its file.
use crate::run_failure::RunFailure;
use method_steps::{FaultKind, Table, TableFault};
use program_edge::Failure;
use std::fs;
use std::io::ErrorKind;
use std::rt::Files;

/// Reads the table in a file; without a file it is empty.
pub fn table_in<R: Files + AllocGlobal>(rt: &R, path: Option<&str>) -> Result<Table, RunFailure> {
    let Some(path) = path else {
        return Ok(Table::empty(rt.alloc()));
    };
    match fs::read(rt, path) {
        Ok(bytes) => Table::read(rt.alloc(), bytes.as_slice()).map_err(refused),
        Err(error) if error.kind() == ErrorKind::OutOfMemory => {
            Err(RunFailure::Program(Failure::Memory))
        }
        Err(_) => Err(RunFailure::Refused("table: cannot be read")),
    }
}

/// Why there is no table.
fn refused(fault: TableFault) -> RunFailure {
    match fault.kind {
        FaultKind::Memory => RunFailure::Program(Failure::Memory),
        _ => RunFailure::Refused("table: refused"),
    }
}
