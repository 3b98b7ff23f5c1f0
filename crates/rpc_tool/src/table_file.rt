//! The table of methods, read from its file and judged.
use crate::command_line::CheckOptions;
use crate::drawing::drawn;
use crate::noted::NotedReader;
use crate::reading::read_all;
use crate::run_failure::RunFailure;
use crate::run_notes::{RefusedText, TableNotes};
use method_steps::{Table, TableFault};
use program_edge::Failure;
use rpc_peer::Close;
use std::alloc::Global;
use std::fs;
use std::io::{Error, ErrorKind, Write};
use std::rt::Files;

/// How many bytes of a table's file are read at a time: so few that all reads that the program makes give at most 256 MiB.
const TABLE_PIECE: usize = 256;

/// Reads the table in a file; without a file it is empty.
pub fn table_in<R: Files + AllocGlobal>(
    rt: &R,
    path: Option<&str>,
    notes: &mut TableNotes,
) -> Result<Table, RunFailure> {
    let table = match path {
        Some(path) => {
            let text = read_file(rt, path, &mut notes.failure)?;
            let (table, _text) = judge(rt.alloc(), text, notes)?;
            table
        }
        None => Table::empty(rt.alloc()),
    };
    notes.is_there = true;
    Ok(table)
}

/// The table that a text stands for, and the text. One that is refused goes to the notes.
fn judge(
    alloc: Global,
    text: Vec<u8>,
    notes: &mut TableNotes,
) -> Result<(Table, Vec<u8>), RunFailure> {
    match Table::read(alloc, text.as_slice()) {
        Ok(table) => Ok((table, text)),
        Err(fault) => {
            notes.refused = Some(RefusedText { text, fault });
            Err(refused(fault))
        }
    }
}

fn read_file<R: Files + AllocGlobal>(
    rt: &R,
    path: &str,
    failure: &mut Option<Error>,
) -> Result<Vec<u8>, RunFailure> {
    let file = match fs::open(rt, path) {
        Ok(file) => file,
        Err(error) if error.kind() == ErrorKind::OutOfMemory => {
            return Err(RunFailure::Program(Failure::Memory));
        }
        Err(error) => {
            *failure = Some(error);
            return Err(RunFailure::UnreadableTable);
        }
    };
    let mut reader = NotedReader::new(file, None);
    let mut text = Vec::new(rt.alloc());
    let mut room = [0u8; TABLE_PIECE];
    match read_all(&mut reader, &mut room, &mut text) {
        Ok(()) => Ok(text),
        Err(Failure::Memory) => Err(RunFailure::Program(Failure::Memory)),
        Err(_) => {
            *failure = reader.notes.failure;
            Err(RunFailure::UnreadableTable)
        }
    }
}

fn refused(fault: TableFault) -> RunFailure {
    RunFailure::RefusedTable {
        kind: fault.kind.name(),
        method: fault.method,
        step: fault.step,
    }
}

/// The command `check`: reads the table in a file, says how many methods it has, and draws them where that is asked for.
/// It reads no input, so that ends cleanly.
pub fn check<R: Files + AllocGlobal, W: Write>(
    rt: &R,
    options: CheckOptions<'_>,
    output: &mut W,
    notes: &mut TableNotes,
) -> Result<Close, RunFailure> {
    let text = read_file(rt, options.table, &mut notes.failure)?;
    let (table, text) = judge(rt.alloc(), text, notes)?;
    let methods = table.len();
    let picture = match options.explain {
        true => drawn(rt.alloc(), text.as_slice())?,
        false => String::new(rt.alloc()),
    };
    // (what finds no memory until then is the table's)
    notes.is_there = true;
    let picture = picture.as_str();
    if write!(output, "ok: {methods} methods\n{picture}").is_err() || output.flush().is_err() {
        return Err(RunFailure::Program(Failure::Write));
    }
    Ok(Close::Clean)
}
