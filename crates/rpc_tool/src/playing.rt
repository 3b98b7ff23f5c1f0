//! The command `play`: the whole of the input is played, and what was written goes out.
ghost use Rattle.std.specs.Prelude.{◌<◌};

use crate::command_line::PlayOptions;
use crate::limits::limits_of;
use crate::output::{write_all, write_lines};
use crate::pieces::Pieces;
use crate::reading::read_all;
use crate::run_failure::RunFailure;
use crate::run_notes::TableNotes;
use crate::table_file::table_in;
use method_steps::Table;
use program_edge::Failure;
use rpc_peer::{Close, Framing, Picks, Report, Schedule};
use std::alloc::Global;
use std::io::{Read, Write};
use std::rt::Files;

/// How many bytes of the input are read at a time.
const INPUT_PIECE: usize = 65_536;

/// Plays the whole of the input, and gives how it ended. The table's file is read and judged before.
pub fn play<R: Files + AllocGlobal, I: Read + Drop, W: Write>(
    rt: &R,
    options: PlayOptions<'_>,
    input: I,
    output: &mut W,
    notes: &mut TableNotes,
) -> Result<Close, RunFailure> {
    let table = table_in(rt, options.table, notes)?;
    let (bytes, report) = played(rt.alloc(), &table, options, input)?;
    if options.lines {
        write_lines(bytes.as_slice(), output)?;
    } else {
        write_all(bytes.as_slice(), output)?;
    }
    Ok(report.end)
}

/// What is written for the input, cut into pieces. Nothing of it goes out before the input has ended.
fn played<I: Read + Drop>(
    alloc: Global,
    table: &Table,
    options: PlayOptions<'_>,
    mut input: I,
) -> Result<(Vec<u8>, Report), Failure> {
    let schedule = schedule_of(options);
    let limits = limits_of(options.limits)?;
    let framing = if options.lines {
        Framing::Lines
    } else {
        Framing::Frames
    };
    let mut pieces = Pieces::new(alloc, framing, table, limits, &schedule, size_of(options))?;
    let mut room = [0u8; INPUT_PIECE];
    read_all(&mut input, &mut room, &mut pieces)?;
    Ok(pieces.finish()?)
}

/// The size of a piece in bytes, at least 1.
fn size_of(options: PlayOptions<'_>) -> usize
    ensures { 0 < result }
{
    (options.piece as usize).max(1)
}

/// When methods run, and which of them first.
fn schedule_of(options: PlayOptions<'_>) -> Schedule {
    Schedule {
        lazy: options.lazy,
        picks: if options.last {
            Picks::Last
        } else {
            Picks::First
        },
    }
}
