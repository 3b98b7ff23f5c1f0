//! The command line: what is to be done, and how much of it.
mod cases;
mod desk;
mod handing_out;
mod rounds;

use crate::lockstep::Rounds;
use crate::work::Task;
use cases::{CASES, table_of};
use desk::{DESK, desk_task};
use handing_out::{SLOTS, slots_task};
use program_edge::{Program, Refusal};
use rounds::{LOCKSTEP, rounds_of};
use std::alloc::Global;

/// What a command line asks the program to do.
#[derive(Clone, Copy)]
pub enum Bench<'a> {
    /// A little of each kind of work.
    Little,
    /// Work of one kind, with the time that it takes.
    Timed(Task),
    /// Serve a client that waits for each answer before its next request.
    Lockstep(Rounds),
    /// Play and serve the streams of standard input with the table in this file; without one there are no methods.
    Cases { table: Option<&'a str> },
}

/// Reads the words of a command line, of which the first is the program's name. An `Err` has the text
/// for the user: help and the version too, whose status is 0.
pub fn read<'a>(alloc: Global, words: &'a [String]) -> Result<Bench<'a>, Refusal> {
    let words = PROGRAM.read(alloc, words)?;
    Ok(match words.command() {
        Some("slots") => Bench::Timed(slots_task(&words)),
        Some("desk") => Bench::Timed(desk_task(&words)),
        Some("lockstep") => Bench::Lockstep(rounds_of(&words)),
        Some("cases") => Bench::Cases {
            table: table_of(&words),
        },
        _ => Bench::Little,
    })
}

static PROGRAM: Program = Program {
    name: "peer_bench",
    version: "0.1.0",
    about: "Work of one kind alone, at size; without words, a little of each kind",
    commands: &[SLOTS, DESK, LOCKSTEP, CASES],
    needs_command: false,
    options: &[],
    notes: "",
};
