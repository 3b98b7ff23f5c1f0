//! The program over any clock, any files, any reader and any two writers.
use crate::cases::run_cases;
use crate::command_line::{Bench, read};
use crate::little::run_little;
use crate::lockstep::go_round;
use crate::run_failure::RunFailure;
use crate::table_file::table_in;
use crate::work::run_timed;
use program_edge::{answer_words, tell_end};
use std::io::{Read, Write};
use std::rt::Files;
use std::sync::Wait;
use std::thread::Threads;
use std::time::Clock;

/// Does what the words ask for, of which the first is the program's name, and gives the exit status:
/// 0, or 1 where something failed, or 2 where the words, the table or a case are refused.
pub fn run<R, I, W, E>(rt: &R, words: &[String], mut input: I, output: &mut W, errors: &mut E) -> u8
where
    R: Files + Threads + Wait + Sync + Clock + AllocGlobal,
    I: Read + Drop,
    W: Write,
    E: Write,
{
    match read(rt.alloc(), words) {
        Ok(bench) => ended(obey(rt, bench, &mut input, output), errors),
        Err(refusal) => answer_words(&refusal, output, errors),
    }
}

/// Does the work.
fn obey<R, I, W>(rt: &R, bench: Bench<'_>, input: &mut I, output: &mut W) -> Result<(), RunFailure>
where
    R: Files + Threads + Wait + Sync + Clock + AllocGlobal,
    I: Read,
    W: Write,
{
    match bench {
        Bench::Little => Ok(run_little(rt, output)?),
        Bench::Timed(task) => Ok(run_timed(rt, task, output)?),
        Bench::Lockstep(rounds) => Ok(go_round(rt, rounds, output)?),
        Bench::Cases { table } => {
            let table = table_in(rt, table)?;
            run_cases(rt, &table, input, output)
        }
    }
}

/// Tells why the work wasn't done to its end, where it wasn't, and gives the status.
fn ended<E: Write>(outcome: Result<(), RunFailure>, errors: &mut E) -> u8 {
    match outcome {
        Ok(()) => 0,
        Err(RunFailure::Program(failure)) => tell_end(Err(failure), errors),
        Err(RunFailure::Refused(why)) => {
            let _ = writeln!(errors, "{why}");
            2
        }
    }
}
