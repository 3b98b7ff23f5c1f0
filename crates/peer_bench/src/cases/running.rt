//! Cases, run one behind another.
use super::case::{Case, Way, pieces};
use super::reading::{numbers, read_case, read_picks};
use super::record::{write_report, write_stop};
use crate::run_failure::{BROKEN_CASE, RunFailure};
use crate::work::written;
use lsp_frames::{MemSink, MemSource};
use method_steps::Table;
use program_edge::Failure;
use rpc_peer::{Limits, Schedule, play_to, serve};
use std::alloc::Global;
use std::io::{ErrorKind, Read, Write};
use std::sync::Wait;
use std::thread::Threads;

/// Runs each case of the input. Nothing is run before the input has ended.
pub fn run_cases<R, I, W>(
    rt: &R,
    table: &Table,
    input: &mut I,
    output: &mut W,
) -> Result<(), RunFailure>
where
    R: Threads + Wait + Sync + AllocGlobal,
    I: Read,
    W: Write,
{
    let mut cases = Vec::new(rt.alloc());
    let told = match input.read_to_end(&mut cases) {
        Ok(_) => run_each(rt, table, cases.as_slice(), output),
        Err(error) if error.kind() == ErrorKind::OutOfMemory => {
            Err(RunFailure::Program(Failure::Memory))
        }
        Err(_) => Err(RunFailure::Program(Failure::Read)),
    };
    drop(cases);
    told
}

/// Runs each case of these bytes.
fn run_each<R, W>(rt: &R, table: &Table, cases: &[u8], output: &mut W) -> Result<(), RunFailure>
where
    R: Threads + Wait + Sync + AllocGlobal,
    W: Write,
{
    let mut rest = cases;
    // (a case has a byte at least)
    for _ in 0..cases.len() {
        if rest.is_empty() {
            break;
        }
        let (case, behind) = read_case(rest).ok_or(BROKEN_CASE)?;
        run_case(rt, table, case, output)?;
        rest = behind;
    }
    Ok(written(output.flush())?)
}

fn run_case<R, W>(rt: &R, table: &Table, case: Case<'_>, output: &mut W) -> Result<(), RunFailure>
where
    R: Threads + Wait + Sync + AllocGlobal,
    W: Write,
{
    let alloc = rt.alloc();
    let sizes = numbers(alloc, case.sizes)?;
    let pieces = pieces(alloc, sizes.as_slice(), case.stream);
    drop(sizes);
    let pieces = pieces?;
    match case.way {
        Way::Play { lazy, picks } => {
            let told = play_case(alloc, table, pieces.as_slice(), lazy, picks, output);
            drop(pieces);
            told
        }
        Way::Serve { workers } => Ok(serve_case(rt, table, pieces, workers, output)?),
    }
}

fn play_case<W: Write>(
    alloc: Global,
    table: &Table,
    pieces: &[Vec<u8>],
    lazy: bool,
    picks: &str,
    output: &mut W,
) -> Result<(), RunFailure> {
    let picks = read_picks(alloc, picks)?;
    let schedule = Schedule { lazy, picks };
    let sink = MemSink::new(alloc, None);
    let played = play_to(alloc, table, Limits::standard(), pieces, &schedule, sink);
    drop(schedule);
    Ok(match played {
        Ok((report, sink)) => write_report(output, report, sink.bytes())?,
        Err((fault, sink)) => write_stop(output, fault, sink.bytes())?,
    })
}

fn serve_case<R, W>(
    rt: &R,
    table: &Table,
    pieces: Vec<Vec<u8>>,
    workers: u32,
    output: &mut W,
) -> Result<(), Failure>
where
    R: Threads + Wait + Sync + AllocGlobal,
    W: Write,
{
    let alloc = rt.alloc();
    let (source, sink) = (MemSource::new(pieces, None), MemSink::new(alloc, None));
    match serve(rt, alloc, table, Limits::standard(), workers, source, sink) {
        Ok((report, sink)) => write_report(output, report, sink.bytes()),
        Err((fault, sink)) => write_stop(output, fault, sink.bytes()),
    }
}
