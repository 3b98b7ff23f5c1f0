//! The command `serve`: the input is served as it comes, by several threads.
use crate::command_line::ServeOptions;
use crate::end_telling::outcome_of;
use crate::limits::limits_of;
use crate::run_failure::RunFailure;
use crate::run_notes::TableNotes;
use crate::table_file::table_in;
use lsp_frames::{StdSink, StdSource};
use rpc_peer::{Close, EndHook, Framing, serve_telling};
use std::io::{Read, Write};
use std::rt::Files;
use std::sync::Wait;
use std::thread::Threads;

/// Serves the input until it ends, and gives how it ended, which the hook is told before. The table's file is read and judged
/// first, of which the hook isn't told.
pub fn serve_streams<R, I, W, H>(
    rt: &R,
    options: ServeOptions<'_>,
    input: I,
    output: &mut W,
    notes: &mut TableNotes,
    hook: &H,
) -> Result<Close, RunFailure>
where
    R: Files + AllocGlobal + Threads + Wait + Sync,
    I: Read + Drop + Send,
    W: Write,
    H: EndHook,
{
    let table = table_in(rt, options.table, notes)?;
    let limits = limits_of(options.limits)?;
    let framing = if options.lines {
        Framing::Lines
    } else {
        Framing::Frames
    };
    let served = serve_telling(
        rt,
        rt.alloc(),
        framing,
        &table,
        limits,
        options.workers,
        hook,
        StdSource::new(input),
        StdSink::new(output),
    );
    outcome_of(match served {
        Ok((report, _)) => Ok(report.end),
        Err((fault, _)) => Err(fault),
    })
}
