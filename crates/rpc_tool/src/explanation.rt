//! The lines that `--explain` adds.
use crate::command_line::{LimitOptions, Subcommand};
use crate::refused_table::tell_refused;
use crate::run_failure::RunFailure;
use crate::run_notes::{InputNotes, RunNotes};
use crate::watch::{FrameWatch, LineWatch, Watch};
use lsp_frames::LARGEST_CONTENT;
use program_edge::{Failure, Shown};
use rpc_peer::Close;
use std::alloc::Global;
use std::io;
use std::io::Write;

/// What was asked for, as far as an explanation speaks of it.
#[derive(Clone, Copy)]
pub struct Asked<'a> {
    /// Whether there is to be one.
    pub explain: bool,
    /// The file of the table.
    table: Option<&'a str>,
    /// How many threads run methods, where it is a server.
    workers: Option<u32>,
    /// Whether each line of the input is a content.
    lines: bool,
    /// How much of an input is taken, where there is one.
    limits: Option<LimitOptions>,
}

impl<'a> Asked<'a> {
    /// What a command asks for.
    pub fn of(subcommand: Subcommand<'a>) -> Asked<'a> {
        match subcommand {
            Subcommand::Serve(options) => Asked {
                explain: options.explain,
                table: options.table,
                workers: Some(options.workers),
                lines: options.lines,
                limits: Some(options.limits),
            },
            Subcommand::Play(options) => Asked {
                explain: options.explain,
                table: options.table,
                workers: None,
                lines: options.lines,
                limits: Some(options.limits),
            },
            Subcommand::Check(options) => Asked {
                explain: options.explain,
                table: Some(options.table),
                workers: None,
                lines: false,
                limits: None,
            },
            Subcommand::Judge(_) => Asked {
                explain: false,
                table: None,
                workers: None,
                lines: false,
                limits: None,
            },
        }
    }

    /// What follows the input, where its end is to be explained.
    pub fn watch(&self, alloc: Global) -> Option<Watch> {
        let content = match self.limits {
            Some(limits) if self.explain => limits.content.min(LARGEST_CONTENT),
            _ => return None,
        };
        Some(if self.lines {
            Watch::Lines(LineWatch::new(content))
        } else {
            Watch::Frames(FrameWatch::new(alloc, content))
        })
    }
}

/// Tells what failed, where and why, as far as it is known. Each line has a word, a colon and a text.
pub fn explain<E: Write>(
    alloc: Global,
    asked: Asked<'_>,
    notes: RunNotes<'_>,
    outcome: Result<Close, RunFailure>,
    errors: &mut E,
) -> io::Result<()> {
    match outcome {
        Ok(Close::Clean) => Ok(()),
        Ok(Close::Frame(_)) => tell_place(notes, errors),
        Ok(Close::Full) => tell_limit(asked, errors),
        Ok(Close::Read) => tell_input(notes.input, errors),
        Err(RunFailure::Program(failure)) => tell_failure(asked, notes, failure, errors),
        Err(RunFailure::UnreadableTable) => {
            tell_file(asked, errors)?;
            tell_read_cause(notes.table.failure, errors)
        }
        Err(RunFailure::RefusedTable { .. }) => {
            tell_file(asked, errors)?;
            match &notes.table.refused {
                Some(refused) => tell_refused(alloc, refused, errors),
                None => Ok(()),
            }
        }
        // (there is no explanation of a recording)
        Err(RunFailure::NoRecording { .. } | RunFailure::Broken { .. }) => Ok(()),
    }
}

fn tell_limit<E: Write>(asked: Asked<'_>, errors: &mut E) -> io::Result<()> {
    match asked.limits {
        Some(limits) => writeln!(errors, "  limit: {} calls", limits.calls),
        None => Ok(()),
    }
}

fn tell_failure<E: Write>(
    asked: Asked<'_>,
    notes: RunNotes<'_>,
    failure: Failure,
    errors: &mut E,
) -> io::Result<()> {
    match failure {
        Failure::Memory => tell_missing(asked, notes, errors),
        Failure::Read => tell_input(notes.input, errors),
        Failure::Write => tell_output(notes, errors),
        Failure::Long => writeln!(errors, "  limit: 16777216 bytes a line; frames have none"),
        Failure::Words | Failure::Thread | Failure::Clock => Ok(()),
    }
}

/// Tells what could not be made. A server makes its threads before it reads.
fn tell_missing<E: Write>(asked: Asked<'_>, notes: RunNotes<'_>, errors: &mut E) -> io::Result<()> {
    if !notes.table.is_there {
        tell_file(asked, errors)?;
        return writeln!(errors, "  missing: memory for the table");
    }
    match asked.workers {
        Some(workers) if !notes.input.was_read => writeln!(
            errors,
            "  missing: memory, or one of {workers} threads for methods and one for the input"
        ),
        _ => writeln!(
            errors,
            "  missing: memory for the input and what comes of it"
        ),
    }
}

fn tell_file<E: Write>(asked: Asked<'_>, errors: &mut E) -> io::Result<()> {
    match asked.table {
        Some(text) => writeln!(errors, "  file: {}", Shown { text }),
        None => Ok(()),
    }
}

fn tell_input<E: Write>(input: &InputNotes, errors: &mut E) -> io::Result<()> {
    writeln!(errors, "  stream: standard input")?;
    tell_read_cause(input.failure, errors)
}

/// Tells why a stream wasn't read to its end.
fn tell_read_cause<E: Write>(failure: Option<io::Error>, errors: &mut E) -> io::Result<()> {
    match failure {
        Some(error) => writeln!(errors, "  cause: {error}"),
        None => writeln!(errors, "  cause: it didn't end within 1000000 reads"),
    }
}

fn tell_output<E: Write>(notes: RunNotes<'_>, errors: &mut E) -> io::Result<()> {
    writeln!(errors, "  stream: standard output")?;
    match notes.output {
        Some(error) => writeln!(errors, "  cause: {error}"),
        None => writeln!(errors, "  cause: it took no byte"),
    }
}

/// Tells where the input is at fault.
fn tell_place<E: Write>(notes: RunNotes<'_>, errors: &mut E) -> io::Result<()> {
    match &notes.input.watch {
        Some(Watch::Frames(watch)) => match watch.place() {
            Some((before, count)) => {
                let first = before.saturating_add(1);
                writeln!(errors, "  frame: from byte {first}")?;
                writeln!(errors, "  fault: at byte {count}")
            }
            None => Ok(()),
        },
        Some(Watch::Lines(watch)) => match watch.place() {
            Some(line) => writeln!(errors, "  line: {line}"),
            None => Ok(()),
        },
        None => Ok(()),
    }
}
