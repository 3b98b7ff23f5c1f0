//! The program `rpc_tool`: a JSON-RPC 2.0 peer on the standard streams.
#![tactic(auto)]

mod command_line;
mod drawing;
mod end_telling;
mod explanation;
mod judging;
mod limits;
mod noted;
mod output;
mod picture;
mod pieces;
mod playing;
mod program;
mod reading;
mod refused_table;
mod run_failure;
mod run_notes;
mod serving;
mod table_fields;
mod table_file;
mod watch;

use program_edge::{read_words, tell_end};
use std::process::ExitCode;

/// Runs the program on the process's arguments and standard streams.
fn main(rt: HostRuntime) -> ExitCode {
    let status = match read_words(&rt) {
        Ok(words) => program::run(
            &rt,
            words.as_slice(),
            rt.stdin(),
            &mut rt.stdout(),
            &mut rt.stderr(),
        ),
        Err(failure) => tell_end(Err(failure), &mut rt.stderr()),
    };
    ExitCode::from(status)
}
