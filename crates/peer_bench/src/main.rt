//! The program `peer_bench`: work of one kind alone, at size. The libraries that have no program of their own, a server whose
//! client waits for each answer, and streams, many in one process.
#![tactic(auto)]

mod cases;
mod command_line;
mod little;
mod lockstep;
mod program;
mod run_failure;
mod table_file;
mod work;

use program_edge::{read_words, tell_end};
use std::process::ExitCode;

/// Runs the program on the process's arguments and standard streams.
fn main(rt: HostRuntime) -> ExitCode {
    let status = match read_words(&rt) {
        Ok(words) => program::run(
            &rt,
            words.as_slice(),
            rt.stdin(),
            &mut rt.stdout(),
            &mut rt.stderr(),
        ),
        Err(failure) => tell_end(Err(failure), &mut rt.stderr()),
    };
    ExitCode::from(status)
}
