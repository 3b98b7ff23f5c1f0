//! The command `judge`: a recording of a conversation is judged as it is read.
use crate::command_line::JudgeOptions;
use crate::run_failure::RunFailure;
use program_edge::Failure;
use recorded_talks::{TalkFailure, TalkOptions, judge_talk};
use rpc_peer::Close;
use std::alloc::Global;
use std::io::{Read, Write};

/// Judges the input, a recording. It ends cleanly where no rule is broken that must be kept.
pub fn judge<I: Read, W: Write>(
    alloc: Global,
    options: JudgeOptions<'_>,
    input: &mut I,
    output: &mut W,
) -> Result<Close, RunFailure> {
    let options = TalkOptions::named(options.rules, options.framing);
    match judge_talk(alloc, options, input, output) {
        Ok(counts) if counts.has_must() => Err(RunFailure::Broken { must: counts.must }),
        Ok(_) => Ok(Close::Clean),
        Err(failure) => Err(run_failure_of(failure)),
    }
}

fn run_failure_of(failure: TalkFailure) -> RunFailure {
    match failure {
        TalkFailure::Memory => RunFailure::Program(Failure::Memory),
        TalkFailure::Read => RunFailure::Program(Failure::Read),
        TalkFailure::Write => RunFailure::Program(Failure::Write),
        TalkFailure::NoRecording(line) => RunFailure::NoRecording { line },
    }
}
