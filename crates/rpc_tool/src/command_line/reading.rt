//! The words of a command line, read.
use super::commands::{
    CALLS, CONTENT, EXPLAIN, EXPLAIN_TABLE, JUDGED_TABLE, LAST, LAZY, LINES, PIECE, PROGRAM,
    RECORDED_CONTENTS, RECORDED_FRAMES, RECORDED_LINES, RULES, TABLE, WORKERS,
};
use super::subcommand::{
    CheckOptions, JudgeOptions, LimitOptions, PlayOptions, ServeOptions, Subcommand,
};
use program_edge::{Refusal, Words};
use std::alloc::Global;

/// Reads the words of a command line, of which the first is the program's name.
///
/// # Errors
/// A `Refusal` has the text for the user: help and the version too, whose status is 0.
pub fn read<'a>(alloc: Global, words: &'a [String]) -> Result<Subcommand<'a>, Refusal> {
    let words = PROGRAM.read(alloc, words)?;
    Ok(match words.command() {
        Some("serve") => Subcommand::Serve(serve_options(&words)),
        Some("play") => Subcommand::Play(play_options(&words)),
        Some("judge") => Subcommand::Judge(judge_options(&words)),
        // Words without a command are refused, and `check` without its table.
        _ => Subcommand::Check(CheckOptions {
            table: words.text(&JUDGED_TABLE).unwrap_or(""),
            explain: words.flag(&EXPLAIN_TABLE),
        }),
    })
}

fn serve_options<'a>(words: &Words<'a>) -> ServeOptions<'a> {
    ServeOptions {
        table: words.text(&TABLE),
        workers: words.number(&WORKERS),
        lines: words.flag(&LINES),
        limits: limit_options(words),
        explain: words.flag(&EXPLAIN),
    }
}

fn play_options<'a>(words: &Words<'a>) -> PlayOptions<'a> {
    PlayOptions {
        table: words.text(&TABLE),
        lazy: words.flag(&LAZY),
        last: words.flag(&LAST),
        piece: words.number(&PIECE),
        lines: words.flag(&LINES),
        limits: limit_options(words),
        explain: words.flag(&EXPLAIN),
    }
}

fn judge_options<'a>(words: &Words<'a>) -> JudgeOptions<'a> {
    JudgeOptions {
        rules: words.choice(&RULES),
        framing: recorded_framing(words),
    }
}

/// The name of the framing that they ask for, or an empty one. They have one at most.
fn recorded_framing(words: &Words<'_>) -> &'static str {
    if words.flag(&RECORDED_FRAMES) {
        RECORDED_FRAMES.name
    } else if words.flag(&RECORDED_LINES) {
        RECORDED_LINES.name
    } else if words.flag(&RECORDED_CONTENTS) {
        RECORDED_CONTENTS.name
    } else {
        ""
    }
}

fn limit_options(words: &Words<'_>) -> LimitOptions {
    LimitOptions {
        content: words.number(&CONTENT),
        calls: words.number(&CALLS),
    }
}
