//! The program over any reader and any two writers.
use crate::command_line::{Subcommand, read};
use crate::end_telling::{EndTeller, status_of, tell_end};
use crate::explanation::{Asked, explain};
use crate::judging::judge;
use crate::noted::{NotedReader, NotedWriter};
use crate::playing::play;
use crate::run_notes::{RunNotes, TableNotes};
use crate::serving::serve_streams;
use crate::table_file::check;
use program_edge::answer_words;
use std::io::{Read, Write};
use std::rt::Files;
use std::sync::Wait;
use std::thread::Threads;

/// Does what the words ask for, of which the first is the program's name, and gives the exit status:
/// 0, or 1 where the input did not end cleanly, a recording breaks a rule that must be kept or something failed, or 2 where
/// the words, the table or a recording are refused. The words are judged first, then the table, and then the input is read.
pub fn run<R, I, W, E>(rt: &R, words: &[String], input: I, output: &mut W, errors: &mut E) -> u8
where
    R: Files + AllocGlobal + Threads + Wait + Sync,
    I: Read + Drop + Send,
    W: Write,
    E: Write,
{
    let alloc = rt.alloc();
    let subcommand = match read(alloc, words) {
        Ok(subcommand) => subcommand,
        Err(refusal) => return answer_words(&refusal, output, errors),
    };
    let asked = Asked::of(subcommand);
    let mut input = NotedReader::new(input, asked.watch(alloc));
    let mut output = NotedWriter::new(output);
    let mut table = TableNotes::new();
    let mut is_told = false;
    let outcome = match subcommand {
        Subcommand::Serve(options) => {
            let teller = EndTeller::new(errors);
            let served = serve_streams(rt, options, &mut input, &mut output, &mut table, &teller);
            is_told = teller.has_told();
            served
        }
        Subcommand::Play(options) => play(rt, options, &mut input, &mut output, &mut table),
        Subcommand::Check(options) => check(rt, options, &mut output, &mut table),
        Subcommand::Judge(options) => judge(alloc, options, &mut input, &mut output),
    };
    if !is_told {
        tell_end(outcome, errors);
    }
    if asked.explain {
        let notes = RunNotes {
            table: &table,
            input: &input.notes,
            output: output.failure,
        };
        let _ = explain(alloc, asked, notes, outcome, errors);
    }
    status_of(outcome)
}
