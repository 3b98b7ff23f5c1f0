//! The command that hands jobs out to workers.
use crate::work::{Crew, Task};
use program_edge::{CommandOption, NumberOption, ProgramCommand, Words};

/// The words' jobs, through job slots.
pub fn slots_task(words: &Words<'_>) -> Task {
    Task::Slots {
        crew: Crew::new(words.number(&WORKERS), words.number(&ROOM)),
        jobs: words.number(&JOBS),
    }
}

pub const SLOTS: ProgramCommand = ProgramCommand {
    name: "slots",
    about: "Send jobs from one owner through job slots to its workers and back",
    options: &[
        CommandOption::Number(WORKERS),
        CommandOption::Number(JOBS),
        CommandOption::Number(ROOM),
    ],
};

const WORKERS: NumberOption = NumberOption {
    name: "workers",
    value_name: "W",
    help: "How many workers there are, 1 to 64",
    least: 1,
    greatest: 64,
    usual: "1",
};

const JOBS: NumberOption = NumberOption {
    name: "jobs",
    value_name: "N",
    help: "How many jobs there are, 0 to 1000000000",
    least: 0,
    greatest: 1_000_000_000,
    usual: "100000",
};

const ROOM: NumberOption = NumberOption {
    name: "room",
    value_name: "R",
    help: "How many jobs may be under way at a time, 1 to 128",
    least: 1,
    greatest: 128,
    usual: "64",
};
