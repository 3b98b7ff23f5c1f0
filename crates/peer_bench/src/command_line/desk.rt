//! The command that finishes requests at the desk.
use crate::work::{Finishing, Task};
use program_edge::{ChoiceOption, CommandOption, NumberOption, ProgramCommand, Words};

/// The words' units, through the desk in their order.
pub fn desk_task(words: &Words<'_>) -> Task {
    Task::Desk {
        finishing: finishing(words),
        units: words.number(&UNITS),
    }
}

fn finishing(words: &Words<'_>) -> Finishing {
    match words.choice(&ORDER) {
        "windows" => Finishing::Windows,
        "cancels" => Finishing::Cancels,
        "stream" => Finishing::Stream,
        "behind" => Finishing::Behind,
        "batch" => Finishing::Batch,
        _ => Finishing::Straight,
    }
}

pub const DESK: ProgramCommand = ProgramCommand {
    name: "desk",
    about: "Open units of one call each, finish them in an order, and release their answers",
    options: &[CommandOption::Choice(ORDER), CommandOption::Number(UNITS)],
};

const ORDER: ChoiceOption = ChoiceOption {
    name: "order",
    value_name: "O",
    help: "straight: as they came; windows: in reverse within each 1000; cancels: each once it is cancelled; stream: each before the next comes; behind: so too, behind an open notification; batch: as they came, all in one batch",
    words: &[
        "straight", "windows", "cancels", "stream", "behind", "batch",
    ],
    usual: "straight",
};

const UNITS: NumberOption = NumberOption {
    name: "units",
    value_name: "N",
    help: "How many units there are, 0 to 1000000",
    least: 0,
    greatest: 1_000_000,
    usual: "100000",
};
