//! The command that plays and serves streams.
use program_edge::{CommandOption, ProgramCommand, TextOption, Words};

/// The file of the table of methods, where the words name one.
pub fn table_of<'a>(words: &Words<'a>) -> Option<&'a str> {
    words.text(&TABLE)
}

pub const CASES: ProgramCommand = ProgramCommand {
    name: "cases",
    about: "Play and serve the streams on standard input, each as the line before it says: \
            'play eager|lazy first|last|PLACES SIZES LENGTH' or 'serve WORKERS SIZES LENGTH'",
    options: &[CommandOption::Text(TABLE)],
};

const TABLE: TextOption = TextOption {
    name: "table",
    value_name: "F",
    help: "The file of the table of methods; without it there are no methods",
    is_required: false,
};
