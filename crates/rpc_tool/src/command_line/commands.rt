//! The commands of `rpc_tool`, with the options of each.
use super::notes::NOTES;
use program_edge::{
    ChoiceOption, CommandOption, FlagGroup, FlagOption, NumberOption, Program, ProgramCommand,
    TextOption,
};

/// What the program is, and command lines that run as they stand at the top of a clone.
const ABOUT: &str =
    r#"A JSON-RPC 2.0 peer over standard input and output, with methods from a table, and a judge of recordings

Examples:
  echo '{"jsonrpc":"2.0","method":"sum","params":[2,3],"id":1}' |
    bin/rpc_tool play --lines --table examples/toolbox.toml
  bin/rpc_tool check --explain --table examples/toolbox.toml
  bin/rpc_tool judge < examples/judge/spelling_eglot.record"#;

/// The program, with all of its commands.
pub static PROGRAM: Program = Program {
    name: "rpc_tool",
    version: "0.3.0",
    about: ABOUT,
    commands: &[SERVE, PLAY, CHECK, JUDGE],
    needs_command: true,
    options: &[],
    notes: NOTES,
};

const SERVE: ProgramCommand = ProgramCommand {
    name: "serve",
    about: "Serve standard input, and write requests and responses as soon as they are due",
    options: &[
        CommandOption::Text(TABLE),
        CommandOption::Number(WORKERS),
        CommandOption::Flag(LINES),
        CommandOption::Number(CONTENT),
        CommandOption::Number(CALLS),
        CommandOption::Flag(EXPLAIN),
    ],
};

const PLAY: ProgramCommand = ProgramCommand {
    name: "play",
    about: "Read all of standard input, and write what a peer with these methods sends and answers",
    options: &[
        CommandOption::Text(TABLE),
        CommandOption::Flag(LAZY),
        CommandOption::Flag(LAST),
        CommandOption::Number(PIECE),
        CommandOption::Flag(LINES),
        CommandOption::Number(CONTENT),
        CommandOption::Number(CALLS),
        CommandOption::Flag(EXPLAIN),
    ],
};

const CHECK: ProgramCommand = ProgramCommand {
    name: "check",
    about: "Check a table of methods, and say how many methods it has",
    options: &[
        CommandOption::Text(JUDGED_TABLE),
        CommandOption::Flag(EXPLAIN_TABLE),
    ],
};

const JUDGE: ProgramCommand = ProgramCommand {
    name: "judge",
    about: "Judge a recording of a conversation on standard input, and say which side broke which rule",
    options: &[
        CommandOption::Choice(RULES),
        CommandOption::OneFlag(RECORDED_FRAMING),
    ],
};

pub const TABLE: TextOption = TextOption {
    name: "table",
    value_name: "F",
    help: "The file of the table of methods; without it there are no methods",
    is_required: false,
};

/// The table that `check` judges.
pub const JUDGED_TABLE: TextOption = TextOption {
    name: "table",
    value_name: "F",
    help: "The file of the table",
    is_required: true,
};

pub const WORKERS: NumberOption = NumberOption {
    name: "workers",
    value_name: "N",
    help: "Run methods by N threads, 1 to 64",
    least: 1,
    greatest: 64,
    usual: "4",
};

pub const LAZY: FlagOption = FlagOption {
    name: "lazy",
    help: "Take all of the input before the first method runs; what it cancels then never runs",
};

pub const LAST: FlagOption = FlagOption {
    name: "last",
    help: "If several methods can go on, go on with the last one, and not with the first",
};

pub const PIECE: NumberOption = NumberOption {
    name: "piece",
    value_name: "N",
    help: "Cut the input into pieces of N bytes, 1 to 65536; what is written stays the same",
    least: 1,
    greatest: 65_536,
    usual: "65536",
};

pub const LINES: FlagOption = FlagOption {
    name: "lines",
    help: "Read and write one message per line, in place of LSP's frames; a CR is part of its line",
};

/// The limit of a content.
pub const CONTENT: NumberOption = NumberOption {
    name: "content",
    value_name: "BYTES",
    help: "End the input at a message of more than BYTES bytes, 1 to 16777216",
    least: 1,
    greatest: 16_777_216,
    usual: "16777216",
};

/// The limit of the number of calls.
pub const CALLS: NumberOption = NumberOption {
    name: "calls",
    value_name: "N",
    help: "End the input at the message that exceeds N requests and notifications, 1 to 1000000",
    least: 1,
    greatest: 1_000_000,
    usual: "1000000",
};

pub const EXPLAIN: FlagOption = FlagOption {
    name: "explain",
    help: "Add lines to the one on standard error that says why a run ended: what failed, where and why",
};

/// Whose rules `judge` holds a recording against.
pub const RULES: ChoiceOption = ChoiceOption {
    name: "rules",
    value_name: "NAME",
    help: "The rules to judge by; by default those that the recording names",
    words: &[
        "jsonrpc",
        "lsp",
        "mcp",
        "mcp:2025-11-25",
        "mcp:2025-06-18",
        "mcp:2025-03-26",
        "mcp:2024-11-05",
    ],
    usual: "",
};

/// How the contents of a recording are framed, where it isn't as the recording says.
const RECORDED_FRAMING: FlagGroup = FlagGroup {
    name: "framing",
    flags: &[RECORDED_FRAMES, RECORDED_LINES, RECORDED_CONTENTS],
};

pub const RECORDED_FRAMES: FlagOption = FlagOption {
    name: "frames",
    help: "Each message that was recorded has a header, whatever the recording says",
};

pub const RECORDED_LINES: FlagOption = FlagOption {
    name: "lines",
    help: "Each message that was recorded is a line",
};

pub const RECORDED_CONTENTS: FlagOption = FlagOption {
    name: "contents",
    help: "Each line of the recording has a message",
};

/// What `check` explains.
pub const EXPLAIN_TABLE: FlagOption = FlagOption {
    name: "explain",
    help: "Draw what the table does, or add lines to the one on standard error: what is at fault, where and why",
};
