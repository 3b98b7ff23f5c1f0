//! The command that serves a client in lockstep: how many rounds, by what, and with how much patience.
use crate::lockstep::{Rounds, Server};
use program_edge::{ChoiceOption, CommandOption, NumberOption, ProgramCommand, Words};
use rpc_peer::Crew;

/// The rounds that the words ask for.
pub fn rounds_of(words: &Words<'_>) -> Rounds {
    Rounds {
        count: words.number(&ROUNDS),
        ahead: words.number(&AHEAD),
        server: server(words),
        crew: Crew {
            workers: words.number(&WORKERS),
            yields: words.number(&YIELDS),
        },
    }
}

fn server(words: &Words<'_>) -> Server {
    match words.choice(&SERVER) {
        "serve" => Server::Serve,
        "serve_lines" => Server::ServeLines,
        _ => Server::ServeBy,
    }
}

pub const LOCKSTEP: ProgramCommand = ProgramCommand {
    name: "lockstep",
    about: "Serve a client that waits for each answer before its next request",
    options: &[
        CommandOption::Number(ROUNDS),
        CommandOption::Number(AHEAD),
        CommandOption::Choice(SERVER),
        CommandOption::Number(WORKERS),
        CommandOption::Number(YIELDS),
    ],
};

const ROUNDS: NumberOption = NumberOption {
    name: "rounds",
    value_name: "N",
    help: "How many requests are sent, each once the one before it is answered",
    least: 1,
    greatest: 1_000_000,
    usual: "1000",
};

const AHEAD: NumberOption = NumberOption {
    name: "ahead",
    value_name: "N",
    help: "How many requests may be unanswered as the next is sent",
    least: 0,
    greatest: 1_000_000,
    usual: "0",
};

const SERVER: ChoiceOption = ChoiceOption {
    name: "server",
    value_name: "S",
    help: "What of rpc_peer serves: with serve_by threads have the patience of --yields, else the usual one",
    words: &["serve_by", "serve", "serve_lines"],
    usual: "serve_by",
};

const WORKERS: NumberOption = NumberOption {
    name: "workers",
    value_name: "W",
    help: "How many workers the server has, 1 to 64",
    least: 1,
    greatest: 64,
    usual: "2",
};

const YIELDS: NumberOption = NumberOption {
    name: "yields",
    value_name: "Y",
    help: "How often a thread that finds nothing to do yields before it sleeps",
    least: 0,
    greatest: u32::MAX,
    usual: "0",
};
