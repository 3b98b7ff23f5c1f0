//! Programs, commands and options in clap's own form. No other file makes any.
use crate::options::{
    ChoiceOption, CommandOption, FlagGroup, FlagOption, NumberOption, TextOption,
};
use crate::program::{Program, ProgramCommand};
use clap::builder::ValueParser;
use clap::{Arg, ArgAction, Command};
use std::alloc::{AllocError, Global};

/// The program, with its commands and options.
pub fn command_of<'a>(alloc: Global, program: &Program) -> Result<Command<'a>, AllocError> {
    let command = Command::new(alloc, program.name)
        .version(program.version)
        .about(program.about)
        .after_help(program.notes)
        .subcommand_required(program.needs_command)
        .arg_required_else_help(program.needs_command);
    let command = with_commands(alloc, command, program.commands)?;
    with_options(alloc, command, program.options)
}

fn with_commands<'a>(
    alloc: Global,
    mut command: Command<'a>,
    commands: &[ProgramCommand],
) -> Result<Command<'a>, AllocError> {
    for described in commands {
        match subcommand_of(alloc, described) {
            Ok(subcommand) => command = command.subcommand(subcommand)?,
            Err(error) => {
                drop(command);
                return Err(error);
            }
        }
    }
    Ok(command)
}

fn subcommand_of<'a>(alloc: Global, described: &ProgramCommand) -> Result<Command<'a>, AllocError> {
    let command = Command::new(alloc, described.name).about(described.about);
    with_options(alloc, command, described.options)
}

fn with_options<'a>(
    alloc: Global,
    mut command: Command<'a>,
    options: &[CommandOption],
) -> Result<Command<'a>, AllocError> {
    for option in options {
        command = with_option(alloc, command, option)?;
    }
    Ok(command)
}

fn with_option<'a>(
    alloc: Global,
    command: Command<'a>,
    option: &CommandOption,
) -> Result<Command<'a>, AllocError> {
    match option {
        CommandOption::Flag(flag) => command.arg(flag_of(alloc, flag)),
        CommandOption::OneFlag(group) => with_flags(alloc, command, group),
        CommandOption::Text(text) => command.arg(text_of(alloc, text)),
        CommandOption::Number(number) => command.arg(number_of(alloc, number)),
        CommandOption::Choice(choice) => command.arg(choice_of(alloc, choice)),
    }
}

fn with_flags<'a>(
    alloc: Global,
    mut command: Command<'a>,
    group: &FlagGroup,
) -> Result<Command<'a>, AllocError> {
    for flag in group.flags {
        match flag_of(alloc, flag).group(group.name) {
            Ok(flag) => command = command.arg(flag)?,
            Err(error) => {
                drop(command);
                return Err(error);
            }
        }
    }
    Ok(command)
}

fn flag_of<'a>(alloc: Global, option: &FlagOption) -> Arg<'a> {
    Arg::new(alloc, option.name)
        .long(option.name)
        .help(option.help)
        .action(ArgAction::SetTrue)
}

fn text_of<'a>(alloc: Global, option: &TextOption) -> Arg<'a> {
    Arg::new(alloc, option.name)
        .long(option.name)
        .value_name(option.value_name)
        .help(option.help)
        .action(ArgAction::Set)
        .required(option.is_required)
}

fn number_of<'a>(alloc: Global, option: &NumberOption) -> Arg<'a> {
    let (least, greatest) = (i64::from(option.least), i64::from(option.greatest));
    Arg::new(alloc, option.name)
        .long(option.name)
        .value_name(option.value_name)
        .help(option.help)
        .value_parser(ValueParser::signed(least, greatest))
        .default_value(option.usual)
}

fn choice_of<'a>(alloc: Global, option: &ChoiceOption) -> Arg<'a> {
    let choice = Arg::new(alloc, option.name)
        .long(option.name)
        .value_name(option.value_name)
        .help(option.help)
        .value_parser(ValueParser::Names(option.words));
    if option.usual.is_empty() {
        choice
    } else {
        choice.default_value(option.usual)
    }
}
