//! A program and its commands, as data.
use crate::building::command_of;
use crate::options::CommandOption;
use crate::refusal::Refusal;
use crate::shown::{Shown, has_control};
use crate::words::Words;
use clap::Error;
use std::alloc::{AllocError, Global};

/// One of the commands of a program.
#[derive(Clone, Copy)]
pub struct ProgramCommand {
    pub name: &'static str,
    /// What help says of it.
    pub about: &'static str,
    /// Its options, in the order of its help.
    pub options: &'static [CommandOption],
}

/// A program, with all that its command line may say.
#[derive(Clone, Copy)]
pub struct Program {
    pub name: &'static str,
    pub version: &'static str,
    /// What help says of it.
    pub about: &'static str,
    /// Its commands, in the order of its help.
    pub commands: &'static [ProgramCommand],
    /// Whether a command line without a command is refused.
    pub needs_command: bool,
    /// The options that stand before a command, or without one, in the order of its help.
    pub options: &'static [CommandOption],
    /// What help says after all of that.
    pub notes: &'static str,
}

impl Program {
    /// Reads the words of a command line, of which the first is the program's name.
    ///
    /// # Errors
    /// A `Refusal` has the text for the user: help and the version too, whose status is 0. It shows words with their control
    /// characters escaped.
    pub fn read<'a>(&self, alloc: Global, words: &'a [String]) -> Result<Words<'a>, Refusal> {
        let command = command_of(alloc, self)?;
        match command.try_get_matches_from(words) {
            Ok(matches) => Ok(Words::of_matches(matches)),
            Err(error) => Err(self.refusal_of(alloc, words, error)),
        }
    }

    /// Why the words are refused.
    fn refusal_of(&self, alloc: Global, words: &[String], error: Error) -> Refusal {
        if !have_control(words) {
            return Refusal::from(error);
        }
        match self.read_shown(alloc, words) {
            Err(refusal) => refusal,
            Ok(()) => Refusal::from(error),
        }
    }

    /// Reads the words as they are shown. No name of a command or an option and no number has a control character, so where words
    /// with one are refused, these are refused for the same cause.
    fn read_shown(&self, alloc: Global, words: &[String]) -> Result<(), Refusal> {
        let shown = shown_words(alloc, words)?;
        let command = command_of(alloc, self)?;
        let _matches = command.try_get_matches_from(shown.as_slice())?;
        Ok(())
    }
}

fn have_control(words: &[String]) -> bool {
    words.iter().any(|word| has_control(word.as_str()))
}

fn shown_words(alloc: Global, words: &[String]) -> Result<Vec<String>, AllocError> {
    let mut shown = Vec::new(alloc);
    for word in words {
        let text = word.as_str();
        shown.push(Shown { text }.to_string(alloc)?)?;
    }
    Ok(shown)
}
