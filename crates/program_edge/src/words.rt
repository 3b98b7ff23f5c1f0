//! The words of a command line that a program understood.
use crate::options::{ChoiceOption, FlagOption, NumberOption, TextOption};
use clap::ArgMatches;

/// What the words of a command line say, by the program's description: which command they choose, and its options. Where
/// they choose none, the options are the program's own.
pub struct Words<'a> {
    command: Option<&'a str>,
    options: ArgMatches<'a>,
}

// Written out, so that whoever drops one makes a call, and knows nothing of what is in it.
impl Drop for Words<'_> {
    fn drop(self) {
        let Words {
            command: _,
            options,
        } = self;
        drop(options);
    }
}

impl<'a> Words<'a> {
    /// What clap found in the words.
    pub(crate) fn of_matches(mut matches: ArgMatches<'a>) -> Words<'a> {
        match matches.remove_subcommand() {
            Some((name, options)) => Words {
                command: Some(name),
                options,
            },
            None => Words {
                command: None,
                options: matches,
            },
        }
    }

    /// The name of the command that they choose.
    pub fn command(&self) -> Option<&'a str> {
        self.command
    }

    /// Whether they have this option.
    pub fn flag(&self, option: &FlagOption) -> bool {
        self.options.get_flag(option.name)
    }

    /// The text of this option, where they have it.
    pub fn text(&self, option: &TextOption) -> Option<&'a str> {
        self.options.get_str(option.name)
    }

    /// The number of this option; its usual one where they don't have it.
    pub fn number(&self, option: &NumberOption) -> u32 {
        let number = self.options.get_one::<u32>(option.name);
        number.unwrap_or(option.least)
    }

    /// The word of this option; its usual one where they don't have it.
    pub fn choice(&self, option: &ChoiceOption) -> &'a str {
        self.options.get_str(option.name).unwrap_or(option.usual)
    }
}
