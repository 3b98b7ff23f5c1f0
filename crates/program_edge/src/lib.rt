//! What every program does at its edge: it reads its words by a description of its command line, answers words that ask
//! for no work, and tells why a run failed. A description is plain data; `clap`, which reads words by it, is named here
//! alone.
#![tactic(auto)]

mod building;
mod failure;
mod options;
mod program;
mod reading;
mod refusal;
mod shown;
mod telling;
mod words;

pub use failure::Failure;
pub use options::{ChoiceOption, CommandOption, FlagGroup, FlagOption, NumberOption, TextOption};
pub use program::{Program, ProgramCommand};
pub use reading::read_words;
pub use refusal::Refusal;
pub use shown::Shown;
pub use telling::{answer_words, tell_end};
pub use words::Words;
