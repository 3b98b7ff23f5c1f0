//! Values of texts, read in one pass without a look at their tokens. What is rare, as a number that is too large for a
//! float, and what is no JSON is left to a reader of tokens.
#![tactic(auto)]

mod escapes;
mod numbers;
mod passed;
mod passing;
mod strings;
mod unread;
mod values;

pub use passed::pass_container;
pub use passing::{is_over, next_byte, pass};
pub use strings::{read_name, read_string};
pub use unread::Unread;
pub use values::read_value;
