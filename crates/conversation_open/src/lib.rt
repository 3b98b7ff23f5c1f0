//! Contents on which something is owed, the oldest first, and an index by which those that an answer may be for are found.
#![tactic(auto)]

mod among;
mod in_window;
mod index;
mod marked_contents;
mod marking;
mod open_contents;

pub use among::Among;
pub use open_contents::OpenContents;
