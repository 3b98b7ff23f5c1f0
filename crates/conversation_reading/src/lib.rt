//! What a content of a conversation is, read strictly by JSON-RPC 2.0: of each entry all that makes it a message, and each
//! rule by which it isn't one.
#![tactic(auto)]

mod entry;
mod first;
mod front;
mod huge;
mod law;
mod lookup;
mod nesting;
mod number;
mod read;
mod reading;
mod target;
mod whole;

pub use entry::{Entry, Faults, Kind, There, WrittenId};
pub use first::First;
pub use law::{
    broken_entries, fractions, members, members_twice, messages, messages_break_no_rule,
    whole_numbers,
};
pub use number::is_whole;
pub use reading::{MOST_DEPTH_IN, MOST_ENTRIES_IN, Reading, StrictReader, limits_in_figures};
pub use whole::{Whole, whole_of};
