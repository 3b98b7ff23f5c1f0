//! Laws of the judge's definitions, and of the two readings of contents side by side: the connection's, and the strict one
//! of the judge. No code stands on it.
#![tactic(auto)]

mod cuts;
mod said;
mod tied;
mod values;

pub use cuts::cutting_plays_no_part;
pub use said::{
    answers_have_their_codes, answers_have_their_ids, answers_read_as_messages,
    calls_have_their_keys, calls_read_as_messages, notifications_have_no_ids,
    notifications_read_as_messages, withdrawals_read_as_messages,
};
pub use tied::{entries_are_tied, unreadable_contents_are_tied};
pub use values::only_values_count;
