//! What stands open after a history of a connection, as plain lists, and what each happening changes of it. There is no code
//! here that runs: definitions, and laws that tie them to the history's.
#![tactic(auto)]

mod own_calls;
mod tallies;
mod their_calls;
mod what_is_owed;

pub use own_calls::{
    a_call_of_ours_is_found_by_its_key, calls_that_wait_are_told_at_the_end,
    no_call_of_ours_waits_at_first, our_calls_follow_the_history,
};
pub use tallies::{
    a_unit_adds_its_counts, an_answer_adds_what_it_lets_out, nothing_else_is_counted,
    nothing_is_counted_at_first, open_calls_are_counted,
};
pub use their_calls::{
    a_call_is_found_by_its_number, a_unit_tells_what_its_entries_do, no_call_is_open_at_first,
    their_calls_follow_the_history,
};
pub use what_is_owed::{
    a_unit_is_owed_its_answers, an_answer_stands_in_its_slot, nothing_else_changes_what_is_owed,
    nothing_is_owed_at_first,
};
