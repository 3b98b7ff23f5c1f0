//! The rules of a conversation, as definitions and laws: what was seen, what the sides owe one another, which answer is
//! for what, and what is found. There is no code here that runs.
#![tactic(auto)]

mod finding;
mod found;
mod law;
mod level;
mod protocol;
mod reply;
mod side;
mod worked;

pub use finding::{Finding, Limits, Message, Rule};
pub use found::{Fit, Found, Target, Unanswered};
pub use law::{
    amounts, answers_are_for_their_id, answers_of_a_batch, findings_only_grow, null_answers,
    owed_entries, single_answers,
};
pub use level::Level;
pub use protocol::Protocol;
pub use reply::{Refusals, Reply, Sight, Stray};
pub use side::Side;
pub use worked::{
    answers_in_arrays, answers_that_are_owed, answers_that_may_come, arrays_behind_a_cancel,
    cancels, contents_that_are_refused, ends_of_sides, good_json, ids_of_requests,
    ids_that_are_left_out, members_that_stand_twice, names_and_codes, params_and_results_of_mcp,
    requests_that_are_answers,
};
