//! What a connection does, as functions of its history: what it tells its host, what it writes, and what it refuses. There
//! is no code here that runs: words, definitions, and laws that hold of them.
#![tactic(auto)]

mod broken;
mod close;
mod event;
mod law;
mod order;
mod refused;

pub use broken::{Broken, Defect};
pub use close::Close;
pub use event::Event;
pub use law::{
    a_call_that_was_given_up_is_told_nothing_of, a_cancel_is_told_where_it_reaches,
    a_reply_is_told_once, an_answer_goes_out_as_soon_as_it_may, answers_go_out_as_they_came,
    broken_input_is_told_once, each_call_is_told_once, each_request_is_answered_or_was_cancelled,
    each_unit_has_its_answer_once, limits_of_keys_in_figures,
    nothing_is_owed_where_nothing_is_open, the_end_is_told_last, what_is_said_is_written_once,
    what_is_told_and_written_only_grows, what_the_rules_allow_is_not_refused,
};
pub use order::Order;
pub use refused::Refused;
