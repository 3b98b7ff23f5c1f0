//! What a session keeps, what each event makes of it, and what holds of it after any events: definitions and laws. All that
//! runs of it is the type of a stage.
#![tactic(auto)]

mod draining;
mod known;
mod polls;
mod stage;
mod standing;
mod taking;
mod turning;
mod turns;

pub use draining::{nothing_is_stuck, what_is_due_is_written, what_was_written_is_an_output};
pub use polls::{each_turn_is_one_poll, polls_of_a_done_session_are_few};
pub use stage::Stage;
pub use standing::{events_keep_standing, what_stands_is_an_output};
pub use taking::{
    cancels_finish_the_handlers_that_are_here, entries_are_passed, start_is_at_rest,
    units_are_opened, units_are_taken,
};
pub use turning::{
    cancelled_jobs_withdraw_what_is_unanswered, handlers_hear_what_is_there, input_ends_at_rest,
    jobs_are_out, jobs_come_back, ready_handlers_go_out,
};
pub use turns::turned_handlers_have_fewer_turns_left;
