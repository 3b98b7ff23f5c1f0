//! What a peer may write for a stream of units: definitions, and the laws on them. It has no code that runs.
#![tactic(auto)]

mod certain;
mod law;
mod left;
mod past;

pub use certain::{
    cancel_reaches_what_stands_before_it, certain_facts_stay, faults_and_cancels_finish,
    handlers_keep_to_their_course, more_entries_change_nothing_that_came, replies_may_be_heard,
};
pub use law::{
    answer_is_appended, answers_stand_behind_all_sendings, fronts_are_partial_outputs,
    nothing_is_a_partial_output, output_is_a_partial_output, partial_output_that_lacks_nothing,
    sending_is_appended, without_cancels_the_parts_are_determined,
    without_methods_the_answers_are_all,
};
pub use left::{
    finished_number_is_answered_in_its_unit, front_of_whole_units_is_due, units_are_left_in_order,
};
pub use past::{
    nothing_is_a_past, numbers_send_and_finish, past_is_a_partial_output,
    past_that_is_done_is_an_output, sendings_and_answers_are_written,
    units_come_and_the_input_ends,
};
