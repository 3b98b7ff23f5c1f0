//! The laws of lower crates, together.

ghost use Rattle.peer_events.specs.Inner.Known.{Known};

use answer_desk::{
    end_closes_its_own_number, reach_marks_one_number, reply_changes_its_own_number,
    reply_fills_its_own_slot, taken_reply_leaves_its_slot_given,
};
use peer_output::{
    cancel_reaches_what_stands_before_it, certain_facts_stay, faults_and_cancels_finish,
    finished_number_is_answered_in_its_unit, front_of_whole_units_is_due,
    handlers_keep_to_their_course, more_entries_change_nothing_that_came, nothing_is_a_past,
    numbers_send_and_finish, past_is_a_partial_output, past_that_is_done_is_an_output,
    replies_may_be_heard, sendings_and_answers_are_written, units_are_left_in_order,
    units_come_and_the_input_ends,
};

/// All that the laws of this crate stand on.
pub(crate) fn known()
    ensures { Known }
{
    more_entries_change_nothing_that_came();
    cancel_reaches_what_stands_before_it();
    certain_facts_stay();
    replies_may_be_heard();
    handlers_keep_to_their_course();
    faults_and_cancels_finish();
    nothing_is_a_past();
    units_come_and_the_input_ends();
    numbers_send_and_finish();
    sendings_and_answers_are_written();
    past_is_a_partial_output();
    past_that_is_done_is_an_output();
    units_are_left_in_order();
    finished_number_is_answered_in_its_unit();
    front_of_whole_units_is_due();
    reply_changes_its_own_number();
    reply_fills_its_own_slot();
    taken_reply_leaves_its_slot_given();
    reach_marks_one_number();
    end_closes_its_own_number();
}
