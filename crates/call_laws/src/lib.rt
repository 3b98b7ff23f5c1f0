//! Laws of calls between two connections of this library: how an outgoing request ends, at its own side and at the
//! other. Nothing stands on them.
#![tactic(auto)]

mod asking;
mod done;
mod endings;
mod figures;
mod home;
mod met;
mod requests;
mod responses;
mod rows;
mod talks;
mod telling;

pub use asking::{each_call_takes_an_event_off, given_bytes_have_so_many_events};
pub use done::a_host_that_does_its_part_is_done;
pub use endings::each_request_ends_in_one_way;
pub use figures::what_is_open_came_and_was_not_closed;
pub use home::{a_call_comes_home, a_request_goes_the_whole_way};
pub use met::two_connections_that_talk;
pub use requests::each_request_is_told_as_it_was_made;
pub use responses::{a_response_is_the_answer_of_the_other_host, each_answer_goes_out};
pub use rows::{
    a_request_and_its_response, a_response_before_its_request_is_ignored,
    a_response_behind_its_callers_answer_is_ignored, an_answer_of_a_batch_waits_for_the_others,
};
pub use talks::joined_connections_talk;
pub use telling::ask;
