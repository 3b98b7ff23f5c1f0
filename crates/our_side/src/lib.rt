//! Laws of a side of a conversation that is a connection of this library: which rules it never breaks, whatever its host
//! does, and where the judge accuses it. Nothing stands on it.
#![tactic(auto)]

mod accused;
mod asked;
mod counted;
mod expected;
mod joined;
mod messages;
mod met;
mod once;

pub use accused::{a_batch_of_too_many_is_answered_once, cancelled_requests_are_left_in_batches};
pub use asked::who_answers_what_was_asked_is_not_accused;
pub use counted::{contents_answer, contents_ask};
pub use expected::expected_answers_are_not_accused;
pub use joined::a_connection_is_not_accused_of_its_answers;
pub use messages::our_side_writes_messages;
pub use met::a_connection_that_answers_is_our_side;
pub use once::{each_unit_is_answered_in_its_form, no_id_is_answered_more_often_than_asked};
