//! The answer desk of a JSON-RPC 2.0 peer: numbers for the calls that arrive, the first reply to each of our own calls,
//! and the answers in order of arrival.
#![tactic(auto)]

mod answers;
mod arrival;
mod desk;
mod front;
mod law;
mod queue;
mod shape;
mod waiting_unit;

pub use desk::Desk;
pub use law::{
    cancel_reaches_numbers_below_it, end_closes_its_own_number, reach_marks_one_number,
    reply_changes_its_own_number, reply_fills_its_own_slot, taken_reply_leaves_its_slot_given,
};
pub use open_numbers::Put;
pub use rpc_messages::Kind;
pub use shape::{Place, Shape};
