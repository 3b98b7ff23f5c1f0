//! What a connection keeps of the calls that are open: ours that wait for a reply, and the other side's. Each type is seen by
//! contracts as a number and a list, and each call is constant or logarithmic in the length of that list.
#![tactic(auto)]

mod ascending_ids;
mod keys_by_caller;
mod law;
mod numbers;
mod numbers_by_id;
mod other_numbers;
mod own_call;
mod own_calls;
mod their_call;
mod their_calls;

pub use law::{an_entry_changes_or_goes, numbers_above_one, numbers_below_one};
pub use own_call::OwnCall;
pub use own_calls::OwnCalls;
pub use their_call::TheirCall;
pub use their_calls::TheirCalls;
