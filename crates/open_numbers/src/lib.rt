//! What a peer keeps of each number of the calls that came: while it is open, whether a cancel has reached it and the first
//! reply to each call of its own; once it is finished, its answer, until that is released.
#![tactic(auto)]

mod kept;
mod numbers;
mod open_call;
mod replies;
mod requests_by_id;
mod spare_blocks;

pub use kept::Kept;
pub use numbers::Numbers;
pub use open_call::OpenCall;
pub use replies::{Put, Replies, Slot};
