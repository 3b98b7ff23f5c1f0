//! What a connection has written and its host hasn't taken yet.
#![tactic(auto)]

mod bytes_left;
mod law;
mod mark;
mod outbox;

pub use law::bytes_follow_one_another;
pub use mark::Mark;
pub use outbox::Outbox;
