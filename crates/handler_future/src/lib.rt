//! One method's run: a future that is polled by hand, makes messages and waits for replies.
#![tactic(auto)]

mod act;
mod answered;
mod awaiting;
mod course;
mod each;
mod fault;
mod handler;
mod law;
mod listed;
mod message;
mod outcome;
mod phase;
mod rehearsal;
mod reply_values;
mod room;
mod run;

pub use awaiting::Awaiting;
pub use handler::Handler;
pub use law::{
    earlier_replies_decide, front_begins_the_messages, front_is_the_same_under_every_map,
    messages_are_at_most_the_steps, turns_lie_within_the_calls,
};
pub use message::Message;
pub use outcome::{NotWaiting, Outcome};
pub use rehearsal::Rehearsal;
pub use room::Room;
