//! What a host in another language does with a connection: it passes numbers and bytes, and gets a code, numbers and
//! the places of bytes. Bytes that it passes are read here. What it gets is lent, and lies here: the texts of the event
//! that was told last, and what is to be written.
#![tactic(auto)]

mod asking;
mod batch;
mod code;
mod event;
mod feeding;
mod head;
mod hosted;
mod id;
mod outlet;
mod output;
mod part;
mod place;
mod saying;
mod sayings;
mod telling;
mod texts;

pub use code::{Why, code_of};
pub use event::EventTexts;
pub use head::{EventHead, LentEvent};
pub use hosted::HostedConnection;
pub use outlet::Outlet;
pub use sayings::{Saying, SayingKind};
