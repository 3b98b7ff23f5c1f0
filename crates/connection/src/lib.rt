//! A connection: one end of a JSON-RPC conversation, whose methods are the host's own code. It is fed bytes, is asked for
//! events, is told what the host says, and gives the bytes that are to be written. It starts no thread and reads no clock.
#![tactic(auto)]

mod asking;
mod broken;
mod connection;
mod feeding;
mod law;
mod report;
mod saying;
mod settings;
mod taking;

pub use connection::Connection;
pub use connection_history::{Broken, Close, Defect, Event, Order, Refused};
pub use connection_messages::{
    Answer, AnswerError, Call, Cancels, Outgoing, OutgoingParams, Reply, ReplyError,
};
pub use content_streams::{Framing, HowEnded};
pub use law::{
    a_connection_has_a_conversation, a_host_that_keeps_the_rules_is_refused_only_for_memory,
    contents_of_what_is_written_are_its_texts, two_connections_understand_each_other,
};
pub use report::Report;
pub use settings::{MOST_CONTENT, Settings, USUAL_CONTENT};
