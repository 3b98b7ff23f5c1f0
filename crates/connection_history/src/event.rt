use crate::broken::Broken;
use crate::close::Close;
use connection_messages::{Call, Reply};

/// What a connection tells its host.
#[derive(Debug, Drop)]
pub enum Event {
    /// A request or a notification came. Calls have the numbers 1, 2, .. in the order in which they came.
    Call { number: u64, call: Call },
    /// The other side cancels this request, which is open. It still wants its answer.
    Cancelled { number: u64 },
    /// The reply to our call with this key came.
    Replied { key: u64, reply: Reply },
    /// The input is over without a reply to our call with this key.
    Unanswered { key: u64 },
    /// The input is over. Nothing is told after this.
    Over(Close),
    /// A content came that is broken. This is told in front of the content's other events, where the host asked for it.
    Broken(Broken),
}
