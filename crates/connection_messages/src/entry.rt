use crate::call::Call;
use crate::reply::Reply;
use message_ids::Id;

/// What one JSON value of a content is, alone or in a batch (JSON-RPC 2.0, sections 4 to 6).
#[derive(Debug, Drop)]
pub enum Entry {
    /// A request or a notification.
    Call(Call),
    /// The notification that cancels the requests with this id (LSP 3.17, "Cancellation Support"; MCP 2025-06-18,
    /// "Cancellation"), where such cancels are told apart from calls.
    Cancel(Id),
    /// The reply to our call with this key, which is at least 1.
    Reply { key: u64, reply: Reply },
    /// A reply with any other id. It is ignored.
    Stray,
    /// Anything else. It is answered with Invalid Request and the id null.
    Invalid,
}
