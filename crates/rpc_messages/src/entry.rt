//! One value of a content.

use crate::call::Call;
use crate::reply::Reply;
use std::alloc::Global;
use std::sync::Arc;

/// What one JSON value is, alone or in a batch (JSON-RPC 2.0, sections 4 to 6).
#[derive(Debug, Drop)]
pub enum Entry {
    /// A request or a notification, which the handler that answers it shares.
    Call(Arc<Call, Global>),
    /// The reply to call `turn` of the handler of call entry `number`. It is in a block of its own, since it is large: an
    /// entry is moved often, and is mostly a call.
    Reply {
        number: u32,
        turn: u32,
        reply: Box<Reply>,
    },
    /// A reply whose id is the key of no call. It is ignored.
    Stray,
    /// Anything else. It is answered with Invalid Request and the id null.
    Invalid,
}
