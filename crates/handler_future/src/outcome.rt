use rpc_messages::Reply;

/// How a handler ended.
#[derive(Drop)]
pub enum Outcome {
    /// With the answer to its request.
    Answer(Reply),
    /// For want of memory, or because it had ended before.
    Failed,
}

/// The reply to a call that the handler doesn't wait for, given back.
#[derive(Debug, Drop)]
pub struct NotWaiting {
    pub reply: Reply,
}
