/// Where a handler stands.
#[derive(Clone, Copy)]
pub(crate) enum Phase {
    /// It waits for replies, or for its next poll.
    UnderWay,
    /// A poll has answered.
    Answered,
    /// A poll has found no memory.
    Failed,
}
