use message_ids::Id;

/// A call of the other side that is open.
#[derive(Drop)]
pub struct TheirCall {
    /// Of a request. A notification has none.
    pub id: Option<Id>,
    /// A cancel has reached it.
    pub is_cancelled: bool,
    /// The place of its unit among the answers.
    pub place: u64,
    /// The slot of its answer in that unit.
    pub slot: u64,
}
