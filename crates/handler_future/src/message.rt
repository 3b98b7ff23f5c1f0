use json_values::Items;
use rpc_messages::Outgoing;

/// What a handler sends to the other side.
#[derive(Drop)]
pub enum Message {
    /// The call of this turn.
    Call(u32, Outgoing),
    /// A batch of calls; the first has this turn, and each further one the next.
    Calls(u32, Items<Outgoing>),
    /// A notification.
    Notice(Outgoing),
}
