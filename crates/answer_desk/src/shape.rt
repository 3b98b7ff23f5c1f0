use json_values::Items;
use rpc_messages::{Id, Kind};

/// A unit as the desk sees it: its kind and its entries in their order.
#[derive(Drop)]
pub struct Shape {
    pub kind: Kind,
    pub places: Items<Place>,
}

/// One entry of a unit, as far as its answer is concerned.
#[derive(Drop)]
pub enum Place {
    /// A content that is no JSON: it is answered Parse error.
    Unreadable,
    /// An entry that is no call and no reply: it is answered Invalid Request.
    Invalid,
    /// A reply, which is never answered.
    Silent,
    /// A call, which takes the next number. `id` is a request's id, and none for a notification; `most` is the greatest
    /// turn that it may use for calls of its own.
    Numbered { id: Option<Id>, most: u32 },
}
