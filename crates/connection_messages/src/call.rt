use json_values::Text;
use message_ids::Id;

/// A request or a notification that came (JSON-RPC 2.0, section 4).
#[derive(Debug, Drop)]
pub struct Call {
    /// The id of a request, null included. A notification has none.
    pub id: Option<Id>,
    pub method: Text,
    /// The compact text of the array or object that was given. There is none where `params` was left out or is null.
    pub params: Option<Text>,
}
