//! A call of the other side: a request or a notification.

ghost use Rattle.std.specs.Prelude.{◌≡◌, option_copied};

use crate::params::Params;
use json_values::Text;
use message_ids::Id;

/// A call of the other side (JSON-RPC 2.0, section 4): a request, or a notification, which has no id.
#[derive(Debug, Drop)]
pub struct Call {
    /// The id under which a request is answered; null is one. `None` in a notification.
    pub id: Option<Id>,
    pub method: Text,
    pub params: Params,
    /// In a cancel, which is a notification `$/cancelRequest`, the id of the requests that it cancels (LSP 3.17,
    /// "Cancellation Support").
    pub target: Option<Id>,
}

/// The id that a cancel names. Takes no memory.
pub fn cancel_target(call: &Call) -> Option<&Id>
    ensures { option_copied result ≡ call.now.target }
{
    call.target.as_ref()
}
