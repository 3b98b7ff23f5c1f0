//! A call of the other side while it is open.

ghost use Rattle.std.specs.Prelude.{◌≡◌, IfOk, option_copied};

use crate::replies::Replies;
use rpc_messages::Id;
use std::alloc::{AllocError, Global};

/// What the desk keeps of a number while it is open: the id of a request, and none for a notification; whether a
/// cancel has reached it (LSP 3.17, cancellation support); the replies to its own calls.
#[derive(Drop)]
pub struct OpenCall {
    pub id: Option<Id>,
    pub is_marked: bool,
    pub replies: Replies,
}

impl OpenCall {
    ghost use Rattle.open_numbers.specs.OpenCalls.{new_number};
    ghost use Rattle.open_numbers.specs.Requests.{id_unless};

    /// A call as it arrives, with room for the replies to its turns 1 to `most`. It stands within what calls it, since it
    /// gives much back.
    #[inline(always)]
    pub fn new(alloc: Global, id: Option<Id>, most: u32) -> Result<OpenCall, AllocError>
        ensures { IfOk result (λ number. number ≡ new_number id most) }
    {
        let replies = Replies::with_room(alloc, most)?;
        Ok(OpenCall {
            id,
            is_marked: false,
            replies,
        })
    }

    /// The id, where this is a request that no cancel has reached.
    pub fn id_in_reach(&self) -> Option<&Id>
        ensures { option_copied result ≡ id_unless self.now.is_marked self.now.id }
    {
        if self.is_marked {
            None
        } else {
            self.id.as_ref()
        }
    }
}
