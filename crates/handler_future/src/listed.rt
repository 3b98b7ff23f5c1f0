//! Replies that are listed beforehand.

ghost use Rattle.std.specs.Prelude.{◌≡◌, ℕ, IfOk};
ghost use Rattle.std.specs.BTreeMap.{get};
ghost use Rattle.std.specs.Ordering.{nat_cmp};
ghost use Rattle.handler_future.specs.Front.{find_heard};

use rpc_messages::Reply;
use std::alloc::{AllocError, Global};
use std::collections::BTreeMap;

/// The first reply that is listed for each turn.
pub(crate) fn first_replies(
    alloc: Global,
    replies: Vec<(u32, Reply)>,
) -> Result<BTreeMap<u32, Reply>, AllocError>
    ensures { IfOk result (λ listed. (t : ℕ) → get nat_cmp listed t ≡ find_heard replies.items t) }
{
    let mut listed = BTreeMap::new(alloc);
    for (turn, reply) in replies {
        if listed.contains_key(&turn) {
            drop(reply);
        } else {
            drop(listed.insert(turn, reply)?);
        }
    }
    Ok(listed)
}
