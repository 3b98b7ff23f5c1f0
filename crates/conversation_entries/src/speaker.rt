//! What is kept of a side.

ghost use Rattle.std.specs.Prelude.{◌≡◌};
ghost use Rattle.conversation_entries.specs.Said.{said};
ghost use Rattle.conversation_rules.specs.Speakers.{new_speaker};

use conversation_dues::Dues;
use conversation_ids::UsedIds;
use conversation_rules::Refusals;
use std::alloc::Global;

/// A side: how many contents it has, what the other side owes on them, and what it has said.
#[derive(Drop)]
pub struct Speaker {
    pub count: u64,
    /// What the other side owes.
    pub owed: Dues,
    /// A content of the other side couldn't be read, and may have been the answer to what is owed on this content, or on an
    /// older one: its number, or 0.
    pub unsure_up_to: u64,
    /// What the other side may have refused of it.
    pub refusals: Refusals,
    /// The ids that its requests had, and those of `initialize`.
    pub used: UsedIds,
    pub initialize: UsedIds,
    /// It sent a cancel by rules where a request whose cancel was seen may be left.
    pub has_cancelled: bool,
    /// It had to be guessed for which of its batches an array was.
    pub is_guessed: bool,
    pub has_exited: bool,
    /// A content of it couldn't be read.
    pub has_unreadable: bool,
    /// The judge reads its stream no further.
    pub is_over: bool,
    pub has_ended: bool,
}

/// A side of which nothing was seen. Takes no memory.
pub fn new_speaker(alloc: Global, ids: u32) -> Speaker
    ensures { said result ≡ new_speaker ids }
{
    Speaker {
        count: 0,
        owed: Dues::new(alloc),
        unsure_up_to: 0,
        refusals: Refusals {
            refused: 0,
            unowed: 0,
        },
        used: UsedIds::new(alloc, ids),
        initialize: UsedIds::new(alloc, ids),
        has_cancelled: false,
        is_guessed: false,
        has_exited: false,
        has_unreadable: false,
        is_over: false,
        has_ended: false,
    }
}
