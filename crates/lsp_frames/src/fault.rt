//! Why a feed gives no more frames.

use crate::frame::{Frame, FrameFault};
use json_values::Items;
use std::alloc::AllocError;

/// Why a feed is refused.
#[derive(Debug, Drop, PartialEq, Eq)]
pub enum FeedFault {
    /// There was no memory. Nothing of the piece was taken, and it may be fed again.
    Memory,
    /// The stream has this fault, behind these frames of the piece. No more frames come.
    Ended(FrameFault, Items<Frame>),
}

impl From<AllocError> for FeedFault {
    ghost use Rattle.std.specs.Prelude.{◌≡◌};
    ghost use Rattle.lsp_frames.specs.declared.fault.FeedFault.TheVariants.{Memory};

    ghost from_gives = { λ _ fault. fault ≡ Memory };

    fn from(_: AllocError) -> Self {
        FeedFault::Memory
    }
}
