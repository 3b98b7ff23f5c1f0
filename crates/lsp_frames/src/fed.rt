//! What a feed gives.

use crate::frame::Frame;
use crate::frames::Frames;

/// The frames that a piece completes.
#[derive(Drop)]
pub struct Fed {
    /// The first of them, where its content came in several pieces. It keeps the memory in which that was gathered.
    pub first: Option<Frame>,
    /// Those behind it.
    pub others: Frames,
}
