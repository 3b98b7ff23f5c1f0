//! What a run of the peer tells of itself.

use lsp_frames::FrameFault;

/// How the input ended.
#[derive(Clone, Copy, Debug, PartialEq, Eq)]
pub enum Close {
    /// Between two frames.
    Clean,
    /// At a fault of its frames, or inside a frame.
    Frame(FrameFault),
    /// A read failed.
    Read,
    /// A content needed more numbers than the limits allow.
    Full,
}

/// What was taken and written. A count stays at the greatest value of its type.
#[derive(Clone, Copy, Debug, PartialEq, Eq)]
pub struct Report {
    /// How the input ended.
    pub end: Close,
    /// How many calls were taken, each of which has a number.
    pub numbers: u64,
    /// How many messages of handlers were written; a batch of calls is one.
    pub messages: u64,
    /// How many of those messages await a reply.
    pub call_frames: u64,
    /// How many answers were written; a batch of answers is one.
    pub answers: u64,
    /// How many times a handler was polled.
    pub polls: u64,
}
