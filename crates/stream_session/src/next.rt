//! What a stream has next, and how its input ends.

/// What was taken of a stream.
#[derive(Clone, Copy, Debug, PartialEq, Eq)]
pub enum Next {
    /// A content. Others may wait.
    Content,
    /// No content: all that came has been taken, with what closes the input where that is known.
    Nothing,
}

/// How an input ends, as its reader tells.
#[derive(Clone, Copy, Debug, PartialEq, Eq)]
pub enum InputEnd {
    /// The source had no more.
    Finished,
    /// The source failed.
    Failed,
}
