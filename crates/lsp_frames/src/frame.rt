//! What is read from a stream of frames.

use json_values::Items;

/// One frame of a stream (LSP 3.17, "Base Protocol"), without its head.
#[derive(Debug, Drop, PartialEq, Eq)]
pub struct Frame {
    /// The bytes of its content part, as many as `Content-Length` says.
    pub content: Items<u8>,
    /// Whether a line `Content-Type` of its head names another charset than UTF-8.
    pub foreign: bool,
}

/// Why no further frame can be cut from a stream.
#[derive(Clone, Copy, Debug, PartialEq, Eq)]
pub enum FrameFault {
    /// A line of a head isn't `name:value` CR LF.
    BadHead,
    /// The value of `Content-Length` isn't a number in decimal digits.
    BadLength,
    /// A head has a second line `Content-Length`.
    TwoLengths,
    /// `Content-Length` is over the limit.
    TooLarge,
    /// A head has no line `Content-Length`.
    NoLength,
    /// The first 4,096 bytes of a head have no fault and no empty line.
    HeadTooLong,
    /// The input ends inside a frame.
    Truncated,
    /// The value of `Content-Length` has more than 10 digits, and nothing else: a sender may be right to write it. Those
    /// that tell a fault by a name or a number tell it as `BadLength`.
    LongLength,
}

/// How a stream of frames ended.
#[derive(Clone, Copy, Debug, PartialEq, Eq)]
pub enum End {
    /// Between two frames.
    Clean,
    /// At a fault, or inside a frame.
    Fault(FrameFault),
}
