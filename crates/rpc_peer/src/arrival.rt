//! What goes through the ring.

use json_values::Items;

/// What a reader sends to the session's owner.
#[derive(Debug, Drop)]
pub enum Arrival {
    /// The next bytes of the input.
    Piece(Items<u8>),
    /// The input is over; nothing is sent behind this.
    End(InputEnd),
}

/// Why a reader sends no more.
#[derive(Clone, Copy, Debug, PartialEq, Eq)]
pub enum InputEnd {
    /// The source had no more.
    Finished,
    /// The source failed.
    Failed,
    /// There was no memory for the next bytes.
    Memory,
}
