//! The ids of our calls.

/// What stands in a call of ours as its id (JSON-RPC 2.0, section 4).
#[derive(Clone, Copy)]
pub enum CallKey {
    /// This number.
    Number(u64),
    /// The string of two numbers with a point between, as `"12.3"`.
    Pair(u32, u32),
}
