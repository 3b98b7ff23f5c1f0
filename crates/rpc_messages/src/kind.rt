//! Single entries and batches.

/// Whether a unit is a single entry or a batch (JSON-RPC 2.0, section 6).
#[derive(Clone, Copy, Debug, PartialEq, Eq)]
pub enum Kind {
    Single,
    Batch,
}
