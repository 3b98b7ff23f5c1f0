use crate::entry::Entry;
use json_values::Items;

/// What a content is, by what it is answered (JSON-RPC 2.0, section 6).
#[derive(Debug, Drop)]
pub enum Unit {
    /// It is foreign, or isn't JSON of at most 127 levels in UTF-8. It is answered with one Parse error.
    Unreadable,
    /// One entry, with at most one answer. An empty array is a single invalid entry.
    Single(Entry),
    /// The elements of an array of at least one, whose answers form one array.
    Batch(Items<Entry>),
}
