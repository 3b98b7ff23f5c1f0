use json_values::Items;

/// A content that is unreadable, or has invalid entries. It is answered all the same.
#[derive(Debug, Drop)]
pub struct Broken {
    /// How many bytes were fed before the content's first. It stays at its greatest once it is there.
    pub place: u64,
    /// The content's first bytes, at most 64. They may be any bytes.
    pub start: Items<u8>,
    pub defect: Defect,
}

/// What is wrong with a content.
#[derive(Clone, Copy, Debug, Drop, PartialEq, Eq)]
pub enum Defect {
    /// It is foreign, or isn't JSON of at most 127 levels in UTF-8.
    Unreadable,
    /// Of its entries so many are invalid. The first of them has this place among all, from 0; it is 0 where the entry
    /// stands alone.
    Invalid { first: u64, count: u64 },
}
