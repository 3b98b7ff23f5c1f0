/// What an answer is for, by places in the list of what is owed, the oldest content first.
#[derive(Clone, Copy)]
pub enum Target {
    /// The entry at a place of what is owed on the content at a place.
    EntryOf(usize, usize),
    /// The whole content at a place.
    WholeOf(usize),
}

/// What is told of the entry that an answer is for.
#[derive(Debug, Clone, Copy, PartialEq, Eq)]
pub struct Fit {
    /// It stands in a batch.
    pub in_batch: bool,
    pub is_request: bool,
    /// A cancel of it was seen.
    pub is_cancelled: bool,
}

/// What a single answer is for.
#[derive(Debug, Clone, Copy, PartialEq, Eq)]
pub enum Found {
    /// The whole of a content.
    Whole,
    /// An entry of a content.
    Entry(Fit),
}

/// A request that must be answered, and isn't.
#[derive(Debug, Clone, Copy, PartialEq, Eq)]
pub struct Unanswered {
    /// The how-manieth content of its side it stands in, from 1.
    pub number: u64,
    /// The offset of this content's first byte.
    pub offset: u64,
    /// Its place in its array, from 1, or 0.
    pub entry: u64,
    /// Its content may be refused whole: it is a batch, or a reader may limit it.
    pub may_be_refused: bool,
    /// A content that couldn't be read came behind it, and may have been its answer; or an error with the id null may have
    /// refused it.
    pub may_be_answered: bool,
}
