use conversation_reading::Whole;

/// What is looked at of an answer, broken or not, beside its id.
#[derive(Debug, Clone, Copy, PartialEq, Eq)]
pub struct Reply {
    /// Its place in its array, from 1; or 0, where it stands alone.
    pub at: u64,
    /// Whether it is an answer by all rules.
    pub is_well: bool,
    /// Whether it may refuse a content whole: it is under the id null, as an answer by all rules, or as an error that may be
    /// without an id.
    pub may_refuse: bool,
    /// The code of its error, where that is a whole number whose size is below 2^64.
    pub code: Option<Whole>,
    /// Whether it says that its request was cancelled, where no cancel of it was seen.
    pub is_uncalled: bool,
}

/// An answer that fits nothing that is owed.
#[derive(Debug, Clone, Copy, PartialEq, Eq)]
pub struct Stray {
    /// Its place in its array, from 1; or 0, where it stands alone.
    pub at: u64,
    /// Whether it is an answer by all rules. If it isn't, it is told by the rule that it breaks itself.
    pub is_well: bool,
}

/// What an answer is judged with.
#[derive(Debug, Clone, Copy, PartialEq, Eq)]
pub struct Sight {
    /// Whether what is owed can't be known: the judge reads the stream of either side no further, or had to guess for which
    /// batch an array was.
    pub is_broken: bool,
    /// Whether a content of the side that asked couldn't be read.
    pub has_unreadable: bool,
    /// What its side may have refused.
    pub refusals: Refusals,
}

/// What a side may have refused whole, by answers with the id null.
#[derive(Debug, Clone, Copy, PartialEq, Eq)]
pub struct Refusals {
    /// How many of them fitted nothing, and may have refused what is still owed.
    pub refused: u64,
    /// How many arrays of the other side on which nothing is owed may still be refused: 2^64 - 1 stands for any number from
    /// there on.
    pub unowed: u64,
}
