use crate::level::Level;
use crate::side::Side;

/// What a message breaks. docs/judge.md has each with its section.
#[derive(Debug, Clone, Copy, PartialEq, Eq)]
pub enum Rule {
    Head,
    NotJson,
    Charset,
    CutOff,
    LineEnd,
    Object,
    Version,
    Method,
    Params,
    Id,
    Outcome,
    Error,
    BothKinds,
    Twice,
    EmptyArray,
    Batch,
    NotOwed,
    NotAsArray,
    IdFraction,
    IdNull,
    IdForm,
    IdAgain,
    RpcName,
    Code,
    CancelledCode,
    CancelParams,
    CancelUnknown,
    CancelInitialize,
    AfterCancel,
    ParamsObject,
    ResultObject,
    Unanswered,
    /// No rule: the judge can't tell, or can't go on.
    NotJudged,
}

/// That a side broke a rule, and by which message.
#[derive(Debug, Clone, Copy, PartialEq, Eq)]
pub struct Finding {
    /// Whose fault it is.
    pub side: Side,
    pub rule: Rule,
    pub level: Level,
    /// The message: the how-manieth content of its side's stream, from 1. It is a message of `side`, but for
    /// `Rule::Unanswered`, where it is the request of the other side.
    pub number: u64,
    /// The offset of its first byte in that stream, from 0. Counts and offsets stop at u64's greatest value.
    pub offset: u64,
    /// The entry's place in the array, from 1; or 0, where the content is no array or the finding is of the whole array.
    pub entry: u64,
}

/// How much is judged.
#[derive(Debug, Clone, Copy, PartialEq, Eq)]
pub struct Limits {
    /// A content has at most so many bytes.
    pub content: u32,
    /// So many used ids of a side are kept, where a run of whole numbers counts one.
    pub ids: u32,
}

/// A content of a side's stream, as a finding names it.
#[derive(Debug, Clone, Copy, PartialEq, Eq)]
pub struct Message {
    pub side: Side,
    /// The how-manieth content of its side's stream, from 1.
    pub number: u64,
    /// The offset of its first byte, from 0.
    pub offset: u64,
}
