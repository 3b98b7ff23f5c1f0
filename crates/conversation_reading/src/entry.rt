use crate::first::First;
use json_values::Text;

/// An id as it is written (JSON-RPC 2.0, section 4).
#[derive(Debug, Drop)]
pub enum WrittenId {
    Null,
    Text(Text),
    /// A number, with each digit that it has.
    Number(Text),
}

/// What one JSON value of a content is, alone or in an array.
#[derive(Debug, Clone, Copy, PartialEq, Eq)]
pub enum Kind {
    Request,
    Notification,
    Answer,
    /// An object without a method that has a result or an error, and is no answer; or one in which a member stands twice.
    BrokenAnswer,
    /// Anything else.
    Invalid,
}

/// Which members of an object are there, those that are null too.
#[derive(Debug, Clone, Copy, PartialEq, Eq)]
pub struct There {
    pub id: bool,
    pub method: bool,
    pub params: bool,
    pub result: bool,
    pub error: bool,
}

/// Each rule by which an entry is no message.
#[derive(Debug, Clone, Copy, PartialEq, Eq)]
pub struct Faults {
    /// It is no object.
    pub object: bool,
    /// `jsonrpc` isn't "2.0".
    pub version: bool,
    /// `method` is no string.
    pub method: bool,
    /// `params` are neither an array nor an object.
    pub params: bool,
    /// `id` is neither a string, a number nor null; or an answer has none.
    pub id: bool,
    /// There is no method, and neither a result nor an error, or both.
    pub outcome: bool,
    /// The error has no whole code, or no message that is a string.
    pub error: bool,
}

/// What an entry is, and what it has. Of members that stand twice the last counts.
#[derive(Debug, Drop)]
pub struct Entry {
    pub kind: Kind,
    pub there: There,
    pub faults: Faults,
    /// The id that it has, where it can be read.
    pub id: Option<WrittenId>,
    /// The method that it has, where it is a string.
    pub method: Option<Text>,
    /// Whether it has params, and they are null.
    pub null_params: bool,
    /// Whether it has params, and they are an array.
    pub array_params: bool,
    /// Whether it has a result, and that is no object.
    pub bare_result: bool,
    /// The code of its error, where that is a number, with each digit that it has.
    pub code: Option<Text>,
    /// The id that it cancels by its method, whatever kind it is: of `$/cancelRequest` (LSP) the `id` of its params, and of
    /// `notifications/cancelled` (MCP) their `requestId`, where a `reason` is a string or isn't there. It is a string or a
    /// whole number; there is none where its params aren't a cancel's.
    pub target: Option<WrittenId>,
    /// Whether it is MCP's cancel and names no request: its params are an object without a `requestId`, in which a `reason`
    /// is a string or isn't there, or there are none.
    pub cancels_none: bool,
    /// Where a member of it stands twice, what the first ones say.
    pub first: Option<First>,
    /// Whether a reader may refuse it all: a number in it is beyond a float's range, as 1e400, a member of it stands twice,
    /// or it is a request that nests deeper than 31 (RFC 8259, sections 4, 6 and 9).
    pub has_huge: bool,
}
