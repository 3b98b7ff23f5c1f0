//! The fixed errors.

/// An error with a fixed code and message.
#[derive(Debug, Clone, Copy, PartialEq, Eq)]
pub enum Standard {
    /// The content is not JSON (JSON-RPC 2.0, section 5.1).
    ParseError,
    /// The entry is no request object (JSON-RPC 2.0, section 5.1).
    InvalidRequest,
    /// The method is not known (JSON-RPC 2.0, section 5.1).
    MethodNotFound,
    /// The params do not fit the method (JSON-RPC 2.0, section 5.1).
    InvalidParams,
    /// A fault of the method (JSON-RPC 2.0, section 5.1).
    InternalError,
    /// The request was cancelled (LSP 3.17, `RequestCancelled`).
    Cancelled,
    /// A call got no reply before the input ended.
    NoReply,
    /// A call got a reply that is none by JSON-RPC 2.0, section 5.
    InvalidReply,
}

impl Standard {
    ghost use Rattle.std.specs.Prelude.{◌≡◌};
    ghost use Rattle.message_ids.specs.Standard.{code_of, message_of};

    /// The member `code` (JSON-RPC 2.0, section 5.1).
    pub fn code(self) -> i64
        ensures { result ≡ code_of self }
    {
        match self {
            Standard::ParseError => -32700,
            Standard::InvalidRequest => -32600,
            Standard::MethodNotFound => -32601,
            Standard::InvalidParams => -32602,
            Standard::InternalError => -32603,
            Standard::Cancelled => -32800,
            Standard::NoReply => -32000,
            Standard::InvalidReply => -32603,
        }
    }

    /// The member `message` (JSON-RPC 2.0, section 5.1).
    pub fn message(self) -> &'static str
        ensures { result.now ≡ message_of self }
    {
        match self {
            Standard::ParseError => "Parse error",
            Standard::InvalidRequest => "Invalid Request",
            Standard::MethodNotFound => "Method not found",
            Standard::InvalidParams => "Invalid params",
            Standard::InternalError => "Internal error",
            Standard::Cancelled => "Request cancelled",
            Standard::NoReply => "No reply",
            Standard::InvalidReply => "Invalid reply",
        }
    }
}
