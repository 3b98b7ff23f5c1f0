/// Whose cancels a conversation has.
#[derive(Clone, Copy, Debug, PartialEq, Eq)]
pub enum Cancels {
    /// The notification `$/cancelRequest`, whose params name a request by `id` (LSP 3.17, "Cancellation Support").
    Lsp,
    /// The notification `notifications/cancelled`, whose params name a request by `requestId` (MCP 2025-06-18,
    /// "Cancellation").
    Mcp,
}

impl Cancels {
    ghost use Rattle.std.specs.Prelude.{◌≡◌};
    ghost use Rattle.connection_messages.specs.Reading.{cancel_method, cancel_member};

    /// The method of a cancel.
    pub(crate) fn method(self) -> &'static str
        ensures { result.now ≡ cancel_method self }
    {
        match self {
            Cancels::Lsp => "$/cancelRequest",
            Cancels::Mcp => "notifications/cancelled",
        }
    }

    /// The member of a cancel's params that names the request.
    pub(crate) fn member(self) -> &'static str
        ensures { result.now ≡ cancel_member self }
    {
        match self {
            Cancels::Lsp => "id",
            Cancels::Mcp => "requestId",
        }
    }
}
