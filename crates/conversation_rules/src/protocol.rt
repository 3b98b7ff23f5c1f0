/// Whose rules a conversation is held against.
#[derive(Debug, Clone, Copy, PartialEq, Eq)]
pub enum Protocol {
    /// JSON-RPC 2.0 alone.
    JsonRpc,
    /// LSP 3.17.
    Lsp,
    /// MCP of 2025-11-25.
    Mcp,
    /// MCP of 2025-06-18.
    Mcp20250618,
    /// MCP of 2025-03-26, which has batches.
    Mcp20250326,
    /// MCP of 2024-11-05.
    Mcp20241105,
}
