//! Which protocol it is.

ghost use Rattle.std.specs.Prelude.{◌≡◌};
ghost use Rattle.conversation_rules.specs.Protocols as protocols;

use conversation_rules::Protocol;

pub fn is_lsp(protocol: Protocol) -> bool
    ensures { result ≡ protocols.is_lsp protocol }
{
    match protocol {
        Protocol::Lsp => true,
        Protocol::JsonRpc
        | Protocol::Mcp
        | Protocol::Mcp20250618
        | Protocol::Mcp20250326
        | Protocol::Mcp20241105 => false,
    }
}

pub fn is_mcp(protocol: Protocol) -> bool
    ensures { result ≡ protocols.is_mcp protocol }
{
    match protocol {
        Protocol::Mcp | Protocol::Mcp20250618 | Protocol::Mcp20250326 | Protocol::Mcp20241105 =>
            true,
        Protocol::JsonRpc | Protocol::Lsp => false,
    }
}

/// Whether an error may be without an id, and a cancel without that of a request.
pub(crate) fn may_leave_ids_out(protocol: Protocol) -> bool
    ensures { result ≡ protocols.may_leave_ids_out protocol }
{
    match protocol {
        Protocol::Mcp => true,
        Protocol::JsonRpc
        | Protocol::Lsp
        | Protocol::Mcp20250618
        | Protocol::Mcp20250326
        | Protocol::Mcp20241105 => false,
    }
}
