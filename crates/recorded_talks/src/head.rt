//! The first line, and the names in it.

ghost use Rattle.std.specs.Prelude.{◌≡◌};
ghost use Rattle.recorded_talks.specs.Recorded.{head_of, head_named, protocol_named, framing_named};

use crate::text::{text_in, without_blanks};
use content_streams::Framing;
use conversation_rules::Protocol;

/// Whose rules a conversation is held against, and how its contents are framed.
#[derive(Clone, Copy, Debug, PartialEq, Eq)]
pub(crate) struct Head {
    pub(crate) protocol: Protocol,
    pub(crate) framing: Framing,
}

/// The head that a line is, without its LF.
pub(crate) fn read_head(line: &[u8]) -> Option<Head>
    ensures { result ≡ head_of line.now }
{
    let line = without_blanks(line);
    if !line.starts_with(b"judge 1 ") {
        return None;
    }
    head_named(text_in(&line[8..])?)
}

/// The head of two names.
fn head_named(names: &str) -> Option<Head>
    ensures { result ≡ head_named names.now }
{
    let (rules, framing) = names.split_once(' ')?;
    let framing = framing_named(framing)?;
    let protocol = protocol_named(rules)?;
    Some(Head { protocol, framing })
}

/// The rules of this name.
pub(crate) fn protocol_named(name: &str) -> Option<Protocol>
    ensures { result ≡ protocol_named name.now }
{
    match name {
        "jsonrpc" => Some(Protocol::JsonRpc),
        "lsp" => Some(Protocol::Lsp),
        "mcp" | "mcp:2025-11-25" => Some(Protocol::Mcp),
        "mcp:2025-06-18" => Some(Protocol::Mcp20250618),
        "mcp:2025-03-26" => Some(Protocol::Mcp20250326),
        "mcp:2024-11-05" => Some(Protocol::Mcp20241105),
        _ => None,
    }
}

/// The framing of this name.
pub(crate) fn framing_named(name: &str) -> Option<Framing>
    ensures { result ≡ framing_named name.now }
{
    match name {
        "frames" => Some(Framing::Frames),
        "lines" => Some(Framing::Lines),
        "contents" => Some(Framing::Contents),
        _ => None,
    }
}
