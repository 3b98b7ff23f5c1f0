//! What stands in the place of a recording's first line.

ghost use Rattle.std.specs.Prelude.{◌≡◌};
ghost use Rattle.recorded_talks.specs.Recorded.{protocol_named, framing_named};

use crate::head::{framing_named, protocol_named};
use content_streams::Framing;
use conversation_rules::Protocol;

/// Whose rules and which framing count in place of those of a recording's first line.
#[derive(Clone, Copy)]
pub struct TalkOptions {
    pub protocol: Option<Protocol>,
    pub framing: Option<Framing>,
}

impl TalkOptions {
    /// The rules and the framing of these names. What has another name is that of the recording.
    pub fn named(rules: &str, framing: &str) -> TalkOptions
        ensures { result ≡ record { protocol = protocol_named rules.now; framing = framing_named framing.now } }
    {
        TalkOptions {
            protocol: protocol_named(rules),
            framing: framing_named(framing),
        }
    }
}
