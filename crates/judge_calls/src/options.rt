//! What a judge is made with.

ghost use Rattle.std.specs.Prelude.{◌≡◌, ◌≤◌, IfSome};
ghost use Rattle.judge_calls.specs.Options.{or_usual, framing_of, protocol_of, asked_by};
ghost use Rattle.lsp_frames.specs.declared.limits.TheConstants.{LARGEST_CONTENT as MOST_BYTES};

use content_streams::Framing;
use conversation_rules::{Limits, Protocol};
use lsp_frames::LARGEST_CONTENT;

/// What the host asks for, as C has it.
#[repr(C)]
#[derive(Clone, Copy)]
pub struct JudgeOptions {
    /// How many bytes the host takes the struct for. A later library may have a longer one.
    pub size: u32,
    pub rules: u32,
    pub framing: u32,
    /// A content has at most so many bytes.
    pub content: u32,
    /// So many used ids of a side are kept.
    pub ids: u32,
}

/// How many bytes the options have.
const OPTIONS_SIZE: u32 = 20;

/// How many used ids of a side are kept where the host doesn't say.
const USUAL_IDS: u32 = 1_000_000;

/// Whose rules, how contents are framed, and how much is judged.
#[derive(Clone, Copy)]
pub struct Asked {
    pub protocol: Protocol,
    pub framing: Framing,
    pub limits: Limits,
}

impl JudgeOptions {
    /// What they ask for, where there is such a judge. A limit of 0 is the usual one.
    pub fn asked(&self) -> Option<Asked>
        ensures asked { result ≡ asked_by self.now }
        ensures limits { IfSome result (λ asked. (1 ≤ asked.limits.content) × (asked.limits.content ≤ MOST_BYTES)) }
    {
        if self.size != OPTIONS_SIZE || self.content > LARGEST_CONTENT {
            return None;
        }
        Some(Asked {
            protocol: protocol_of(self.rules)?,
            framing: framing_of(self.framing)?,
            limits: Limits {
                content: or_usual(LARGEST_CONTENT, self.content),
                ids: or_usual(USUAL_IDS, self.ids),
            },
        })
    }
}

fn or_usual(usual: u32, limit: u32) -> u32
    ensures { result ≡ or_usual usual limit }
{
    if limit == 0 { usual } else { limit }
}

fn protocol_of(rules: u32) -> Option<Protocol>
    ensures { result ≡ protocol_of rules }
{
    match rules {
        0 => Some(Protocol::JsonRpc),
        1 => Some(Protocol::Lsp),
        2 => Some(Protocol::Mcp),
        3 => Some(Protocol::Mcp20250618),
        4 => Some(Protocol::Mcp20250326),
        5 => Some(Protocol::Mcp20241105),
        _ => None,
    }
}

fn framing_of(framing: u32) -> Option<Framing>
    ensures { result ≡ framing_of framing }
{
    match framing {
        0 => Some(Framing::Frames),
        1 => Some(Framing::Lines),
        2 => Some(Framing::Contents),
        _ => None,
    }
}
