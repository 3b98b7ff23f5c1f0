//! How much a peer takes.

ghost use Rattle.std.specs.Prelude.{◌≡◌, ◌≤◌, ◌↔◌, IsSome, IfSome};
ghost use Rattle.lsp_frames.specs.declared.limits.TheConstants.{LARGEST_CONTENT};
ghost use Rattle.rpc_messages.specs.declared.key.TheConstants.{MOST_NUMBERS};

use lsp_frames::LARGEST_CONTENT;
use rpc_messages::MOST_NUMBERS;

/// The greatest content of a frame and the greatest count of numbered calls that a peer takes.
#[derive(Clone, Copy, Debug, PartialEq, Eq)]
pub struct Limits {
    /// The greatest content of a frame, in bytes.
    pub content: u32,
    /// How many calls (requests and notifications) are taken before the input ends.
    pub numbers: u32,
    pub ghost content_in_range: { content ≤ LARGEST_CONTENT },
    pub ghost numbers_in_range: { numbers ≤ MOST_NUMBERS },
}

impl Limits {
    /// The greatest content that any limits allow, in bytes.
    pub const GREATEST_CONTENT: u32 = LARGEST_CONTENT;

    /// The greatest count of calls that any limits allow.
    pub const GREATEST_NUMBERS: u32 = MOST_NUMBERS;

    /// Contents of 16,777,216 bytes and 1,000,000 calls.
    pub fn standard() -> Limits
        ensures content { result.content ≡ LARGEST_CONTENT }
        ensures numbers { result.numbers ≡ MOST_NUMBERS }
    {
        Limits {
            content: Self::GREATEST_CONTENT,
            numbers: Self::GREATEST_NUMBERS,
        }
    }

    /// Limits of `content` bytes and `numbers` calls, where they are at most the standard ones.
    pub fn new(content: u32, numbers: u32) -> Option<Limits>
        ensures allowed { IsSome result ↔ ((content ≤ LARGEST_CONTENT) × (numbers ≤ MOST_NUMBERS)) }
        ensures value { IfSome result (λ limits.
            (limits.content ≡ content) × (limits.numbers ≡ numbers)) }
    {
        if content > Self::GREATEST_CONTENT || numbers > Self::GREATEST_NUMBERS {
            return None;
        }
        Some(Limits { content, numbers })
    }
}
