//! The size of the head that most frames have, known without a search for the ends of its lines.

ghost use Rattle.std.specs.Prelude.{◌≡◌, ◌≤◌, IfSome, length};
ghost use Rattle.content_streams.specs.Inner.Heads.{head_bytes};

use crate::under_way::HeadStage;

/// How many bytes the head has, if the bytes begin with `Content-Length: N` CR LF CR LF. What it begins and ends with is
/// compared as arrays, which takes a few words; a `starts_with` would be a call.
#[inline(always)]
pub(crate) fn usual_head(bytes: &[u8]) -> Option<usize>
    ensures whole { IfSome result (λ size. head_bytes HeadStage.LineStart bytes.now ≡ (size, HeadStage.Whole)) }
    ensures most { IfSome result (λ size. size ≤ length bytes.now) }
{
    let words = bytes.first_chunk::<16>()?;
    if *words != *b"Content-Length: " {
        return None;
    }
    let mut at = 16;
    while at < bytes.len() && bytes[at].is_ascii_digit() {
        at += 1;
    }
    let end = bytes[at..].first_chunk::<4>()?;
    if *end == *b"\r\n\r\n" {
        Some(at + 4)
    } else {
        None
    }
}
