//! The head that most frames have, recognised in one look.

ghost use Rattle.std.specs.Prelude.{◌≡◌, ◌<◌, ◌≤◌, IfSome, drop, length, false};
ghost use Rattle.lsp_frames.specs.Heads.{Ends, head_at};

/// Lengths of more digits are left to the reader of lines. No content has more but for leading zeros.
const MOST_DIGITS: usize = 8;

/// The length of the content and the place where it begins, if the bytes begin with `Content-Length: N` CR LF CR LF. There
/// is none where they begin another way, or a fault may be shown. What the head begins and ends with is compared as
/// arrays, which takes a few words; a `starts_with` would be a call.
#[inline(always)]
pub(crate) fn usual_head(limit: u32, bytes: &[u8]) -> Option<(u32, usize)>
    ensures head { IfSome result
        (λ head. head_at limit bytes.now ≡ Ends head.0 false (drop head.1 bytes.now)) }
    ensures place { IfSome result (λ head. (0 < head.1) × (head.1 ≤ length bytes.now)) }
{
    let words = bytes.first_chunk::<16>()?;
    if *words != *b"Content-Length: " {
        return None;
    }
    let value = &bytes[16..];
    let most = value.len().min(MOST_DIGITS);
    let mut size = 0;
    let mut digits = 0;
    while digits < most && value[digits].is_ascii_digit() {
        size = size * 10 + u32::from(value[digits] - b'0');
        digits += 1;
    }
    if digits == 0 || size > limit {
        return None;
    }
    let end = value[digits..].first_chunk::<4>()?;
    if *end == *b"\r\n\r\n" {
        Some((size, 16 + digits + 4))
    } else {
        None
    }
}
