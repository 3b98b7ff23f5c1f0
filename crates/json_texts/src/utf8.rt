//! Bytes that are UTF-8, told apart from others.

ghost use Rattle.std.specs.Prelude.{◌≡◌, MatchOption};
ghost use Rattle.std.specs.Str.{IsUtf8};

/// The text that the bytes are. There is none where they aren't UTF-8. Most are ASCII throughout, which takes fewer steps to
/// see. The other test goes by compares, since the processors that we build for look up no bytes in a register.
pub fn utf8_text(bytes: &[u8]) -> Option<&str>
    ensures { MatchOption result (¬ (IsUtf8 bytes.now)) (λ text. (text.now ≡ bytes.now) × IsUtf8 bytes.now) }
{
    if bytes.is_ascii() {
        return Some(unsafe { std::str::from_utf8_unchecked(bytes) });
    }
    match simdutf8::from_utf8_baseline(bytes) {
        Ok(text) => Some(text),
        Err(_) => None,
    }
}
