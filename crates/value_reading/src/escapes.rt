//! Escapes in strings (RFC 8259, section 7).

ghost use Rattle.std.specs.Prelude.{◌≡◌, ◌<◌, ◌≤◌, ◌+◌, ◌-◌, length, get_or, Some, IfSome};
ghost use Rattle.std.specs.Char.{digit_value, encode_utf8};
ghost use Rattle.json.specs.Text.{short_escape};
ghost use Rattle.value_reading.specs.Lexed.{HasBytes, HasUnit};

use crate::passing::byte_at;

/// The character that an escape stands for, and the escape's end. There is none where it is no escape, or a half of a
/// surrogate pair.
#[inline(always)]
pub(crate) fn read_escape(text: &str, at: usize) -> Option<(char, usize)>
    requires { get_or text.now at 0 ≡ 92 }
    ensures escape { IfSome result (λ e. HasBytes text.now at (encode_utf8 e.0) e.1) }
    ensures bounds { IfSome result (λ e. (at < e.1) × (e.1 ≤ length text.now)) }
    ensures ascii { IfSome result (λ e. get_or text.now (e.1 - 1) 0 < 128) }
{
    let letter = byte_at(text, at + 1);
    if letter == b'u' {
        return read_digits(text, at);
    }
    let character = short_escape(letter)?;
    Some((character as char, at + 2))
}

/// What one letter stands for behind a backslash.
#[inline(always)]
fn short_escape(letter: u8) -> Option<u8>
    ensures value { IfSome result (λ byte. short_escape letter ≡ Some byte) }
    ensures ascii { IfSome result (λ byte. (byte < 128) × (0 < letter) × (letter < 128)) }
{
    match letter {
        b'"' | b'\\' | b'/' => Some(letter),
        b'b' => Some(8),
        b'f' => Some(12),
        b'n' => Some(b'\n'),
        b'r' => Some(b'\r'),
        b't' => Some(b'\t'),
        _ => None,
    }
}

/// The same of an escape of four digits, or of two such that are a surrogate pair.
fn read_digits(text: &str, at: usize) -> Option<(char, usize)>
    requires backslash { get_or text.now at 0 ≡ 92 }
    requires letter { get_or text.now (at + 1) 0 ≡ 117 }
    ensures escape { IfSome result (λ e. HasBytes text.now at (encode_utf8 e.0) e.1) }
    ensures bounds { IfSome result (λ e. (at < e.1) × (e.1 ≤ length text.now)) }
    ensures ascii { IfSome result (λ e. get_or text.now (e.1 - 1) 0 < 128) }
{
    let unit = four_digits(text, at + 2)?;
    if (0xd800 <= unit) & (unit < 0xdc00) {
        return read_pair(text, at, unit);
    }
    let character = char::from_u32(unit)?;
    Some((character, at + 6))
}

/// The same of an escape of four digits that is the first half of a surrogate pair.
#[inline(never)]
fn read_pair(text: &str, at: usize, high: u32) -> Option<(char, usize)>
    requires within { at + 6 ≤ length text.now }
    requires backslash { get_or text.now at 0 ≡ 92 }
    requires letter { get_or text.now (at + 1) 0 ≡ 117 }
    requires half { (0xd800 ≤ high) × (high < 0xdc00) }
    requires digits { HasUnit text.now (at + 2) high }
    ensures escape { IfSome result (λ e. HasBytes text.now at (encode_utf8 e.0) e.1) }
    ensures bounds { IfSome result (λ e. (at < e.1) × (e.1 ≤ length text.now)) }
    ensures ascii { IfSome result (λ e. get_or text.now (e.1 - 1) 0 < 128) }
{
    if byte_at(text, at + 6) != b'\\' || byte_at(text, at + 7) != b'u' {
        return None;
    }
    let low = four_digits(text, at + 8)?;
    if low < 0xdc00 || low > 0xdfff {
        return None;
    }
    let character = char::from_u32(0x10000 + (high - 0xd800) * 1024 + (low - 0xdc00))?;
    Some((character, at + 12))
}

/// The number that four hexadecimal digits spell.
#[inline(always)]
fn four_digits(text: &str, at: usize) -> Option<u32>
    requires { at ≤ length text.now + 4 }
    ensures value { IfSome result (λ unit. HasUnit text.now at unit) }
    ensures bounds { IfSome result (λ unit. (at + 4 ≤ length text.now) × (unit < 65536)) }
    ensures ascii { IfSome result (λ _. get_or text.now (at + 3) 0 < 128) }
{
    let bytes = text.as_bytes();
    if at + 4 > bytes.len() {
        return None;
    }
    let (a, b, c, d) = (
        digit(bytes[at]),
        digit(bytes[at + 1]),
        digit(bytes[at + 2]),
        digit(bytes[at + 3]),
    );
    if (a < 16) & (b < 16) & (c < 16) & (d < 16) {
        Some(a * 4096 + b * 256 + c * 16 + d)
    } else {
        None
    }
}

#[inline(always)]
fn digit(letter: u8) -> u32
    ensures value { result ≡ digit_value letter }
    ensures ascii { result < 16 → letter < 128 }
{
    match letter {
        b'0'..=b'9' => (letter - b'0') as u32,
        b'a'..=b'z' => (letter - b'a') as u32 + 10,
        b'A'..=b'Z' => (letter - b'A') as u32 + 10,
        _ => 36,
    }
}
