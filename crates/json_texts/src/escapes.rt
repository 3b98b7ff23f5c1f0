//! Escapes that have a shorter form, which stand in rows where a text is all of `\u`.

ghost use Rattle.std.specs.Prelude.{◌≡◌, ◌≢◌, ◌≤◌, ◌<◌, ◌+◌, ◌++◌, IfOk, OnOk, IfSome, Some, length, get_or, false};
ghost use Rattle.std.specs.Char.{digit_value, encode_utf8};
ghost use Rattle.json.specs.Text.{code_unit};
ghost use Rattle.json_texts.specs.Compacting.{HasLongEscape, HasCompactPart};

use crate::compact::byte_at;
use crate::room::{Room, STORE};
use std::alloc::AllocError;

/// The value of each byte as a digit of any base up to 36, or 36. To tell digits by compares takes five times as many steps.
static DIGITS: [u8; 256] = [
    36, 36, 36, 36, 36, 36, 36, 36, 36, 36, 36, 36, 36, 36, 36, 36, 36, 36, 36, 36, 36, 36, 36, 36,
    36, 36, 36, 36, 36, 36, 36, 36, 36, 36, 36, 36, 36, 36, 36, 36, 36, 36, 36, 36, 36, 36, 36, 36,
    0, 1, 2, 3, 4, 5, 6, 7, 8, 9, 36, 36, 36, 36, 36, 36, 36, 10, 11, 12, 13, 14, 15, 16, 17, 18,
    19, 20, 21, 22, 23, 24, 25, 26, 27, 28, 29, 30, 31, 32, 33, 34, 35, 36, 36, 36, 36, 36, 36, 10,
    11, 12, 13, 14, 15, 16, 17, 18, 19, 20, 21, 22, 23, 24, 25, 26, 27, 28, 29, 30, 31, 32, 33, 34,
    35, 36, 36, 36, 36, 36, 36, 36, 36, 36, 36, 36, 36, 36, 36, 36, 36, 36, 36, 36, 36, 36, 36, 36,
    36, 36, 36, 36, 36, 36, 36, 36, 36, 36, 36, 36, 36, 36, 36, 36, 36, 36, 36, 36, 36, 36, 36, 36,
    36, 36, 36, 36, 36, 36, 36, 36, 36, 36, 36, 36, 36, 36, 36, 36, 36, 36, 36, 36, 36, 36, 36, 36,
    36, 36, 36, 36, 36, 36, 36, 36, 36, 36, 36, 36, 36, 36, 36, 36, 36, 36, 36, 36, 36, 36, 36, 36,
    36, 36, 36, 36, 36, 36, 36, 36, 36, 36, 36, 36, 36, 36, 36, 36, 36, 36, 36, 36, 36, 36, 36, 36,
    36, 36, 36, 36, 36, 36, 36, 36, 36, 36, 36, 36, 36, 36,
];

/// Appends what the escapes stand for that follow one another there. Gives where something else begins, or an escape that has
/// no shorter form or is rare.
pub(crate) fn append_escapes(text: &[u8], from: usize, out: &mut Room) -> Result<usize, AllocError>
    requires { from ≤ length text.now }
    ensures escapes { IfOk result (λ end. HasCompactPart text.now from out.old out.new end) }
    ensures bounds { IfOk result (λ end. (from ≤ end) × (end ≤ length text.now)) }
{
    let mut at = from;
    while at < text.len() {
        let Some((character, end)) = long_escape(text, at) else {
            return Ok(at);
        };
        append_character(character, out)?;
        at = end;
    }
    Ok(at)
}

#[inline(always)]
fn append_character(character: char, out: &mut Room) -> Result<(), AllocError>
    ensures { OnOk result (out.new ≡ out.old ++ encode_utf8 character) }
{
    let unit = character as u32;
    // (as many bytes as one store moves)
    let mut bytes = [0; STORE];
    if unit < 0x80 {
        bytes[0] = unit as u8;
        return out.append(&bytes, 0, 1);
    }
    if unit < 0x800 {
        bytes[0] = (0xc0 + unit / 64) as u8;
        bytes[1] = (0x80 + unit % 64) as u8;
        return out.append(&bytes, 0, 2);
    }
    if unit < 0x1_0000 {
        bytes[0] = (0xe0 + unit / 4096) as u8;
        bytes[1] = (0x80 + unit / 64 % 64) as u8;
        bytes[2] = (0x80 + unit % 64) as u8;
        return out.append(&bytes, 0, 3);
    }
    bytes[0] = (0xf0 + unit / 0x4_0000) as u8;
    bytes[1] = (0x80 + unit / 4096 % 64) as u8;
    bytes[2] = (0x80 + unit / 64 % 64) as u8;
    bytes[3] = (0x80 + unit % 64) as u8;
    out.append(&bytes, 0, 4)
}

/// What the escape that begins there stands for, and its end. There is none where it has no shorter form, or is rare.
#[inline(always)]
fn long_escape(text: &[u8], at: usize) -> Option<(char, usize)>
    requires { at < length text.now }
    ensures escape { IfSome result (λ e. HasLongEscape text.now at e.0 e.1) }
    ensures bounds { IfSome result (λ e. (at < e.1) × (e.1 ≤ length text.now)) }
{
    if text[at] != b'\\' {
        return None;
    }
    let letter = byte_at(text, at + 1);
    if letter == b'/' {
        return Some(('/', at + 2));
    }
    if letter != b'u' || text.len() - at < 6 {
        return None;
    }
    let unit = four_digits(text, at + 2)?;
    if is_escaped(unit) {
        return None;
    }
    let character = char::from_u32(unit)?;
    Some((character, at + 6))
}

/// Whether the character has an escape in its shortest form too. Most are told by the first compare.
#[inline(always)]
fn is_escaped(unit: u32) -> bool
    ensures { result ≡ false → (32 ≤ unit) × (unit ≢ 34) × (unit ≢ 92) }
{
    unit < 0x80 && (unit < 0x20 || unit == 0x22 || unit == 0x5c)
}

/// The number that four hexadecimal digits spell.
#[inline(always)]
fn four_digits(text: &[u8], at: usize) -> Option<u32>
    requires { at + 4 ≤ length text.now }
    ensures { IfSome result (λ unit. code_unit (get_or text.now at 0) (get_or text.now (at + 1) 0) (get_or text.now (at + 2) 0)
        (get_or text.now (at + 3) 0) ≡ Some unit) }
{
    let (a, b, c, d) = (
        digit(text[at]),
        digit(text[at + 1]),
        digit(text[at + 2]),
        digit(text[at + 3]),
    );
    if (a < 16) & (b < 16) & (c < 16) & (d < 16) {
        Some(a * 4096 + b * 256 + c * 16 + d)
    } else {
        None
    }
}

#[inline(always)]
fn digit(letter: u8) -> u32
    ensures { result ≡ digit_value letter }
{
    DIGITS[letter as usize] as u32
}
