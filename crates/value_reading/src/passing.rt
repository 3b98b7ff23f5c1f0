//! Bytes that have to stand at a place, passed with the blanks before them.

ghost use Rattle.std.specs.Prelude.{◌≡◌, ◌<◌, ◌≤◌, ◌+◌, [], ◌∷◌, length, get_or, map, OnOk, IfOk, if◌then◌else◌, true, false, IfErr};
ghost use Rattle.std.specs.Simd.Lanes.{mask_l};
ghost use Rattle.json.specs.Lex.{operator_lexeme};
ghost use Rattle.json.specs.Word.{is_operator, is_space};
ghost use Rattle.json_texts.specs.Standing.{Stands};
ghost use Rattle.value_reading.specs.Lexed.{Lexed, EndsWord, HasBlanks, is_no_space};
ghost use Rattle.value_reading.specs.declared.unread.Unread.TheVariants.{Unusual};

use crate::unread::Unread;
use std::simd::prelude::*;

/// Passes what stands behind an element or a member: a comma, or the bracket that ends them all.
#[inline(always)]
pub fn is_over(text: &str, at: &mut usize, bracket: u8) -> Result<bool, Unread>
    requires { is_operator bracket ≡ true }
    ensures byte { IfOk result (λ over. Lexed text.now at.old
        (operator_lexeme (if over then bracket else 44) ∷ []) at.new) }
    ensures ends { OnOk result (EndsWord text.now at.old) }
    ensures bounds { OnOk result ((at.old < at.new) × (at.new ≤ length text.now)) }
    ensures err { IfErr result (λ unread. unread ≡ Unusual) }
{
    let byte = next_byte(text, at);
    if byte == b',' {
        *at += 1;
        return Ok(false);
    }
    if byte == bracket {
        *at += 1;
        return Ok(true);
    }
    Err(Unread::Unusual)
}

/// Passes this byte, where it stands there.
#[inline(always)]
pub fn pass(text: &str, at: &mut usize, byte: u8) -> Result<(), Unread>
    requires { is_operator byte ≡ true }
    ensures byte { OnOk result (Lexed text.now at.old (operator_lexeme byte ∷ []) at.new) }
    ensures bounds { OnOk result ((at.old < at.new) × (at.new ≤ length text.now)) }
    ensures err { IfErr result (λ unread. unread ≡ Unusual) }
{
    if next_byte(text, at) != byte {
        return Err(Unread::Unusual);
    }
    *at += 1;
    Ok(())
}

/// Passes these bytes, where they stand there.
pub(crate) fn pass_word(text: &str, at: &mut usize, word: &[u8]) -> Result<(), Unread>
    ensures word { OnOk result (Stands text.now at.old word.now at.new) }
    ensures place { OnOk result (at.new ≡ at.old + length word.now) }
    ensures within { OnOk result (at.new ≤ length text.now) }
    ensures err { IfErr result (λ unread. unread ≡ Unusual) }
{
    let bytes = text.as_bytes();
    let from = *at;
    if from > bytes.len() {
        return Err(Unread::Unusual);
    }
    if bytes[from..].starts_with(word) {
        *at = from + word.len();
        return Ok(());
    }
    Err(Unread::Unusual)
}

/// The first byte from there on that is no blank, or 0 past the end. The blanks before it are passed.
#[inline(always)]
pub fn next_byte(text: &str, at: &mut usize) -> u8
    ensures byte { result ≡ get_or text.now at.new 0 }
    ensures blanks { HasBlanks text.now at.old at.new }
    ensures stop { is_space result ≡ false }
{
    let byte = byte_at(text, *at);
    if byte > b' ' {
        return byte;
    }
    *at = blanks_end(text, *at);
    byte_at(text, *at)
}

/// The end of the blanks that stand there. Indented lines begin with spaces in rows. Apart, since a compact text has none.
#[inline(never)]
fn blanks_end(text: &str, from: usize) -> usize
    ensures blanks { HasBlanks text.now from result }
    ensures stop { is_space (get_or text.now result 0) ≡ false }
{
    let bytes = text.as_bytes();
    let mut at = from;
    while at < bytes.len() && is_blank(bytes[at]) {
        at = spaces_end(bytes, at + 1);
    }
    at
}

/// The end of the spaces that stand there, of which at most 16 are passed.
#[inline(always)]
fn spaces_end(bytes: &[u8], from: usize) -> usize
    requires { from ≤ length bytes.now }
    ensures { HasBlanks bytes.now from result }
{
    if bytes.len() - from < 16 || bytes[from] != b' ' {
        return from;
    }
    let others = no_spaces(u8x16::from_slice(&bytes[from..]));
    if others == 0 {
        return from + 16;
    }
    from + others.trailing_zeros() as usize
}

#[inline(always)]
fn no_spaces(v: u8x16) -> u64
    ensures { result ≡ mask_l (map is_no_space v) }
{
    v.simd_ne(u8x16::splat(b' ')).to_bitmask()
}

#[inline(always)]
fn is_blank(byte: u8) -> bool
    ensures { result ≡ is_space byte }
{
    matches!(byte, b' ' | b'\t' | b'\n' | b'\r')
}

/// The byte at a place, or 0 past the end.
#[inline(always)]
pub(crate) fn byte_at(text: &str, at: usize) -> u8
    ensures { result ≡ get_or text.now at 0 }
{
    let bytes = text.as_bytes();
    if at < bytes.len() { bytes[at] } else { 0 }
}
