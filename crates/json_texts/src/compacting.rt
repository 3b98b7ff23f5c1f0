//! Parts of texts that aren't compact, appended in their compact form.

ghost use Rattle.std.specs.Prelude.{◌≡◌, ◌≤◌, ◌<◌, ◌+◌, ◌++◌, IfOk, OnOk, IfSome, IsTrue, Some, List, ℕ, length, get_or, drop, slice_range, map, not, ◌==◌, true};
ghost use Rattle.std.specs.List.{prefix_len, AllByRecursion};
ghost use Rattle.std.specs.Char.{is_ascii_digit};
ghost use Rattle.std.specs.Simd.Lanes.{mask_l};
ghost use Rattle.json.specs.Run.{is_plain};
ghost use Rattle.json.specs.Lex.{Lexeme, lex, between};
ghost use Rattle.json.specs.Print.{IsNumber};
ghost use Rattle.json.specs.Word.{is_space, is_operator, ends_word};
ghost use Rattle.json_texts.specs.Compacting.{HasCompactString, With};
ghost use Rattle.json_texts.specs.Naturals.{with_commas};

use crate::compact::{byte_at, is_digit, shortest_end};
use crate::escapes::append_escapes;
use crate::naturals::digits_end;
use crate::plain::near_stop;
use crate::room::{Room, STORE};
use std::alloc::AllocError;
use std::simd::prelude::*;

/// Passes the blanks that begin there, where there are any, once what was kept is appended. Gives where they end, and where
/// the bytes begin that aren't appended yet.
#[inline(always)]
pub(crate) fn past_blanks(
    text: &[u8],
    kept: usize,
    from: usize,
    out: &mut Room,
) -> Result<(usize, usize), AllocError>
    requires { (kept ≤ from) × (from ≤ length text.now) }
    ensures blanks { IfOk result (λ r. r.0 ≡ from + prefix_len is_space (drop from text.now)) }
    ensures written { IfOk result (λ r. With out.new text.now r.1 r.0 ≡ With out.old text.now kept from) }
    ensures bounds { IfOk result (λ r. (r.1 ≤ r.0) × (from ≤ r.0) × (r.0 ≤ length text.now)) }
{
    let first = byte_at(text, from);
    // (This alone tells most bytes.)
    if first > b' ' {
        return Ok((from, kept));
    }
    if !is_blank(first) {
        return Ok((from, kept));
    }
    out.append(text, kept, from)?;
    let end = blanks_end(text, from + 1);
    Ok((end, end))
}

/// The end of the spaces that begin there, as far as looks at 16 bytes show it: many stand at the beginning of a line.
#[inline(never)]
fn spaces_end(text: &[u8], from: usize) -> usize
    requires { from ≤ length text.now }
    ensures value { from + prefix_len is_space (drop from text.now) ≡ result + prefix_len is_space (drop result text.now) }
    ensures bounds { (from ≤ result) × (result ≤ length text.now) }
{
    let mut at = from;
    while text.len() - at >= 16 {
        let others = others_than_spaces(u8x16::from_slice(&text[at..]));
        if others != 0 {
            return at + others.trailing_zeros() as usize;
        }
        at += 16;
    }
    at
}

#[inline(always)]
fn others_than_spaces(some: u8x16) -> u64
    ensures { result ≡ mask_l (map (λ x. not (x == 32)) some) }
{
    some.simd_ne(u8x16::splat(b' ')).to_bitmask()
}

/// Appends the integers without a sign that follow one another in an array, each with its comma, and passes the blanks
/// behind them. Gives where something else begins, or the text's last bytes.
#[inline(never)]
pub(crate) fn append_naturals(text: &[u8], from: usize, out: &mut Room) -> Result<usize, AllocError>
    requires { from ≤ length text.now }
    ensures read { IfOk result (λ end. (lexemes : List Lexeme) × (numbers : List (List ℕ)) ×
        AllByRecursion IsNumber numbers × (out.new ≡ out.old ++ with_commas numbers) ×
        (lex between (drop from text.now) ≡ lexemes ++ lex between (drop end text.now)) ×
        ((rest : List ℕ) → lex between (with_commas numbers ++ rest) ≡ lexemes ++ lex between rest)) }
    ensures bounds { IfOk result (λ end. (from ≤ end) × (end ≤ length text.now)) }
{
    let mut at = from;
    while text.len() - at >= STORE {
        let Some(comma) = comma_behind(text, at) else {
            return Ok(at);
        };
        out.append(text, at, comma + 1)?;
        at = gap_end(text, comma + 1);
    }
    Ok(at)
}

/// The comma behind an integer without a sign. One or two digits are told without a look at more bytes.
#[inline(always)]
fn comma_behind(text: &[u8], from: usize) -> Option<usize>
    requires { from + STORE ≤ length text.now }
    ensures digits { IfSome result (λ comma. comma ≡ from + prefix_len is_ascii_digit (drop from text.now)) }
    ensures alone { IfSome result (λ comma. get_or text.now from 0 ≡ 48 → comma ≡ from + 1) }
    ensures comma { IfSome result (λ comma. get_or text.now comma 0 ≡ 44) }
    ensures bounds { IfSome result (λ comma. (from < comma) × (comma < length text.now)) }
{
    let first = text[from];
    if !is_digit(first) {
        return None;
    }
    if text[from + 1] == b',' {
        return Some(from + 1);
    }
    // (A zero is no first digit of several.)
    if first == b'0' {
        return None;
    }
    if is_digit(text[from + 1]) & (text[from + 2] == b',') {
        return Some(from + 2);
    }
    let end = digits_end(text, from);
    if byte_at(text, end) == b',' {
        Some(end)
    } else {
        None
    }
}

/// The end of the blanks that begin there. Most often there is one.
#[inline(always)]
fn gap_end(text: &[u8], from: usize) -> usize
    requires { from ≤ length text.now }
    ensures value { result ≡ from + prefix_len is_space (drop from text.now) }
    ensures bound { result ≤ length text.now }
{
    if byte_at(text, from) == b' ' {
        blanks_end(text, from + 1)
    } else {
        blanks_end(text, from)
    }
}

/// The end of the blanks that begin there. Most often there is none.
#[inline(always)]
fn blanks_end(text: &[u8], from: usize) -> usize
    requires { from ≤ length text.now }
    ensures value { result ≡ from + prefix_len is_space (drop from text.now) }
    ensures bound { result ≤ length text.now }
{
    if byte_at(text, from) > b' ' {
        return from;
    }
    blanks_end_slowly(text, spaces_end(text, from))
}

/// The same one by one.
#[inline(always)]
fn blanks_end_slowly(text: &[u8], from: usize) -> usize
    requires { from ≤ length text.now }
    ensures value { result ≡ from + prefix_len is_space (drop from text.now) }
    ensures bound { result ≤ length text.now }
{
    let mut at = from;
    while at < text.len() && is_blank(text[at]) {
        at += 1;
    }
    at
}

/// Appends the string whose first quote stands before `from`, but for its last bytes. Gives its end, and where the bytes
/// begin that aren't appended yet.
#[inline(always)]
pub(crate) fn append_string(
    text: &[u8],
    kept: usize,
    from: usize,
    out: &mut Room,
) -> Result<Option<(usize, usize)>, AllocError>
    requires { (kept ≤ from) × (from ≤ length text.now) }
    ensures string { IfOk result (λ r. IfSome r (λ ends. HasCompactString text.now from
        (out.old ++ slice_range text.now kept from)
        (out.new ++ slice_range text.now ends.1 ends.0) ends.0)) }
    ensures bounds { IfOk result (λ r. IfSome r (λ ends. (ends.1 ≤ ends.0) × (from < ends.0) × (ends.0 ≤ length text.now))) }
{
    match near_quote(text, from) {
        Some(quote) => Ok(Some((quote + 1, kept))),
        None => {
            let Some((end, kept)) = append_any_string(text, kept, from, out)? else {
                return Ok(None);
            };
            Ok(Some((end, kept)))
        }
    }
}

/// The place of the closing quote, where one look shows it and no escape comes before.
#[inline(always)]
fn near_quote(text: &[u8], from: usize) -> Option<usize>
    requires { from ≤ length text.now }
    ensures value { IfSome result (λ quote. quote ≡ from + prefix_len is_plain (drop from text.now)) }
    ensures quote { IfSome result (λ quote. get_or text.now quote 0 ≡ 34) }
    ensures within { IfSome result (λ quote. quote < length text.now) }
{
    let stop = near_stop(text, from)?;
    if text[stop] == b'"' { Some(stop) } else { None }
}

/// The same of any string.
#[inline(never)]
fn append_any_string(
    text: &[u8],
    kept: usize,
    from: usize,
    out: &mut Room,
) -> Result<Option<(usize, usize)>, AllocError>
    requires { (kept ≤ from) × (from ≤ length text.now) }
    ensures string { IfOk result (λ r. IfSome r (λ ends. HasCompactString text.now from
        (out.old ++ slice_range text.now kept from)
        (out.new ++ slice_range text.now ends.1 ends.0) ends.0)) }
    ensures bounds { IfOk result (λ r. IfSome r (λ ends. (ends.1 ≤ ends.0) × (from < ends.0) × (ends.0 ≤ length text.now))) }
{
    let mut kept = kept;
    let mut at = from;
    while at < text.len() {
        let Some(stop) = shortest_end(text, at) else {
            return Ok(None);
        };
        if text[stop] == b'"' {
            return Ok(Some((stop + 1, kept)));
        }
        out.append(text, kept, stop)?;
        let end = append_escapes(text, stop, out)?;
        if end == stop {
            return Ok(None);
        }
        at = end;
        kept = end;
    }
    Ok(None)
}

/// The end of a word, and the same that was kept, where the word ends there.
#[inline(always)]
pub(crate) fn ended_word(text: &[u8], kept: usize, end: Option<usize>) -> Option<(usize, usize)>
    requires { IfSome end (λ e. e ≤ length text.now) }
    ensures end { IfSome result (λ r. end ≡ Some r.0) }
    ensures kept { IfSome result (λ r. r.1 ≡ kept) }
    ensures ended { IfSome result (λ r. ends_word (drop r.0 text.now) ≡ true) }
{
    let end = end?;
    if ends_word(text, end) {
        Some((end, kept))
    } else {
        None
    }
}

/// Whether a word that reaches this far ends there.
#[inline(always)]
fn ends_word(text: &[u8], at: usize) -> bool
    requires { at ≤ length text.now }
    ensures { IsTrue result → ends_word (drop at text.now) ≡ true }
{
    if at == text.len() {
        return true;
    }
    is_punctuation(text[at]) || is_blank(text[at])
}

#[inline(always)]
fn is_blank(byte: u8) -> bool
    ensures { result ≡ is_space byte }
{
    byte == b' ' || byte <= b'\r' && matches!(byte, b'\t' | b'\n' | b'\r')
}

#[inline(always)]
fn is_punctuation(byte: u8) -> bool
    ensures { result ≡ is_operator byte }
{
    matches!(byte, b'{' | b'}' | b'[' | b']' | b':' | b',')
}
