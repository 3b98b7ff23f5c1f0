//! Compact values, told apart from others without a look at their tokens.

ghost use Rattle.std.specs.Prelude.{◌≡◌, ◌≢◌, ◌≤◌, ◌<◌, ◌+◌, ◌-◌, ◌||◌, ◌==◌, Some, IfSome, IsTrue, ◌∷◌, length, get_or, drop, slice_range, true, false};
ghost use Rattle.std.specs.List.{prefix_len};
ghost use Rattle.std.specs.Char.{is_ascii_digit};
ghost use Rattle.std.specs.Str.{IsUtf8};
ghost use Rattle.json.specs.Print.{IsNumber, escape};
ghost use Rattle.json_texts.specs.Texts.{IsJsonText};
ghost use Rattle.json_texts.specs.Standing.{Stands, HasString, HasNumber, HasValue, HasItems, HasMembers, HasName, is_escape_letter};
ghost use Rattle.json_texts.specs.Compacting.{HasShortest};
ghost use Rattle.json_texts.specs.Found.{FindsValue, FindsItems, FindsMembers, FindsName, FindsString, FindsQuote, FindsNumber, FindsWord, is_of_number, after_natural};
ghost use Rattle.json_texts.specs.Naturals.{HasNumberItems, HasLastNumbers};
ghost use Rattle.json.specs.Word.{after_number};

use crate::json_text::MOST_DEPTH_OUT;
use crate::naturals::{digits_end, past_naturals};
use crate::plain::next_stop;

/// Whether the text is a `JsonText`. It may be one also where this isn't seen.
pub(crate) fn is_compact(text: &str) -> bool
    ensures { IsTrue result → IsJsonText text.now }
{
    match value_end(text.as_bytes(), 0, MOST_DEPTH_OUT) {
        Some(end) => end == text.len(),
        None => false,
    }
}

/// The end of the compact value that begins there. There is none where it isn't compact, nests more than `levels` deep, or
/// has an escape of four digits. Else it is found, if a number would end there: at the text's end, or before a byte that
/// numbers aren't written with.
#[cycle(value)]
pub fn value_end(text: &[u8], from: usize, levels: usize) -> Option<usize>
    requires { from ≤ length text.now }
    ensures value { IfSome result (λ end. HasValue levels text.now from end) }
    ensures found { FindsValue levels text.now from result }
    ensures bounds { IfSome result (λ end. (from < end) × (end ≤ length text.now)) }
{
    match byte_at(text, from) {
        b'"' => string_end(text, from + 1),
        b'[' => {
            if levels == 0 {
                return None;
            }
            items_end(text, from + 1, levels - 1)
        }
        b'{' => {
            if levels == 0 {
                return None;
            }
            members_end(text, from + 1, levels - 1)
        }
        b't' => word_end(text, from, b"true"),
        b'f' => word_end(text, from, b"false"),
        b'n' => word_end(text, from, b"null"),
        _ => number_end(text, from),
    }
}

#[cycle(value)]
fn items_end(text: &[u8], from: usize, levels: usize) -> Option<usize>
    requires { from ≤ length text.now }
    ensures items { IfSome result (λ end. HasItems levels text.now from end) }
    ensures found { FindsItems levels text.now from result }
    ensures bounds { IfSome result (λ end. (from < end) × (end ≤ length text.now)) }
{
    if byte_at(text, from) == b']' {
        return Some(from + 1);
    }
    let (first, is_closed) = past_first_naturals(text, from);
    if is_closed {
        return Some(first);
    }
    let mut at = first;
    while at < text.len() {
        let end = part_end(text, at, levels)?;
        let next = byte_at(text, end);
        if next == b']' {
            return Some(end + 1);
        }
        if next != b',' {
            return None;
        }
        at = end + 1;
    }
    None
}

#[cycle(value)]
fn members_end(text: &[u8], from: usize, levels: usize) -> Option<usize>
    requires { from ≤ length text.now }
    ensures members { IfSome result (λ end. HasMembers levels text.now from end) }
    ensures found { FindsMembers levels text.now from result }
    ensures bounds { IfSome result (λ end. (from < end) × (end ≤ length text.now)) }
{
    if byte_at(text, from) == b'}' {
        return Some(from + 1);
    }
    let mut at = from;
    while at < text.len() {
        let name_end = name_end(text, at)?;
        let end = part_end(text, name_end, levels)?;
        let next = byte_at(text, end);
        if next == b'}' {
            return Some(end + 1);
        }
        if next != b',' {
            return None;
        }
        at = end + 1;
    }
    None
}

/// Past the integers without a sign that an array begins with, as `past_naturals`; without a call where there are none.
#[inline(always)]
fn past_first_naturals(text: &[u8], from: usize) -> (usize, bool)
    requires { from ≤ length text.now }
    ensures items { result.1 ≡ false → HasNumberItems text.now from result.0 }
    ensures last { IsTrue result.1 → HasLastNumbers text.now from result.0 }
    ensures bounds { (from ≤ result.0) × (result.0 ≤ length text.now) }
{
    if is_digit(byte_at(text, from)) {
        past_naturals(text, from)
    } else {
        (from, false)
    }
}

/// The same of an item, or of a member's value. A whole number, of which a text can have many, is passed over without a call.
#[cycle(value)]
#[inline(always)]
fn part_end(text: &[u8], from: usize, levels: usize) -> Option<usize>
    requires { from ≤ length text.now }
    ensures value { IfSome result (λ end. HasValue levels text.now from end) }
    ensures found { FindsValue levels text.now from result }
    ensures bounds { IfSome result (λ end. (from < end) × (end ≤ length text.now)) }
{
    match natural_end(text, from) {
        Some(end) => Some(end),
        None => value_end(text, from, levels),
    }
}

/// The end of the name of a member, with its colon. There is none where it isn't compact, or has an escape of four digits.
pub fn name_end(text: &[u8], from: usize) -> Option<usize>
    requires { from ≤ length text.now }
    ensures name { IfSome result (λ end. HasName text.now from end) }
    ensures found { FindsName text.now from result }
    ensures colon { IfSome result (λ end. get_or text.now (end - 1) 0 ≡ 58) }
    ensures bounds { IfSome result (λ end. (from + 3 ≤ end) × (end ≤ length text.now)) }
{
    if byte_at(text, from) != b'"' {
        return None;
    }
    let end = string_end(text, from + 1)?;
    if byte_at(text, end) != b':' {
        return None;
    }
    Some(end + 1)
}

/// The end of a string whose first quote stands before it.
fn string_end(text: &[u8], from: usize) -> Option<usize>
    requires { from ≤ length text.now }
    ensures string { IfSome result (λ end. HasString text.now from end) }
    ensures found { FindsString text.now from result }
    ensures bounds { IfSome result (λ end. (from < end) × (end ≤ length text.now)) }
{
    let end = shortest_end(text, from)?;
    if byte_at(text, end) == b'"' {
        Some(end + 1)
    } else {
        None
    }
}

/// In a string, the place of the closing quote or of the first escape that has a shorter form. There is none where neither
/// comes.
pub(crate) fn shortest_end(text: &[u8], from: usize) -> Option<usize>
    requires { from ≤ length text.now }
    ensures part { IfSome result (λ end. HasShortest text.now from end) }
    ensures found { FindsQuote text.now from result }
    ensures stop { IfSome result (λ end. get_or text.now end 0 ≢ 34 → get_or text.now end 0 ≡ 92) }
    ensures bounds { IfSome result (λ end. (from ≤ end) × (end < length text.now)) }
{
    let mut at = from;
    let mut seen = 0;
    while at < text.len() {
        let (stop, ahead) = next_stop(text, at, seen);
        let byte = byte_at(text, stop);
        if byte == b'"' {
            return Some(stop);
        }
        if byte != b'\\' {
            return None;
        }
        if !is_short_escape(byte_at(text, stop + 1)) {
            return Some(stop);
        }
        at = stop + 2;
        seen = ahead >> 2;
    }
    None
}

/// Whether a backslash and this letter are the shortest escape of a byte.
#[inline(always)]
fn is_short_escape(letter: u8) -> bool
    ensures { result ≡ is_escape_letter letter }
{
    matches!(letter, b'"' | b'\\' | b'b' | b'f' | b'n' | b'r' | b't')
}

pub(crate) fn word_end(text: &[u8], from: usize, word: &[u8]) -> Option<usize>
    requires { from ≤ length text.now }
    ensures word { IfSome result (λ end. Stands text.now from word.now end) }
    ensures found { FindsWord text.now from word.now result }
    ensures bounds { IfSome result (λ end. end ≡ from + length word.now) }
    ensures within { IfSome result (λ end. end ≤ length text.now) }
{
    if text[from..].starts_with(word) {
        Some(from + word.len())
    } else {
        None
    }
}

#[inline(always)]
pub(crate) fn number_end(text: &[u8], from: usize) -> Option<usize>
    requires { from ≤ length text.now }
    ensures number { IfSome result (λ end. HasNumber text.now from end) }
    ensures found { FindsNumber text.now from result }
    ensures bounds { IfSome result (λ end. (from < end) × (end ≤ length text.now)) }
{
    if !begins_number(byte_at(text, from)) {
        return None;
    }
    match whole_end(text, from) {
        Some(end) => Some(end),
        None => any_number_end(text, from),
    }
}

#[inline(always)]
fn begins_number(byte: u8) -> bool
    ensures { result ≡ (is_ascii_digit byte || (byte == 45)) }
{
    (byte >= b'0') & (byte <= b'9') | (byte == b'-')
}

#[inline(always)]
pub(crate) fn is_digit(byte: u8) -> bool
    ensures { result ≡ is_ascii_digit byte }
{
    byte.is_ascii_digit()
}

/// The end of a whole number. There is none where a fraction or an exponent may follow.
#[inline(always)]
fn whole_end(text: &[u8], from: usize) -> Option<usize>
    requires { from ≤ length text.now }
    ensures number { IfSome result (λ end. HasNumber text.now from end) }
    ensures rest { IfSome result (λ end. after_number (drop from text.now) ≡ Some (drop end text.now)) }
    ensures bounds { IfSome result (λ end. (from < end) × (end ≤ length text.now)) }
{
    if byte_at(text, from) == b'-' {
        return natural_end(text, from + 1);
    }
    natural_end(text, from)
}

/// The same of one without a sign.
#[inline(always)]
pub(crate) fn natural_end(text: &[u8], from: usize) -> Option<usize>
    requires { from ≤ length text.now }
    ensures number { IfSome result (λ end. IsNumber (slice_range text.now from end)) }
    ensures signed { IfSome result (λ end. IsNumber (45 ∷ slice_range text.now from end)) }
    ensures rest { IfSome result (λ end. after_natural (drop from text.now) ≡ Some (drop end text.now)) }
    ensures digit { IfSome result (λ _. is_ascii_digit (get_or text.now from 0) ≡ true) }
    ensures bounds { IfSome result (λ end. (from < end) × (end ≤ length text.now)) }
{
    let end = digits_end(text, from);
    if end == from {
        return None;
    }
    if byte_at(text, from) == b'0' && end != from + 1 {
        return None;
    }
    match byte_at(text, end) {
        b'.' | b'e' | b'E' => None,
        _ => Some(end),
    }
}

/// Apart, since few numbers have a fraction or an exponent.
#[inline(never)]
fn any_number_end(text: &[u8], from: usize) -> Option<usize>
    requires { from ≤ length text.now }
    ensures number { IfSome result (λ end. HasNumber text.now from end) }
    ensures found { FindsNumber text.now from result }
    ensures bounds { IfSome result (λ end. (from < end) × (end ≤ length text.now)) }
{
    let mut at = from;
    while at < text.len() && is_of_number(text[at]) {
        at += 1;
    }
    let number = unsafe { std::str::from_utf8_unchecked(&text[from..at]) };
    if json::is_number(number) {
        Some(at)
    } else {
        None
    }
}

#[inline(always)]
fn is_of_number(byte: u8) -> bool
    ensures value { result ≡ is_of_number byte }
    ensures ascii { IsTrue result → byte < 128 }
{
    (byte >= b'0') & (byte <= b'9')
        | (byte == b'-')
        | (byte == b'.')
        | (byte == b'e')
        | (byte == b'E')
        | (byte == b'+')
}

/// The byte at a place, or 0 past the end.
#[inline(always)]
pub(crate) fn byte_at(text: &[u8], at: usize) -> u8
    ensures { result ≡ get_or text.now at 0 }
{
    if at < text.len() { text[at] } else { 0 }
}
