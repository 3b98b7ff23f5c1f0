//! Numbers.

ghost use Rattle.std.specs.Prelude.{ℕ, ◌≡◌, ◌<◌, ◌≤◌, ◌+◌, ◌-◌, ◌^◌, length, get_or, decimal, negsuc, IfOk, IfSome, OnOk, IfErr};
ghost use Rattle.json_texts.specs.Standing.{Stands};
ghost use Rattle.serde_json.specs.Data.{number};
ghost use Rattle.serde_json.specs.View.{number_view};
ghost use Rattle.value_reading.specs.Lexed.{IsRead};
ghost use Rattle.value_reading.specs.declared.unread.Unread.TheVariants.{Unusual};

use crate::passing::byte_at;
use crate::unread::Unread;
use json_texts::value_end;
use serde_json::Number;

/// Whole numbers are read at once while they are below this. One digit more still fits 63 bits.
const ROOM_FOR_A_DIGIT: u64 = 100_000_000_000_000_000;

/// A whole number of so many digits fits 63 bits.
const DIGITS_THAT_FIT: usize = 18;

/// Passes a number.
#[inline(always)]
pub(crate) fn read_number(text: &str, at: &mut usize) -> Result<Number, Unread>
    ensures number { IfOk result
        (λ n. IsRead 0 text.now at.old at.new (number (number_view n))) }
    ensures bounds { OnOk result ((at.old < at.new) × (at.new ≤ length text.now)) }
    ensures err { IfErr result (λ unread. unread ≡ Unusual) }
{
    let Some((number, end)) = number_at(text, *at) else {
        return Err(Unread::Unusual);
    };
    *at = end;
    Ok(number)
}

/// The number that begins there, and its end.
#[inline(always)]
fn number_at(text: &str, from: usize) -> Option<(Number, usize)>
    ensures number { IfSome result
        (λ r. IsRead 0 text.now from r.1 (number (number_view r.0))) }
    ensures bounds { IfSome result (λ r. (from < r.1) × (r.1 ≤ length text.now)) }
{
    let byte = byte_at(text, from);
    if byte < b'-' || byte > b'9' {
        return None;
    }
    if byte == b'-' {
        if let Some((number, end)) = whole_at(text, from + 1) {
            if number > 0 {
                return Some((Number::from(negated(number)), end));
            }
        }
    } else if let Some((number, end)) = whole_at(text, from) {
        return Some((Number::from(number), end));
    }
    any_at(text, from)
}

#[inline(always)]
fn negated(number: u64) -> i64
    requires some { 0 < number }
    requires fits { number < 2 ^ 63 }
    ensures { result ≡ negsuc (number - 1) }
{
    -1 - (number - 1) as i64
}

/// Apart, since few numbers have a fraction, an exponent or many digits. There is none where it is too large for a
/// float.
#[inline(never)]
fn any_at(text: &str, from: usize) -> Option<(Number, usize)>
    requires { (45 ≤ get_or text.now from 0) × (get_or text.now from 0 < 58) }
    ensures number { IfSome result
        (λ r. IsRead 0 text.now from r.1 (number (number_view r.0))) }
    ensures bounds { IfSome result (λ r. (from < r.1) × (r.1 ≤ length text.now)) }
{
    let end = value_end(text.as_bytes(), from, 0)?;
    if byte_at(text, end) >= 128 {
        return None;
    }
    let number = json_reading::read_number(&text[from..end])?;
    Some((number, end))
}

/// The whole number that begins there and isn't below 0, and its end. There is none where a fraction or an exponent
/// follows, or the number may not fit.
#[inline(always)]
pub(crate) fn whole_at(text: &str, from: usize) -> Option<(u64, usize)>
    ensures number { IfSome result (λ r. Stands text.now from (decimal r.0) r.1) }
    ensures size { IfSome result (λ r. r.0 < 2 ^ 63) }
    ensures bounds { IfSome result (λ r. (from < r.1) × (r.1 ≤ length text.now)) }
{
    let mut number = digit_at(text, from);
    if number > 9 {
        return None;
    }
    let mut at = from + 1;
    while number != 0 && at < text.len() {
        let digit = digit_at(text, at);
        if digit > 9 {
            break;
        }
        if number >= ROOM_FOR_A_DIGIT {
            return None;
        }
        number = number * 10 + digit;
        at += 1;
    }
    match byte_at(text, at) {
        b'.' | b'e' | b'E' => None,
        _ => Some((number, at)),
    }
}

/// The end of the same number, which isn't worked out.
#[inline(always)]
pub(crate) fn whole_end(text: &str, from: usize) -> Option<usize>
    ensures number { IfSome result
        (λ end. (n : ℕ) × (n < 2 ^ 63) × Stands text.now from (decimal n) end) }
    ensures bounds { IfSome result (λ end. (from < end) × (end ≤ length text.now)) }
{
    let first = digit_at(text, from);
    if first > 9 {
        return None;
    }
    let last = text.len().min(from + DIGITS_THAT_FIT);
    let mut at = from + 1;
    while first != 0 && at < last {
        if digit_at(text, at) > 9 {
            break;
        }
        at += 1;
    }
    if matches!(byte_at(text, at), b'0'..=b'9' | b'.' | b'e' | b'E') {
        return None;
    }
    Some(at)
}

/// The digit at a place, or more than 9 where there is none.
#[inline(always)]
fn digit_at(text: &str, at: usize) -> u64
    ensures { result ≤ 9 → get_or text.now at 0 ≡ 48 + result }
{
    u64::from(byte_at(text, at).wrapping_sub(b'0'))
}
