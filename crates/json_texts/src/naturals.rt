//! Integers without a sign, of which an array can have many, as semantic tokens do: 16 bytes are passed at a time.

ghost use Rattle.std.specs.Prelude.{◌≡◌, ◌≢◌, ◌≤◌, ◌<◌, ◌+◌, ◌-◌, ◌==◌, IsTrue, false, not, drop, get_or, length, map};
ghost use Rattle.std.specs.List.{prefix_len};
ghost use Rattle.std.specs.Char.{is_ascii_digit};
ghost use Rattle.std.specs.Simd.Lanes.{mask_l};
ghost use Rattle.json_texts.specs.Naturals.{HasNumberItems, HasLastNumbers};

use crate::compact::{byte_at, natural_end};
use std::simd::prelude::*;

/// A look that passes fewer of its 16 bytes is the last for now: integers are long there, or other items come.
const FEW: usize = 8;

/// How many bytes are passed one by one before the next look.
const LOOK_AGAIN: usize = 64;

/// From the beginning of an item past each one that is an integer without a sign. Gives the place behind the comma of
/// the last of these, or behind the bracket that closes the array, and whether it is closed.
#[inline(never)]
pub(crate) fn past_naturals(text: &[u8], from: usize) -> (usize, bool)
    requires { from ≤ length text.now }
    ensures items { result.1 ≡ false → HasNumberItems text.now from result.0 }
    ensures last { IsTrue result.1 → HasLastNumbers text.now from result.0 }
    ensures bounds { (from ≤ result.0) × (result.0 ≤ length text.now) }
{
    let mut at = from;
    let mut due = from;
    while at < text.len() {
        let looks = at >= due;
        let (item, is_closed) = past_due(text, at, looks);
        if is_closed {
            return (item, true);
        }
        if looks {
            due = item + LOOK_AGAIN;
        }
        let Some(end) = natural_end(text, item) else {
            return (item, false);
        };
        let next = byte_at(text, end);
        if next == b']' {
            return (end + 1, true);
        }
        if next != b',' {
            return (item, false);
        }
        at = end + 1;
    }
    (at, false)
}

/// The same by looks where one is due, and else past nothing.
#[inline(always)]
fn past_due(text: &[u8], from: usize, looks: bool) -> (usize, bool)
    requires { from ≤ length text.now }
    ensures items { result.1 ≡ false → HasNumberItems text.now from result.0 }
    ensures last { IsTrue result.1 → HasLastNumbers text.now from result.0 }
    ensures bounds { (from ≤ result.0) × (result.0 ≤ length text.now) }
{
    if looks {
        past_seen(text, from)
    } else {
        (from, false)
    }
}

/// The same, as far as looks at 16 bytes show it.
#[inline(always)]
fn past_seen(text: &[u8], from: usize) -> (usize, bool)
    requires { from ≤ length text.now }
    ensures items { result.1 ≡ false → HasNumberItems text.now from result.0 }
    ensures last { IsTrue result.1 → HasLastNumbers text.now from result.0 }
    ensures bounds { (from ≤ result.0) × (result.0 ≤ length text.now) }
{
    let mut at = from;
    while text.len() - at >= 16 {
        let passed = naturals_end(u8x16::from_slice(&text[at..]));
        if passed == 0 {
            return (at, false);
        }
        at += passed;
        if text[at - 1] == b']' {
            return (at, true);
        }
        if passed < FEW {
            return (at, false);
        }
    }
    (at, false)
}

/// The end of such items in 16 bytes, which begin with an item: behind the last comma or the bracket, or 0. Each byte
/// is a bit of a mask. Those that fit are digits, but for a zero that begins an integer of several, and commas behind a
/// digit.
#[inline(always)]
fn naturals_end(some: u8x16) -> usize
    ensures items { get_or some (result - 1) 0 ≢ 93 → HasNumberItems some 0 result }
    ensures last { 0 < result → get_or some (result - 1) 0 ≡ 93 → HasLastNumbers some 0 result }
    ensures bound { result ≤ 16 }
{
    let digits = digits_of(some);
    let behind_digits = digits << 1;
    let commas = places_of(some, b',') & behind_digits;
    let brackets = places_of(some, b']') & behind_digits;
    let zeros = places_of(some, b'0');
    let leading_zeros = (zeros ^ (zeros & behind_digits)) & (digits >> 1);
    let fit = commas | (digits ^ leading_zeros);
    let up_to_first_misfit = fit ^ (fit + 1);
    let ends = (commas | brackets) & up_to_first_misfit;
    (64 - ends.leading_zeros()) as usize
}

/// The end of the digits that begin there.
#[inline(always)]
pub(crate) fn digits_end(text: &[u8], from: usize) -> usize
    requires { from ≤ length text.now }
    ensures value { result ≡ from + prefix_len is_ascii_digit (drop from text.now) }
    ensures bound { result ≤ length text.now }
{
    if text.len() - from < 16 {
        return digits_end_slowly(text, from);
    }
    let others = others_of(u8x16::from_slice(&text[from..]));
    if others != 0 {
        return from + others.trailing_zeros() as usize;
    }
    digits_end_slowly(text, from + 16)
}

/// Where bytes are no digits.
#[inline(always)]
fn others_of(some: u8x16) -> u64
    ensures { result ≡ mask_l (map (λ x. not (is_ascii_digit x)) some) }
{
    (some.simd_lt(u8x16::splat(b'0')) | some.simd_gt(u8x16::splat(b'9'))).to_bitmask()
}

#[inline(always)]
pub(crate) fn digits_end_slowly(text: &[u8], from: usize) -> usize
    requires { from ≤ length text.now }
    ensures value { result ≡ from + prefix_len is_ascii_digit (drop from text.now) }
    ensures bound { result ≤ length text.now }
{
    let tail = &text[from..];
    let mut count = 0;
    while count < tail.len() && tail[count] >= b'0' && tail[count] <= b'9' {
        count += 1;
    }
    from + count
}

#[inline(always)]
fn digits_of(some: u8x16) -> u64
    ensures { result ≡ mask_l (map is_ascii_digit some) }
{
    (some.simd_ge(u8x16::splat(b'0')) & some.simd_le(u8x16::splat(b'9'))).to_bitmask()
}

#[inline(always)]
fn places_of(some: u8x16, byte: u8) -> u64
    ensures { result ≡ mask_l (map (λ x. x == byte) some) }
{
    some.simd_eq(u8x16::splat(byte)).to_bitmask()
}
