//! The plain text of a string, passed over a vector at a time.

ghost use Rattle.std.specs.Prelude.{◌≡◌, ◌+◌, ◌≤◌, ◌<◌, IfSome, length, drop, map};
ghost use Rattle.std.specs.List.{prefix_len};
ghost use Rattle.std.specs.Simd.Lanes.{mask_l};
ghost use Rattle.json.specs.Run.{is_stop, is_plain};
ghost use Rattle.json_texts.specs.Ahead.{IsAhead};

use std::simd::prelude::*;

#[inline(always)]
fn stops(v: u8x32) -> u64
    ensures { result ≡ mask_l (map is_stop v) }
{
    (v.simd_eq(u8x32::splat(b'"'))
        | v.simd_eq(u8x32::splat(b'\\'))
        | v.simd_lt(u8x32::splat(0x20))).to_bitmask()
}

#[inline(always)]
fn stops_16(v: u8x16) -> u64
    ensures { result ≡ mask_l (map is_stop v) }
{
    (v.simd_eq(u8x16::splat(b'"'))
        | v.simd_eq(u8x16::splat(b'\\'))
        | v.simd_lt(u8x16::splat(0x20))).to_bitmask()
}

#[inline(always)]
fn stops_8(v: u8x8) -> u64
    ensures { result ≡ mask_l (map is_stop v) }
{
    (v.simd_eq(u8x8::splat(b'"'))
        | v.simd_eq(u8x8::splat(b'\\'))
        | v.simd_lt(u8x8::splat(0x20))).to_bitmask()
}

#[inline(always)]
fn plain_end_slowly(text: &[u8], from: usize) -> usize
    requires { from ≤ length text.now }
    ensures { result ≡ from + prefix_len is_plain (drop from text.now) }
{
    let mut i = from;
    while i < text.len() && text[i] != b'"' && text[i] != b'\\' && text[i] >= 0x20 {
        i += 1;
    }
    i
}

#[inline(always)]
fn plain_end_8(text: &[u8], from: usize) -> usize
    requires { from ≤ length text.now }
    ensures { result ≡ from + prefix_len is_plain (drop from text.now) }
{
    if text.len() - from < 8 {
        return plain_end_slowly(text, from);
    }
    let found = stops_8(u8x8::from_slice(&text[from..]));
    if found != 0 {
        return from + found.trailing_zeros() as usize;
    }
    plain_end_slowly(text, from + 8)
}

/// The last bytes, fewer than 32.
#[inline(never)]
fn plain_end_16(text: &[u8], from: usize) -> usize
    requires { from ≤ length text.now }
    ensures { result ≡ from + prefix_len is_plain (drop from text.now) }
{
    if text.len() - from < 16 {
        return plain_end_8(text, from);
    }
    let found = stops_16(u8x16::from_slice(&text[from..]));
    if found != 0 {
        return from + found.trailing_zeros() as usize;
    }
    plain_end_8(text, from + 16)
}

/// The same place, where it is seen in one look: most strings are short.
#[inline(always)]
pub(crate) fn near_stop(text: &[u8], from: usize) -> Option<usize>
    requires { from ≤ length text.now }
    ensures value { IfSome result (λ stop. stop ≡ from + prefix_len is_plain (drop from text.now)) }
    ensures within { IfSome result (λ stop. stop < length text.now) }
{
    if text.len() - from < 16 {
        return None;
    }
    let found = stops_16(u8x16::from_slice(&text[from..]));
    if found == 0 {
        return None;
    }
    Some(from + found.trailing_zeros() as usize)
}

/// The place of the first quote, backslash or control byte from there on, or the length.
pub fn plain_end(text: &[u8], from: usize) -> usize
    requires { from ≤ length text.now }
    ensures value { result ≡ from + prefix_len is_plain (drop from text.now) }
    ensures bound { result ≤ length text.now }
{
    look_ahead(text, from).0
}

/// The same place, and the stops from it on, as far as they are seen: many stand close to one another, as the escapes of a
/// program's text.
fn look_ahead(text: &[u8], from: usize) -> (usize, u64)
    requires { from ≤ length text.now }
    ensures value { result.0 ≡ from + prefix_len is_plain (drop from text.now) }
    ensures bound { result.0 ≤ length text.now }
    ensures ahead { IsAhead text.now result.0 result.1 }
{
    let mut i = from;
    while text.len() - i >= 32 {
        let found = stops(u8x32::from_slice(&text[i..]));
        if found != 0 {
            let place = found.trailing_zeros();
            return (i + place as usize, found >> place);
        }
        i += 32;
    }
    (plain_end_16(text, i), 0)
}

/// The same, where some stops from there on are seen already.
#[inline(always)]
pub(crate) fn next_stop(text: &[u8], from: usize, ahead: u64) -> (usize, u64)
    requires place { from ≤ length text.now }
    requires ahead { IsAhead text.now from ahead }
    ensures value { result.0 ≡ from + prefix_len is_plain (drop from text.now) }
    ensures bound { result.0 ≤ length text.now }
    ensures ahead { IsAhead text.now result.0 result.1 }
{
    if ahead == 0 {
        return look_ahead(text, from);
    }
    let place = ahead.trailing_zeros();
    (from + place as usize, ahead >> place)
}
