//! Numbers by their value, however they are written. No power is ever worked out.

ghost use Rattle.std.specs.Prelude.{◌≡◌, ◌+◌, ◌^◌, ◌≤◌, ◌==◌, ◌&&◌, if◌then◌else◌, position};
ghost use Rattle.std.specs.Str.Parse.{starts_with_minus};
ghost use Rattle.conversation_ids.specs.Digits.{amount_of_parts, same_value};
ghost use Rattle.conversation_reading.specs.Numbers.{number_of, is_mark, is_point, without_minus};
ghost use Rattle.conversation_rules.specs.Amounts.{amount_of, amount_in, moves_of, is_plain, same_amount, same_sign};

use crate::digits::{is_none_left, number_up_to_beyond, same_sum, without_zeros};

/// Whether a number of JSON is plain: written as a whole one from -2^63 to 2^64 - 1, without a fraction or a power, and not
/// `-0`.
pub fn is_plain(number: &str) -> bool
    ensures { result ≡ is_plain number.now }
{
    let bytes = number.as_bytes();
    if place_of_mark(bytes).is_some() || place_of_point(bytes).is_some() {
        return false;
    }
    if number == "-0" {
        return false;
    }
    let size = number_up_to_beyond(without_minus(bytes));
    if is_minus(bytes) {
        size <= 1 << 63
    } else {
        size < 1 << 64
    }
}

/// Whether two numbers of JSON have one value, as `1.0` and `10e-1`. Takes time for the digits that are written.
pub fn same_amount(a: &str, b: &str) -> bool
    ensures { result ≡ same_amount (amount_of a.now) (amount_of b.now) }
{
    let (a_minus, a_before, a_fraction, a_power) = parts_of(a);
    let (b_minus, b_before, b_fraction, b_power) = parts_of(b);
    let (a_digits, a_behind, a_more, a_zeros) = without_zeros(a_before, a_fraction);
    let (b_digits, b_behind, b_more, b_zeros) = without_zeros(b_before, b_fraction);
    let same_digits = same_sum(a_digits, a_behind, a_more, b_digits, b_behind, b_more);
    let a_places = a_zeros + b_fraction.len() as u128;
    let b_places = b_zeros + a_fraction.len() as u128;
    let same_places = same_power(a_power, a_places, b_power, b_places);
    let a_is_zero = is_none_left(a_digits, a_behind, a_more);
    let b_is_zero = is_none_left(b_digits, b_behind, b_more);
    let same_sign = same_sign(a_minus, b_minus);
    same_value(a_is_zero, b_is_zero, same_sign, same_digits, same_places)
}

/// Zero has no sign, and no places.
fn same_value(
    a_is_zero: bool,
    b_is_zero: bool,
    same_sign: bool,
    same_digits: bool,
    same_places: bool,
) -> bool
    ensures { result ≡ same_value a_is_zero b_is_zero same_sign (same_digits && same_places) }
{
    if a_is_zero || b_is_zero {
        a_is_zero && b_is_zero
    } else {
        same_sign && same_digits && same_places
    }
}

fn same_sign(a: bool, b: bool) -> bool
    ensures { result ≡ same_sign a b }
{
    if a { b } else { !b }
}

/// Whether a number is below zero, its digits before the point and behind it, and its power.
pub(crate) fn parts_of<'a>(number: &'a str) -> (bool, &'a [u8], &'a [u8], &'a [u8])
    ensures { amount_of number.now ≡ amount_of_parts result.0 result.1.now result.2.now result.3.now }
{
    let bytes = number.as_bytes();
    match place_of_mark(bytes) {
        Some(place) => mantissa_parts(is_minus(bytes), &bytes[..place], &bytes[place + 1..]),
        None => mantissa_parts(is_minus(bytes), bytes, &bytes[bytes.len()..]),
    }
}

fn mantissa_parts<'a>(
    minus: bool,
    mantissa: &'a [u8],
    power: &'a [u8],
) -> (bool, &'a [u8], &'a [u8], &'a [u8])
    ensures { amount_in minus (mantissa.now, power.now) ≡
        amount_of_parts result.0 result.1.now result.2.now result.3.now }
{
    match place_of_point(mantissa) {
        Some(place) => (
            minus,
            without_minus(&mantissa[..place]),
            &mantissa[place + 1..],
            power,
        ),
        None => (
            minus,
            without_minus(mantissa),
            &mantissa[mantissa.len()..],
            power,
        ),
    }
}

fn place_of_mark(number: &[u8]) -> Option<usize>
    ensures { result ≡ position is_mark number.now }
{
    number.iter().position(|b| *b == b'e' || *b == b'E')
}

fn place_of_point(mantissa: &[u8]) -> Option<usize>
    ensures { result ≡ position is_point mantissa.now }
{
    mantissa.iter().position(|b| *b == b'.')
}

fn is_minus(number: &[u8]) -> bool
    ensures { result ≡ starts_with_minus number.now }
{
    match number.first() {
        Some(b) => *b == b'-',
        None => false,
    }
}

fn without_minus(digits: &[u8]) -> &[u8]
    ensures { result.now ≡ without_minus digits.now }
{
    match digits.split_first() {
        Some((b'-', rest)) => rest,
        _ => digits,
    }
}

/// Whether a power moves the point to the left, and its digits.
fn power_of(power: &[u8]) -> (bool, &[u8])
    ensures { moves_of power.now ≡
        (if result.0 then (0, number_of result.1.now) else (number_of result.1.now, 0)) }
{
    match power.split_first() {
        Some((b'-', digits)) => (true, digits),
        Some((b'+', digits)) => (false, digits),
        _ => (false, power),
    }
}

/// Whether the point moves as far by one power, and so many places more, as by another.
fn same_power(a: &[u8], a_more: u128, b: &[u8], b_more: u128) -> bool
    requires a_more { a_more ≤ 2 ^ 100 }
    requires b_more { b_more ≤ 2 ^ 100 }
    ensures { result ≡ ((moves_of a.now).0 + ((moves_of b.now).1 + a_more)
        == (moves_of b.now).0 + ((moves_of a.now).1 + b_more)) }
{
    let (a_left, a) = power_of(a);
    let (b_left, b) = power_of(b);
    match (a_left, b_left) {
        (false, false) => same_sum(a, &a[a.len()..], a_more, b, &b[b.len()..], b_more),
        (true, true) => same_sum(b, &b[b.len()..], a_more, a, &a[a.len()..], b_more),
        (false, true) => number_up_to_beyond(a) + number_up_to_beyond(b) + a_more == b_more,
        (true, false) => a_more == number_up_to_beyond(a) + number_up_to_beyond(b) + b_more,
    }
}
