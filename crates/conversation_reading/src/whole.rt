//! The whole number that a number of JSON is by its value.

ghost use Rattle.std.specs.Prelude.{◌≡◌, ◌*◌, ◌^◌, position};
ghost use Rattle.std.specs.Str.Parse.{starts_with_minus};
ghost use Rattle.conversation_reading.specs.Numbers.{parts_at, is_point, number_of, number_after};
ghost use Rattle.conversation_reading.specs.Wholes.{moved_right, moved_left, size_moved, size_with, size_of, if_64_bits, whole_of};

use crate::number::{digit_of, is_whole, number_of, place_of_mark, place_of_point, without_minus};

/// A whole number, by its sign and its size. 0 has no sign.
#[derive(Debug, Clone, Copy, PartialEq, Eq)]
pub struct Whole {
    pub minus: bool,
    pub size: u64,
}

/// The whole number that a number of JSON (RFC 8259, section 6) is by its value, as 1 is of `1.0` and `10e-1`. There is none
/// where it isn't whole, or its size is 2^64 or more. It takes no memory.
pub fn whole_of(number: &str) -> Option<Whole>
    ensures { result ≡ whole_of number.now }
{
    if !is_whole(number) {
        return None;
    }
    let size = size_of(number.as_bytes())?;
    Some(Whole {
        minus: has_minus(number.as_bytes()) && size != 0,
        size,
    })
}

fn has_minus(number: &[u8]) -> bool
    ensures { result ≡ starts_with_minus number.now }
{
    match number.first() {
        Some(first) => *first == b'-',
        None => false,
    }
}

fn size_of(number: &[u8]) -> Option<u64>
    ensures { result ≡ if_64_bits (size_of number.now) }
{
    match place_of_mark(number) {
        Some(place) => size_with(&number[..place], &number[place + 1..]),
        None => size_with(number, &number[number.len()..]),
    }
}

fn size_with(mantissa: &[u8], power: &[u8]) -> Option<u64>
    ensures { result ≡ if_64_bits (size_with (parts_at mantissa.now (position is_point mantissa.now)) power.now) }
{
    match place_of_point(mantissa) {
        Some(place) => size_moved(
            without_minus(&mantissa[..place]),
            &mantissa[place + 1..],
            power,
        ),
        None => size_moved(without_minus(mantissa), &mantissa[mantissa.len()..], power),
    }
}

fn size_moved(before: &[u8], fraction: &[u8], power: &[u8]) -> Option<u64>
    ensures { result ≡ if_64_bits (size_moved before.now fraction.now power.now) }
{
    match power.split_first() {
        None => appended(0, before),
        Some((b'-', digits)) => moved_left(before, digits),
        Some((b'+', digits)) => moved_right(before, fraction, digits),
        Some(_) => moved_right(before, fraction, power),
    }
}

/// What the digits before the point write once it is moved to the left.
fn moved_left(before: &[u8], places: &[u8]) -> Option<u64>
    ensures { result ≡ if_64_bits (moved_left before.now (number_of places.now)) }
{
    let places = number_of(places);
    if places >= before.len() as u64 {
        return Some(0);
    }
    appended(0, &before[..before.len() - places as usize])
}

/// The same to the right, over the fraction.
fn moved_right(before: &[u8], fraction: &[u8], places: &[u8]) -> Option<u64>
    ensures { result ≡ if_64_bits (moved_right before.now fraction.now (number_of places.now)) }
{
    let places = number_of(places);
    let whole = appended(0, before)?;
    if places <= fraction.len() as u64 {
        return appended(whole, &fraction[..places as usize]);
    }
    with_zeros(appended(whole, fraction)?, places - fraction.len() as u64)
}

/// The number that these digits write behind those of another.
fn appended(number: u64, digits: &[u8]) -> Option<u64>
    ensures { result ≡ if_64_bits (number_after number digits.now) }
{
    let mut so_far = number;
    for digit in digits {
        let tens = so_far.checked_mul(10)?;
        so_far = tens.checked_add(digit_of(*digit))?;
    }
    Some(so_far)
}

fn with_zeros(number: u64, count: u64) -> Option<u64>
    ensures { result ≡ if_64_bits (number * 10 ^ count) }
{
    if number == 0 {
        return Some(0);
    }
    let mut so_far = number;
    let mut left = count;
    while left > 0 {
        so_far = so_far.checked_mul(10)?;
        left -= 1;
    }
    Some(so_far)
}
