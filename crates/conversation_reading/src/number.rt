//! Numbers that are whole by their value.

ghost use Rattle.std.specs.Prelude.{◌≡◌, ◌+◌, ◌-◌, ◌*◌, ◌^◌, min, drop};
ghost use Rattle.std.specs.Prelude.{position};
ghost use Rattle.conversation_reading.specs.Numbers.{parts_at, is_mark, is_point, are_zeros, digit_of, number_of, without_minus, last_of, is_whole_moved, is_whole_with, is_whole};

/// Whether a number of JSON (RFC 8259, section 6) is whole by its value, as `1.0` and `10e-1` are.
pub fn is_whole(number: &str) -> bool
    ensures { result ≡ is_whole number.now }
{
    let bytes = number.as_bytes();
    match place_of_mark(bytes) {
        Some(place) => is_whole_with(&bytes[..place], &bytes[place + 1..]),
        None => is_whole_with(bytes, &bytes[bytes.len()..]),
    }
}

/// The same of what stands before the mark of the power, and of what behind it.
fn is_whole_with(mantissa: &[u8], power: &[u8]) -> bool
    ensures { result ≡ is_whole_with (parts_at mantissa.now (position is_point mantissa.now)) power.now }
{
    match place_of_point(mantissa) {
        Some(place) => is_whole_moved(
            without_minus(&mantissa[..place]),
            &mantissa[place + 1..],
            power,
        ),
        None => is_whole_moved(without_minus(mantissa), &mantissa[mantissa.len()..], power),
    }
}

pub(crate) fn place_of_mark(number: &[u8]) -> Option<usize>
    ensures { result ≡ position is_mark number.now }
{
    number.iter().position(|b| *b == b'e' || *b == b'E')
}

pub(crate) fn place_of_point(mantissa: &[u8]) -> Option<usize>
    ensures { result ≡ position is_point mantissa.now }
{
    mantissa.iter().position(|b| *b == b'.')
}

pub(crate) fn without_minus(digits: &[u8]) -> &[u8]
    ensures { result.now ≡ without_minus digits.now }
{
    match digits.split_first() {
        Some((b'-', rest)) => rest,
        _ => digits,
    }
}

fn is_whole_moved(before: &[u8], fraction: &[u8], power: &[u8]) -> bool
    ensures { result ≡ is_whole_moved before.now fraction.now power.now }
{
    match power.split_first() {
        None => are_zeros(fraction),
        Some((b'-', digits)) => are_zeros(fraction) && are_last_zeros(before, digits),
        Some((b'+', digits)) => are_zeros_behind(fraction, digits),
        Some(_) => are_zeros_behind(fraction, power),
    }
}

/// Whether the digits of a fraction are 0 behind so many places.
fn are_zeros_behind(fraction: &[u8], places: &[u8]) -> bool
    ensures { result ≡ are_zeros (drop (number_of places.now) fraction.now) }
{
    let places = number_of(places);
    if places >= fraction.len() as u64 {
        return true;
    }
    are_zeros(&fraction[places as usize..])
}

/// Whether so many of the last digits are 0.
fn are_last_zeros(digits: &[u8], places: &[u8]) -> bool
    ensures { result ≡ are_zeros (last_of (number_of places.now) digits.now) }
{
    let places = number_of(places);
    if places >= digits.len() as u64 {
        return are_zeros(digits);
    }
    are_zeros(&digits[digits.len() - places as usize..])
}

fn are_zeros(digits: &[u8]) -> bool
    ensures { result ≡ are_zeros digits.now }
{
    digits.iter().all(|b| *b == b'0')
}

/// The number that digits write, or the largest of 64 bits, where it is larger. No text is as long.
pub(crate) fn number_of(digits: &[u8]) -> u64
    ensures { result ≡ min (number_of digits.now) (2 ^ 64 - 1) }
{
    let mut number = 0;
    for digit in digits {
        number = more(number, *digit);
    }
    number
}

fn more(number: u64, digit: u8) -> u64
    ensures { result ≡ min (10 * number + digit_of digit) (2 ^ 64 - 1) }
{
    number.saturating_mul(10).saturating_add(digit_of(digit))
}

/// What a digit counts.
pub(crate) fn digit_of(digit: u8) -> u64
    ensures { result ≡ digit_of digit }
{
    u64::from(digit.saturating_sub(b'0'))
}
