//! Numbers of which only the digits are known.

ghost use Rattle.std.specs.Prelude.{◌≡◌, ◌+◌, ◌-◌, ◌*◌, ◌^◌, ◌%◌, ◌<◌, ◌≤◌, ◌==◌, ◌++◌, ◌⊎◌, true, false, length, min};
ghost use Rattle.conversation_reading.specs.Numbers.{number_of};

/// A number that the digits of no power reach that stands beside a number of places.
const BEYOND: u128 = 1 << 104;

/// What a digit is worth.
pub(crate) fn worth(digit: u8) -> u64
    ensures { result ≡ digit - 48 }
{
    u64::from(digit.saturating_sub(b'0'))
}

/// The number that digits write, or `BEYOND`, where it is larger.
pub(crate) fn number_up_to_beyond(digits: &[u8]) -> u128
    ensures { result ≡ min (number_of digits.now) (2 ^ 104) }
{
    let mut number = 0;
    for digit in digits {
        number = more(number, *digit);
    }
    number
}

fn more(number: u128, digit: u8) -> u128
    requires { number ≤ 2 ^ 104 }
    ensures { result ≡ min (10 * number + (digit - 48)) (2 ^ 104) }
{
    (number * 10 + u128::from(worth(digit))).min(BEYOND)
}

/// What the last of the digits is worth, and the digits before it. The digits come in two parts, as those of a number with a
/// point do. Of none the last is worth 0.
fn split_last<'a>(digits: &'a [u8], behind: &'a [u8]) -> (u64, &'a [u8], &'a [u8])
    ensures amount { number_of (digits.now ++ behind.now) ≡ 10 * number_of (result.1.now ++ result.2.now) + result.0 }
    ensures digit { result.0 ≤ 207 }
    ensures shorter { 0 < length digits.now + length behind.now →
        length result.1.now + length result.2.now + 1 ≡ length digits.now + length behind.now }
    ensures none { length digits.now + length behind.now ≡ 0 →
        (result.0 ≡ 0) × (length result.1.now + length result.2.now ≡ 0) }
{
    if let Some((digit, front)) = behind.split_last() {
        return (worth(*digit), digits, front);
    }
    match digits.split_last() {
        Some((digit, front)) => (worth(*digit), front, behind),
        None => (0, digits, behind),
    }
}

/// Whether the number of digits, and so much more, is that of others, and so much more.
pub(crate) fn same_sum(
    a: &[u8],
    a_behind: &[u8],
    a_more: u128,
    b: &[u8],
    b_behind: &[u8],
    b_more: u128,
) -> bool
    requires a_more { a_more ≤ 2 ^ 100 }
    requires b_more { b_more ≤ 2 ^ 100 }
    ensures { result ≡ (number_of (a.now ++ a_behind.now) + a_more
        == number_of (b.now ++ b_behind.now) + b_more) }
{
    let (mut x, mut x_behind, mut x_more) = (a, a_behind, a_more);
    let (mut y, mut y_behind, mut y_more) = (b, b_behind, b_more);
    while !(x.is_empty() && x_behind.is_empty() && y.is_empty() && y_behind.is_empty()) {
        let (x_digit, x_front, x_rest) = split_last(x, x_behind);
        let (y_digit, y_front, y_rest) = split_last(y, y_behind);
        let x_sum = x_more + u128::from(x_digit);
        let y_sum = y_more + u128::from(y_digit);
        if x_sum % 10 != y_sum % 10 {
            return false;
        }
        x = x_front;
        x_behind = x_rest;
        x_more = x_sum / 10;
        y = y_front;
        y_behind = y_rest;
        y_more = y_sum / 10;
    }
    x_more == y_more
}

/// A number without the zeros at its end: that of the digits that are left, and so much more, times ten so often. Of zero
/// none is left.
pub(crate) fn without_zeros<'a>(
    digits: &'a [u8],
    behind: &'a [u8],
) -> (&'a [u8], &'a [u8], u128, u128)
    ensures amount { number_of (digits.now ++ behind.now) ≡
        (number_of (result.0.now ++ result.1.now) + result.2) * 10 ^ result.3 }
    ensures shortest { (0 < (number_of (result.0.now ++ result.1.now) + result.2) % 10)
        ⊎ (length result.0.now + length result.1.now + result.2 ≡ 0) }
    ensures more { result.2 ≤ 23 }
    ensures zeros { result.3 ≤ 2 ^ 70 }
{
    let (mut left, mut left_behind) = (digits, behind);
    let (mut more, mut zeros) = (0u128, 0u128);
    loop {
        let (digit, front, rest) = split_last(left, left_behind);
        let sum = more + u128::from(digit);
        if sum % 10 != 0 || is_none_left(left, left_behind, more) {
            return (left, left_behind, more, zeros);
        }
        left = front;
        left_behind = rest;
        more = sum / 10;
        zeros += 1;
    }
}

/// Whether no digit is left, and nothing more.
pub(crate) fn is_none_left(digits: &[u8], behind: &[u8], more: u128) -> bool
    ensures { result ≡ (length digits.now + length behind.now + more == 0) }
{
    digits.is_empty() && behind.is_empty() && more == 0
}
