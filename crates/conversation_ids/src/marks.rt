//! A number for each id, by which it is found again.

ghost use Rattle.std.specs.Prelude.{◌≡◌, ◌+◌, ◌-◌, ◌*◌, ◌%◌, ◌^◌, ◌<◌, ◌++◌};
ghost use Rattle.conversation_ids.specs.Marks.{most_marks, number_mark, text_mark_behind, null_mark, mark_of};
ghost use Rattle.conversation_reading.specs.Numbers.{number_of};

use crate::amounts::parts_of;
use crate::digits::{without_zeros, worth};
use conversation_reading::WrittenId;

/// Marks are remainders by 2^64 - 1: a remainder by this number takes no call, and the library for C has none to make.
const MOST_MARKS: u128 = 18_446_744_073_709_551_615;

/// Ten times a smaller number, and what a byte is worth, is below `MOST_MARKS`.
const FEW_DIGITS: u64 = 1_844_674_407_370_955_100;

/// By which the mark of a text is multiplied before each byte.
const TEXT_BASE: u128 = 1_099_511_628_211;

/// The mark of texts begins here, and behind it that of numbers. `null` has the mark 0.
const TEXTS: u128 = 1 << 64;

const NUMBERS: u128 = 1 << 65;

/// The mark of the id null.
pub fn null_mark() -> u128
    ensures { result ≡ null_mark }
{
    0
}

/// The mark of an id: equal ids have one mark, and others mostly have another. It takes time for the bytes that are written.
pub fn mark_of(id: &WrittenId) -> u128
    ensures { result ≡ mark_of id.now }
{
    match id {
        WrittenId::Null => null_mark(),
        WrittenId::Text(text) => TEXTS + text_mark(text.as_bytes()),
        WrittenId::Number(number) => NUMBERS + number_mark(number.as_str()),
    }
}

fn text_mark(text: &[u8]) -> u128
    ensures value { result ≡ text_mark_behind 1 text.now }
    ensures bound { result < 2 ^ 64 }
{
    let mut mark = 1;
    for byte in text {
        mark = (mark * TEXT_BASE + u128::from(*byte)) % MOST_MARKS;
    }
    mark
}

fn number_mark(number: &str) -> u128
    ensures value { result ≡ number_mark number.now }
    ensures bound { result < 2 ^ 64 }
{
    let (_, before, fraction, _) = parts_of(number);
    let (digits, behind, more, _) = without_zeros(before, fraction);
    (u128::from(remainder_of(digits, behind)) + more) % MOST_MARKS
}

/// What is left of the number of these digits, which come in two parts.
fn remainder_of(digits: &[u8], behind: &[u8]) -> u64
    ensures { result ≡ number_of (digits.now ++ behind.now) % most_marks }
{
    let mut number = 0;
    for digit in digits {
        number = remainder_with(number, *digit);
    }
    for other in behind {
        number = remainder_with(number, *other);
    }
    number
}

/// Few ids have so many digits that there is anything to divide.
#[inline(always)]
fn remainder_with(number: u64, digit: u8) -> u64
    ensures { result ≡ (10 * number + (digit - 48)) % most_marks }
{
    if number < FEW_DIGITS {
        return number * 10 + worth(digit);
    }
    ((u128::from(number) * 10 + u128::from(worth(digit))) % MOST_MARKS) as u64
}
