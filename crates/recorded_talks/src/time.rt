//! The time at the end of a line.

ghost use Rattle.std.specs.Prelude.{◌≡◌, Some, None, MatchOption};
ghost use Rattle.std.specs.List.{list_all};
ghost use Rattle.recorded_talks.specs.Recorded.{without_time, before_one_blank, behind_one_blank, is_number, is_digit};

/// The most digits of a time.
const MOST_DIGITS: usize = 15;

/// What stands before the time, where there is one, or all. There is none where what stands behind a `#` is no time.
pub(crate) fn without_time(text: &str) -> Option<&[u8]>
    ensures { MatchOption result (without_time text.now ≡ None) (λ said. without_time text.now ≡ Some said.now) }
{
    match text.split_once('#') {
        Some((said, time)) => {
            if !is_number(behind_one_blank(time.as_bytes())) {
                return None;
            }
            before_one_blank(said.as_bytes())
        }
        None => Some(text.as_bytes()),
    }
}

/// What stands before the blank that ends a text.
fn before_one_blank(text: &[u8]) -> Option<&[u8]>
    ensures { MatchOption result (before_one_blank text.now ≡ None) (λ said. before_one_blank text.now ≡ Some said.now) }
{
    if text.ends_with(b" ") {
        Some(&text[..text.len() - 1])
    } else {
        None
    }
}

/// A text without the blank that it begins with, if it does.
fn behind_one_blank(text: &[u8]) -> &[u8]
    ensures { result.now ≡ behind_one_blank text.now }
{
    match text.split_first() {
        Some((first, behind)) if *first == b' ' => behind,
        _ => text,
    }
}

fn is_number(text: &[u8]) -> bool
    ensures { result ≡ is_number text.now }
{
    !text.is_empty() && text.len() <= MOST_DIGITS && are_digits(text)
}

fn are_digits(text: &[u8]) -> bool
    ensures { result ≡ list_all is_digit text.now }
{
    let mut left = text;
    while let Some((digit, behind)) = left.split_first() {
        if !is_digit(*digit) {
            return false;
        }
        left = behind;
    }
    true
}

fn is_digit(byte: u8) -> bool
    ensures { result ≡ is_digit byte }
{
    matches!(byte, b'0'..=b'9')
}
