//! The text of a line.

ghost use Rattle.std.specs.Prelude.{◌≡◌, Some, None, MatchOption};
ghost use Rattle.std.specs.Str.{is_utf8};
ghost use Rattle.recorded_talks.specs.Recorded.{is_blank, trimmed, text_in, text_of};

use std::str::from_utf8;

/// The text of a line, without the blanks and the CR at its end.
pub(crate) fn text_of(line: &[u8]) -> Option<&str>
    ensures { MatchOption result (text_of line.now ≡ None) (λ text. text_of line.now ≡ Some text.now) }
{
    text_in(without_blanks(line))
}

/// The bytes, where they are UTF-8.
#[tactic(auto, using(crate::proofs::Blanks::is_text, crate::proofs::Blanks::is_no_text))]
pub(crate) fn text_in(bytes: &[u8]) -> Option<&str>
    ensures { MatchOption result (text_in bytes.now ≡ None) (λ text. text_in bytes.now ≡ Some text.now) }
{
    match from_utf8(bytes) {
        Ok(text) => Some(text),
        Err(_) => None,
    }
}

/// A line without the blanks, the tabs and the CR at its end.
#[tactic(auto, using(crate::proofs::Blanks::one_more_blank, crate::proofs::Blanks::ends_in_text))]
pub(crate) fn without_blanks(line: &[u8]) -> &[u8]
    ensures { result.now ≡ trimmed line.now }
{
    let mut left = line;
    while let Some((last, front)) = left.split_last() {
        if !is_blank(*last) {
            return left;
        }
        left = front;
    }
    left
}

fn is_blank(byte: u8) -> bool
    ensures { result ≡ is_blank byte }
{
    byte == b' ' || byte == b'\t' || byte == b'\r'
}
