//! The lines `name:value` of a head.

ghost use Rattle.std.specs.Prelude.{◌≡◌, ◌==◌, option_map, position};
ghost use Rattle.std.specs.Char.{is_ascii_digit};
ghost use Rattle.std.specs.List.{list_all};
ghost use Rattle.lsp_frames.specs.Fields.{field_of, is_blank, is_name_byte, is_value_byte, is_name, is_named, length_of, is_long_number, without_outer_blanks, without_leading_blanks, without_trailing_blanks};

use crate::limits::LONGEST_NUMBER;

fn is_blank(b: u8) -> bool
    ensures { result ≡ is_blank b }
{
    b == b' ' || b == b'\t'
}

fn is_name_byte(b: u8) -> bool
    ensures { result ≡ is_name_byte b }
{
    b.is_ascii_alphanumeric() || b"!#$%&'*+-.^_|~`".contains(&b)
}

fn is_value_byte(b: u8) -> bool
    ensures { result ≡ is_value_byte b }
{
    (b' ' <= b && b <= b'~') || b == b'\t'
}

fn without_leading_blanks(mut bytes: &[u8]) -> &[u8]
    ensures { result.now ≡ without_leading_blanks bytes.entry.now }
{
    while let [first, rest @ ..] = bytes {
        if !is_blank(*first) {
            break;
        }
        bytes = rest;
    }
    bytes
}

fn without_trailing_blanks(mut bytes: &[u8]) -> &[u8]
    ensures { result.now ≡ without_trailing_blanks bytes.entry.now }
{
    while let [rest @ .., last] = bytes {
        if !is_blank(*last) {
            break;
        }
        bytes = rest;
    }
    bytes
}

/// The bytes without the spaces and tabs at both ends.
#[tactic(auto, unfolding(crate::specs::Fields::without_outer_blanks))]
pub(crate) fn without_outer_blanks(bytes: &[u8]) -> &[u8]
    ensures { result.now ≡ without_outer_blanks bytes.now }
{
    without_trailing_blanks(without_leading_blanks(bytes))
}

fn has_name_bytes(bytes: &[u8]) -> bool
    ensures { result ≡ list_all is_name_byte bytes.now }
{
    bytes.iter().all(|b| is_name_byte(*b))
}

fn has_value_bytes(bytes: &[u8]) -> bool
    ensures { result ≡ list_all is_value_byte bytes.now }
{
    bytes.iter().all(|b| is_value_byte(*b))
}

fn is_name(bytes: &[u8]) -> bool
    ensures { result ≡ is_name bytes.now }
{
    !bytes.is_empty() && has_name_bytes(bytes)
}

/// Where a byte first stands.
pub(crate) fn place_of(wanted: u8, bytes: &[u8]) -> Option<usize>
    ensures { result ≡ position (λ b. b == wanted) bytes.now }
{
    bytes.iter().position(|b| *b == wanted)
}

/// The name and the trimmed value of a line, given without its CR LF, if it is one.
#[tactic(auto, unfolding(crate::specs::Fields::field_of))]
pub(crate) fn field_of(line: &[u8]) -> Option<(&[u8], &[u8])>
    ensures { option_map (λ field. (field.0.now, field.1.now)) result ≡ field_of line.now }
{
    let Some(colon) = place_of(b':', line) else {
        return None;
    };
    let (name, value) = (&line[..colon], &line[colon + 1..]);
    if is_name(name) && has_value_bytes(value) {
        Some((name, without_outer_blanks(value)))
    } else {
        None
    }
}

/// Whether a name is this one, in any case.
#[tactic(auto, unfolding(crate::specs::Fields::is_named))]
pub(crate) fn is_named(name: &[u8], wanted: &[u8]) -> bool
    ensures { result ≡ is_named name.now wanted.now }
{
    // Most senders spell it so, and bytes are equal or not in far fewer steps than letters in any case.
    name == wanted || name.eq_ignore_ascii_case(wanted)
}

/// The number that 1 to 10 decimal digits write.
#[tactic(auto, unfolding(crate::specs::Fields::length_of))]
pub(crate) fn length_of(value: &[u8]) -> Option<u64>
    ensures { result ≡ length_of value.now }
{
    if value.is_empty() || value.len() > LONGEST_NUMBER {
        return None;
    }
    let mut number = 0;
    for digit in value {
        if !digit.is_ascii_digit() {
            return None;
        }
        number = number * 10 + u64::from(*digit - b'0');
    }
    Some(number)
}

fn is_digit(b: u8) -> bool
    ensures { result ≡ is_ascii_digit b }
{
    b.is_ascii_digit()
}

fn has_digits(bytes: &[u8]) -> bool
    ensures { result ≡ list_all is_ascii_digit bytes.now }
{
    bytes.iter().all(|b| is_digit(*b))
}

/// Whether these are more than 10 decimal digits, and nothing else.
pub(crate) fn is_long_number(value: &[u8]) -> bool
    ensures { result ≡ is_long_number value.now }
{
    value.len() > LONGEST_NUMBER && has_digits(value)
}
