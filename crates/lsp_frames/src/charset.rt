//! The charset that a `Content-Type` names.

ghost use Rattle.std.specs.Prelude.{◌≡◌, option_copied};
ghost use Rattle.std.specs.List.{before_first};
ghost use Rattle.lsp_frames.specs.Fields.{is_semicolon, after_word, charset_of, is_foreign, without_quotes};

use crate::field::{is_named, place_of, without_outer_blanks};

/// What follows the first place where a word stands, in any case.
#[tactic(auto, unfolding(crate::specs::Fields::after_word))]
fn after_word<'a>(mut bytes: &'a [u8], word: &[u8]) -> Option<&'a [u8]>
    ensures { option_copied result ≡ after_word word.now bytes.entry.now }
{
    while let [_, rest @ ..] = bytes {
        let end = word.len().min(bytes.len());
        let (front, after) = bytes.split_at(end);
        if is_named(front, word) {
            return Some(after);
        }
        bytes = rest;
    }
    None
}

/// The bytes without a double quote at each end, where there are both.
#[tactic(auto, unfolding(crate::specs::Fields::without_quotes))]
fn without_quotes(bytes: &[u8]) -> &[u8]
    ensures { result.now ≡ without_quotes bytes.now }
{
    let size = bytes.len();
    if size >= 2 && bytes[0] == b'"' && bytes[size - 1] == b'"' {
        &bytes[1..size - 1]
    } else {
        bytes
    }
}

fn before_semicolon(text: &[u8]) -> &[u8]
    ensures { result.now ≡ before_first is_semicolon text.now }
{
    match place_of(b';', text) {
        None => text,
        Some(end) => &text[..end],
    }
}

#[tactic(auto, unfolding(crate::specs::Fields::charset_of))]
fn charset_of(value: &[u8]) -> Option<&[u8]>
    ensures { option_copied result ≡ charset_of value.now }
{
    let text = after_word(value, b"charset=")?;
    Some(without_quotes(without_outer_blanks(before_semicolon(text))))
}

/// Whether the value of a `Content-Type` names a charset, and another than UTF-8.
#[tactic(auto, unfolding(crate::specs::Fields::is_foreign))]
pub(crate) fn is_foreign(value: &[u8]) -> bool
    ensures { result ≡ is_foreign value.now }
{
    match charset_of(value) {
        None => false,
        Some(charset) => !(is_named(charset, b"utf-8") || is_named(charset, b"utf8")),
    }
}
