//! Strings, and the names of members.

ghost use Rattle.std.specs.List.{prefix_len};
ghost use Rattle.std.specs.Prelude.{◌≡◌, ◌≢◌, ◌<◌, ◌≤◌, ◌+◌, ◌++◌, ◌∷◌, [], length, drop, get_or, slice_range, string_bytes, IfOk, OnOk, IfErr};
ghost use Rattle.std.specs.Str.{IsCharBoundary};
ghost use Rattle.json.specs.Lex.{token, colon};
ghost use Rattle.json.specs.Run.{is_plain};
ghost use Rattle.json.specs.Token.{string};
ghost use Rattle.value_reading.specs.Lexed.{Lexed, Opens, HasBytes, HasRest};
ghost use Rattle.value_reading.specs.declared.unread.Unread.TheVariants.{Unusual};

use crate::escapes::read_escape;
use crate::passing::{byte_at, next_byte, pass};
use crate::unread::Unread;
use json_texts::plain_end;
use std::alloc::Global;

/// Passes the name of a member, which has no escape, with its colon.
pub fn read_name<'a>(text: &'a str, at: &mut usize) -> Result<&'a str, Unread>
    ensures name { IfOk result
        (λ s. Lexed text.now at.old (token (string s.now) ∷ colon ∷ []) at.new) }
    ensures bounds { OnOk result ((at.old < at.new) × (at.new ≤ length text.now)) }
    ensures err { IfErr result (λ unread. unread ≡ Unusual) }
{
    let name = read_string(text, at)?;
    pass(text, at, b':')?;
    Ok(name)
}

/// Passes a string that has no escape.
pub fn read_string<'a>(text: &'a str, at: &mut usize) -> Result<&'a str, Unread>
    ensures string { IfOk result (λ s. Lexed text.now at.old (token (string s.now) ∷ []) at.new) }
    ensures bounds { OnOk result ((at.old < at.new) × (at.new ≤ length text.now)) }
    ensures err { IfErr result (λ unread. unread ≡ Unusual) }
{
    let end = open(text, at)?;
    let from = *at;
    if byte_at(text, end) != b'"' {
        return Err(Unread::Unusual);
    }
    *at = end + 1;
    Ok(&text[from..end])
}

/// Passes the name of a member, with its colon. It may have escapes.
pub(crate) fn copy_name(alloc: Global, text: &str, at: &mut usize) -> Result<String, Unread>
    ensures name { IfOk result (λ s. Lexed text.now at.old
        (token (string (string_bytes s)) ∷ colon ∷ []) at.new) }
    ensures bounds { OnOk result ((at.old < at.new) × (at.new ≤ length text.now)) }
{
    let name = copy_string(alloc, text, at)?;
    match pass(text, at, b':') {
        Ok(()) => Ok(name),
        Err(unread) => {
            drop(name);
            Err(unread)
        }
    }
}

/// Passes a string, which may have escapes.
pub(crate) fn copy_string(alloc: Global, text: &str, at: &mut usize) -> Result<String, Unread>
    ensures string { IfOk result
        (λ s. Lexed text.now at.old (token (string (string_bytes s)) ∷ []) at.new) }
    ensures bounds { OnOk result ((at.old < at.new) × (at.new ≤ length text.now)) }
{
    let end = open(text, at)?;
    let from = *at;
    if byte_at(text, end) != b'"' {
        return copy_escaped(alloc, text, at);
    }
    *at = end + 1;
    Ok(String::from_str(alloc, &text[from..end])?)
}

/// Passes the first quote of a string. Gives the place of the first byte that doesn't stand for itself.
#[inline(always)]
pub(crate) fn open(text: &str, at: &mut usize) -> Result<usize, Unread>
    ensures opens { OnOk result (Opens text.now at.old at.new) }
    ensures stop { IfOk result (λ end. end ≡ at.new + prefix_len is_plain (drop at.new text.now)) }
    ensures within { IfOk result (λ end. end ≤ length text.now) }
    ensures bounds { OnOk result ((at.old < at.new) × (at.new ≤ length text.now)) }
    ensures boundary { OnOk result (IsCharBoundary text.now at.new) }
    ensures err { IfErr result (λ unread. unread ≡ Unusual) }
{
    if next_byte(text, at) != b'"' {
        return Err(Unread::Unusual);
    }
    *at += 1;
    Ok(plain_end(text.as_bytes(), *at))
}

/// Passes the rest of a string that has escapes, from behind its first quote on.
#[inline(never)]
fn copy_escaped(alloc: Global, text: &str, at: &mut usize) -> Result<String, Unread>
    requires { IsCharBoundary text.now at.old }
    ensures string { IfOk result (λ s. HasRest text.now at.old (string_bytes s) at.new) }
    ensures bounds { OnOk result ((at.old < at.new) × (at.new ≤ length text.now)) }
{
    let mut copy = String::new(alloc);
    match append_rest(text, at, &mut copy) {
        Ok(()) => {
            copy.shrink_to_fit();
            Ok(copy)
        }
        Err(unread) => {
            drop(copy);
            Err(unread)
        }
    }
}

/// Appends the rest of a string, to what is empty so far, and passes it. Escapes come in rows, so the next one is looked
/// for right there.
fn append_rest(text: &str, at: &mut usize, copy: &mut String) -> Result<(), Unread>
    requires boundary { IsCharBoundary text.now at.old }
    requires empty { string_bytes copy.old ≡ [] }
    ensures string { OnOk result (HasRest text.now at.old (string_bytes copy.new) at.new) }
    ensures bounds { OnOk result ((at.old < at.new) × (at.new ≤ length text.now)) }
{
    while *at < text.len() {
        let byte = byte_at(text, *at);
        if byte == b'"' {
            *at += 1;
            return Ok(());
        }
        if byte == b'\\' {
            let Some((character, end)) = read_escape(text, *at) else {
                return Err(Unread::Unusual);
            };
            copy.push(character)?;
            *at = end;
        } else {
            append_run(text, at, copy)?;
        }
    }
    Err(Unread::Unusual)
}

/// Appends bytes that stand for themselves, from there to the next quote or escape, and passes them.
#[inline(always)]
fn append_run(text: &str, at: &mut usize, copy: &mut String) -> Result<(), Unread>
    requires boundary { IsCharBoundary text.now at.old }
    requires some { (get_or text.now at.old 0 ≢ 34) × (get_or text.now at.old 0 ≢ 92) }
    requires within { at.old < length text.now }
    ensures bytes { OnOk result (HasBytes text.now at.old (slice_range text.now at.old at.new) at.new) }
    ensures copied { OnOk result
        (string_bytes copy.new ≡ string_bytes copy.old ++ slice_range text.now at.old at.new) }
    ensures bounds { OnOk result ((at.old < at.new) × (at.new ≤ length text.now)) }
    ensures boundary { OnOk result (IsCharBoundary text.now at.new) }
{
    let from = *at;
    pass_run(text, at)?;
    copy.push_str(&text[from..*at])?;
    Ok(())
}

/// Passes bytes that stand for themselves, from there to the next quote or escape.
#[inline(always)]
pub(crate) fn pass_run(text: &str, at: &mut usize) -> Result<(), Unread>
    requires some { (get_or text.now at.old 0 ≢ 34) × (get_or text.now at.old 0 ≢ 92) }
    requires within { at.old < length text.now }
    ensures bytes { OnOk result (HasBytes text.now at.old (slice_range text.now at.old at.new) at.new) }
    ensures bounds { OnOk result ((at.old < at.new) × (at.new ≤ length text.now)) }
    ensures boundary { OnOk result (IsCharBoundary text.now at.new) }
    ensures err { IfErr result (λ unread. unread ≡ Unusual) }
{
    let end = plain_end(text.as_bytes(), *at);
    let stop = byte_at(text, end);
    if stop != b'"' && stop != b'\\' {
        return Err(Unread::Unusual);
    }
    *at = end;
    Ok(())
}
