//! Values that are passed by, without their being made.

ghost use Rattle.std.specs.Prelude.{◌≡◌, ◌<◌, ◌≤◌, ◌∷◌, [], List, ℕ, true, length, OnOk, IfErr};
ghost use Rattle.json.specs.Lex.{token, colon};
ghost use Rattle.json.specs.Token.{string};
ghost use Rattle.serde_json.specs.Data.{Num, Data, number, Items, Members};
ghost use Rattle.value_reading.specs.Containers.{is_container};
ghost use Rattle.value_reading.specs.Lexed.{Lexed, HasRest, IsRead, ItemsAreRead, MembersAreRead};
ghost use Rattle.value_reading.specs.declared.unread.Unread.TheVariants.{Unusual};

use crate::escapes::read_escape;
use crate::numbers::{read_number, whole_end};
use crate::passing::{byte_at, is_over, next_byte, pass, pass_word};
use crate::strings::{open, pass_run};
use crate::unread::Unread;

/// Passes an array or an object, without its values being made. It may nest `levels` deep.
#[cycle(container)]
pub fn pass_container(text: &str, at: &mut usize, levels: usize) -> Result<(), Unread>
    ensures container { OnOk result
        ((d : Data) × IsRead levels text.now at.old at.new d × (is_container d ≡ true)) }
    ensures bounds { OnOk result ((at.old < at.new) × (at.new ≤ length text.now)) }
    ensures err { IfErr result (λ unread. unread ≡ Unusual) }
{
    let bracket = next_byte(text, at);
    if levels == 0 {
        return Err(Unread::Unusual);
    }
    match bracket {
        b'[' => {
            *at += 1;
            pass_items(text, at, levels - 1)
        }
        b'{' => {
            *at += 1;
            pass_members(text, at, levels - 1)
        }
        _ => Err(Unread::Unusual),
    }
}

/// Passes the rest of an array, from behind its bracket on.
#[cycle(container)]
fn pass_items(text: &str, at: &mut usize, levels: usize) -> Result<(), Unread>
    ensures items { OnOk result ((ds : Items) × ItemsAreRead levels text.now at.old at.new ds) }
    ensures bounds { OnOk result ((at.old < at.new) × (at.new ≤ length text.now)) }
    ensures err { IfErr result (λ unread. unread ≡ Unusual) }
{
    if next_byte(text, at) == b']' {
        *at += 1;
        return Ok(());
    }
    while *at < text.len() {
        pass_value(text, at, levels)?;
        if is_over(text, at, b']')? {
            return Ok(());
        }
    }
    Err(Unread::Unusual)
}

/// Passes the rest of an object, from behind its brace on.
#[cycle(container)]
fn pass_members(text: &str, at: &mut usize, levels: usize) -> Result<(), Unread>
    ensures members { OnOk result
        ((ms : Members) × MembersAreRead levels text.now at.old at.new ms) }
    ensures bounds { OnOk result ((at.old < at.new) × (at.new ≤ length text.now)) }
    ensures err { IfErr result (λ unread. unread ≡ Unusual) }
{
    if next_byte(text, at) == b'}' {
        *at += 1;
        return Ok(());
    }
    while *at < text.len() {
        pass_name(text, at)?;
        pass_value(text, at, levels)?;
        if is_over(text, at, b'}')? {
            return Ok(());
        }
    }
    Err(Unread::Unusual)
}

/// Passes a value.
#[cycle(container)]
#[inline(always)]
fn pass_value(text: &str, at: &mut usize, levels: usize) -> Result<(), Unread>
    ensures value { OnOk result ((d : Data) × IsRead levels text.now at.old at.new d) }
    ensures bounds { OnOk result ((at.old < at.new) × (at.new ≤ length text.now)) }
    ensures err { IfErr result (λ unread. unread ≡ Unusual) }
{
    match next_byte(text, at) {
        b'"' => pass_string(text, at),
        b'[' | b'{' => pass_container(text, at, levels),
        b't' => pass_word(text, at, b"true"),
        b'f' => pass_word(text, at, b"false"),
        b'n' => pass_word(text, at, b"null"),
        _ => pass_number(text, at),
    }
}

/// Passes a number. A whole one, of which there can be many, is passed without a call.
#[inline(always)]
fn pass_number(text: &str, at: &mut usize) -> Result<(), Unread>
    ensures number { OnOk result ((n : Num) × IsRead 0 text.now at.old at.new (number n)) }
    ensures bounds { OnOk result ((at.old < at.new) × (at.new ≤ length text.now)) }
    ensures err { IfErr result (λ unread. unread ≡ Unusual) }
{
    let Some(end) = whole_end(text, *at) else {
        return pass_any_number(text, at);
    };
    *at = end;
    Ok(())
}

/// Apart, since few numbers have a sign, a fraction, an exponent or many digits. The number is worked out, since one
/// that is too large for a float is left to the reader of tokens.
#[inline(never)]
fn pass_any_number(text: &str, at: &mut usize) -> Result<(), Unread>
    ensures number { OnOk result ((n : Num) × IsRead 0 text.now at.old at.new (number n)) }
    ensures bounds { OnOk result ((at.old < at.new) × (at.new ≤ length text.now)) }
    ensures err { IfErr result (λ unread. unread ≡ Unusual) }
{
    read_number(text, at)?;
    Ok(())
}

/// Passes the name of a member, with its colon.
fn pass_name(text: &str, at: &mut usize) -> Result<(), Unread>
    ensures name { OnOk result
        ((s : List ℕ) × Lexed text.now at.old (token (string s) ∷ colon ∷ []) at.new) }
    ensures bounds { OnOk result ((at.old < at.new) × (at.new ≤ length text.now)) }
    ensures err { IfErr result (λ unread. unread ≡ Unusual) }
{
    pass_string(text, at)?;
    pass(text, at, b':')
}

/// Passes a string, which may have escapes.
#[inline(always)]
fn pass_string(text: &str, at: &mut usize) -> Result<(), Unread>
    ensures string { OnOk result ((s : List ℕ) × Lexed text.now at.old (token (string s) ∷ []) at.new) }
    ensures bounds { OnOk result ((at.old < at.new) × (at.new ≤ length text.now)) }
    ensures err { IfErr result (λ unread. unread ≡ Unusual) }
{
    let end = open(text, at)?;
    if byte_at(text, end) == b'"' {
        *at = end + 1;
        return Ok(());
    }
    *at = end;
    pass_rest(text, at)
}

/// Passes the rest of a string that has escapes. Escapes come in rows, so the next one is looked for right there.
#[inline(never)]
fn pass_rest(text: &str, at: &mut usize) -> Result<(), Unread>
    ensures string { OnOk result ((s : List ℕ) × HasRest text.now at.old s at.new) }
    ensures bounds { OnOk result ((at.old < at.new) × (at.new ≤ length text.now)) }
    ensures err { IfErr result (λ unread. unread ≡ Unusual) }
{
    while *at < text.len() {
        let byte = byte_at(text, *at);
        if byte == b'"' {
            *at += 1;
            return Ok(());
        }
        if byte == b'\\' {
            let Some((_, end)) = read_escape(text, *at) else {
                return Err(Unread::Unusual);
            };
            *at = end;
        } else {
            pass_run(text, at)?;
        }
    }
    Err(Unread::Unusual)
}
