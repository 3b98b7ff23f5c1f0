//! Texts that have no value, and what they are all the same.

ghost use Rattle.std.specs.Prelude.{◌≡◌, IfOk, OnOk, option_map, if◌then◌else◌};
ghost use Rattle.conversation_reading.specs.Fronts.{escape_after, is_surrogate_digit, without_halves, place_after, is_opening, is_too_deep, closers_after, front_of};

use crate::reading::MOST_DEPTH_IN;
use std::alloc::{AllocError, Global};

/// Where in a text a byte stands.
#[derive(Debug, Clone, Copy, PartialEq, Eq)]
pub(crate) enum Place {
    Outside,
    InString,
    AfterBackslash,
}

/// The text with a 0 in place of each d that begins the escape of a surrogate.
pub(crate) fn without_halves(alloc: Global, text: &[u8]) -> Result<Vec<u8>, AllocError>
    ensures { IfOk result (λ whole. whole.items ≡ without_halves 0 text.now) }
{
    let mut whole = Vec::with_capacity(alloc, text.len())?;
    let mut seen = 0;
    for byte in text {
        whole.push(without_half(seen, *byte))?;
        seen = escape_after(seen, *byte);
    }
    Ok(whole)
}

fn without_half(seen: u8, byte: u8) -> u8
    ensures { result ≡ if is_surrogate_digit seen byte then 48 else byte }
{
    if seen == 2 && (byte == b'd' || byte == b'D') {
        b'0'
    } else {
        byte
    }
}

fn escape_after(seen: u8, byte: u8) -> u8
    ensures { result ≡ escape_after seen byte }
{
    if byte == b'\\' {
        1
    } else if seen == 1 && byte == b'u' {
        2
    } else {
        0
    }
}

/// The text up to the first bracket that nests too deep, with a 0 in its place, and then all closed that is open there.
pub(crate) fn front_of(alloc: Global, text: &[u8]) -> Result<Option<Vec<u8>>, AllocError>
    ensures { IfOk result (λ front. option_map (λ v. v.items) front ≡ front_of text.now) }
{
    let mut front = Vec::new(alloc);
    let mut closers = Vec::new(alloc);
    let mut place = Place::Outside;
    for byte in text {
        if is_too_deep(place, closers.as_slice(), *byte) {
            front.push(b'0')?;
            front.extend_from_slice(closers.as_slice())?;
            return Ok(Some(front));
        }
        front.push(*byte)?;
        keep_closers(&mut closers, place, *byte)?;
        place = place_after(place, *byte);
    }
    Ok(None)
}

/// Whether a bracket opens one level too many.
fn is_too_deep(place: Place, closers: &[u8], byte: u8) -> bool
    ensures { result ≡ is_too_deep place closers.now byte }
{
    is_opening(place, byte) && closers.len() == MOST_DEPTH_IN
}

fn is_opening(place: Place, byte: u8) -> bool
    ensures { result ≡ is_opening place byte }
{
    match place {
        Place::Outside => byte == b'[' || byte == b'{',
        Place::InString | Place::AfterBackslash => false,
    }
}

fn place_after(place: Place, byte: u8) -> Place
    ensures { result ≡ place_after place byte }
{
    match (place, byte) {
        (Place::Outside, b'"') => Place::InString,
        (Place::Outside, _) => Place::Outside,
        (Place::InString, b'"') => Place::Outside,
        (Place::InString, b'\\') => Place::AfterBackslash,
        (Place::InString | Place::AfterBackslash, _) => Place::InString,
    }
}

/// Keeps what closes the arrays and objects that are open, the innermost first.
fn keep_closers(closers: &mut Vec<u8>, place: Place, byte: u8) -> Result<(), AllocError>
    ensures { OnOk result (closers.new.items ≡ closers_after place closers.old.items byte) }
{
    if place == Place::Outside {
        match byte {
            b'[' => closers.insert(0, b']')?,
            b'{' => closers.insert(0, b'}')?,
            b']' | b'}' => {
                if !closers.is_empty() {
                    let _innermost = closers.remove(0);
                }
            }
            _ => {}
        }
    }
    Ok(())
}
