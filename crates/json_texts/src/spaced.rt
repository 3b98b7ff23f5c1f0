//! Values in any spelling, told apart from others and made compact in one pass.

ghost use Rattle.std.specs.Prelude.{◌≡◌, ◌≤◌, ◌<◌, ◌-◌, ◌++◌, ◌⊎◌, ℕ, List, [], IfOk, IfSome, IsTrue, Some, length, true, false};
ghost use Rattle.std.specs.List.{AllByRecursion};
ghost use Rattle.json.specs.Lex.{tokens};
ghost use Rattle.json.specs.Print.{IsNumber};
ghost use Rattle.json_texts.specs.Compacting.{HasWrittenValue, HasWrittenItems, HasWrittenMembers, HasWrittenName, ReadsSame, With};
ghost use Rattle.json_texts.specs.Naturals.{with_commas};
ghost use Rattle.json_texts.specs.Known.{IsKnown};
ghost use Rattle.json_texts.specs.Texts.{compact_text};

use crate::compact::{byte_at, is_digit, number_end, word_end};
use crate::compacting::{append_naturals, append_string, ended_word, past_blanks};
use crate::room::Room;
use crate::utf8::utf8_text;
use json_values::Text;
use std::alloc::{AllocError, Global};

/// Where a value is known to stand in a text. It begins at 0 where none is known.
#[derive(Clone, Copy)]
pub struct Known {
    pub start: usize,
    pub end: usize,
}

impl Known {
    pub const NOTHING: Known = Known { start: 0, end: 0 };

    /// None is known, nor noted.
    const UNNOTED: Known = Known {
        start: 0,
        end: usize::MAX,
    };

    /// Keeps the longer of the two, but for `UNNOTED`: of the members of a member no value is noted.
    fn note(&mut self, start: usize, end: usize)
        ensures { (self.new ≡ self.old) ⊎ ((self.new.start ≡ start) × (self.new.end ≡ end)) }
    {
        if self.end == usize::MAX {
            return;
        }
        if end.saturating_sub(start) > self.end.saturating_sub(self.start) {
            *self = Known { start, end };
        }
    }
}

/// A text that was made compact.
#[derive(Drop)]
pub struct CompactText {
    pub text: Text,
    /// The longest value of a member, where the text is an object: a reader of its members needn't look for its end.
    pub longest: Known,
}

/// The compact text of the value that a text is, which nests at most `levels` deep. There is none where the text is no value
/// or nests deeper, has no blank and no longer escape, or has a rare escape: a half of a surrogate pair, a control byte, a
/// quote or a backslash in four digits.
pub fn compacted(
    alloc: Global,
    text: &str,
    levels: usize,
) -> Result<Option<CompactText>, AllocError>
    ensures same { IfOk result (λ r. IfSome r (λ c. tokens c.text ≡ tokens text.now)) }
    ensures compact { IfOk result (λ r. IfSome r (λ c. compact_text levels text.now ≡ Some c.text)) }
    ensures itself { IfOk result (λ r. IfSome r (λ c. compact_text levels c.text ≡ Some c.text)) }
    ensures longest { IfOk result (λ r. IfSome r (λ c. IsKnown (levels - 1) c.text c.longest)) }
{
    let mut out = Room::new(alloc);
    let mut longest = Known::NOTHING;
    if !append_text(text.as_bytes(), levels, &mut out, &mut longest)? {
        return Ok(None);
    }
    let bytes = out.into_vec();
    // (To look once more takes less than to append no part that isn't a text by itself.)
    match utf8_text(bytes.as_slice()) {
        Some(_) => {
            let text = Text::from(unsafe { String::from_utf8_unchecked(bytes) });
            Ok(Some(CompactText { text, longest }))
        }
        None => Ok(None),
    }
}

/// Whether the text is a value that wasn't compact, and is appended.
fn append_text(
    text: &[u8],
    levels: usize,
    out: &mut Room,
    longest: &mut Known,
) -> Result<bool, AllocError>
    requires empty { length out.old ≡ 0 }
    requires nothing { longest.old.start ≡ 0 }
    ensures value { IfOk result (λ done. IsTrue done → HasWrittenValue levels [] out.new) }
    ensures same { IfOk result (λ done. IsTrue done → tokens out.new ≡ tokens text.now) }
    ensures longest { IfOk result (λ done. IsTrue done → IsKnown (levels - 1) out.new longest.new) }
{
    let (from, kept) = past_blanks(text, 0, 0, out)?;
    let Some((end, kept)) = append_whole(text, kept, from, levels, out, longest)? else {
        return Ok(false);
    };
    let (end, kept) = past_blanks(text, kept, end, out)?;
    if end != text.len() || out.len() == 0 {
        return Ok(false);
    }
    out.append(text, kept, end)?;
    Ok(true)
}

/// As `append_value`; of an object's members, the longest value is noted.
fn append_whole(
    text: &[u8],
    kept: usize,
    from: usize,
    levels: usize,
    out: &mut Room,
    longest: &mut Known,
) -> Result<Option<(usize, usize)>, AllocError>
    requires { (kept ≤ from) × (from ≤ length text.now) }
    ensures value { IfOk result (λ r. IfSome r (λ e. HasWrittenValue levels (With out.old text.now kept from)
        (With out.new text.now e.1 e.0))) }
    ensures same { IfOk result (λ r. IfSome r (λ e. ReadsSame text.now (With out.old text.now kept from) from false →
        ReadsSame text.now (With out.new text.now e.1 e.0) e.0 true)) }
    ensures bounds { IfOk result (λ r. IfSome r (λ e.
        (e.1 ≤ e.0) × (from < e.0) × (e.0 ≤ length text.now))) }
    ensures longest { IfOk result (λ r. IfSome r (λ e. IsKnown (levels - 1) (With out.old text.now kept from) longest.old →
        IsKnown (levels - 1) (With out.new text.now e.1 e.0) longest.new)) }
{
    if byte_at(text, from) == b'{' && levels > 0 {
        append_members(text, kept, from + 1, levels - 1, out, longest)
    } else {
        append_value(text, kept, from, levels, out)
    }
}

/// Appends the value that begins there, but for its last bytes, which are kept with those before. Gives its end, and where
/// the bytes begin that aren't appended yet. (What a call gives, in memory, is taken apart at once, so that what is found
/// without a call stays in registers. Most numbers have no sign, so their first digits are told before the rest.)
#[cycle(spaced)]
#[inline(always)]
fn append_value(
    text: &[u8],
    kept: usize,
    from: usize,
    levels: usize,
    out: &mut Room,
) -> Result<Option<(usize, usize)>, AllocError>
    requires { (kept ≤ from) × (from ≤ length text.now) }
    ensures value { IfOk result (λ r. IfSome r (λ e. HasWrittenValue levels (With out.old text.now kept from)
        (With out.new text.now e.1 e.0))) }
    ensures same { IfOk result (λ r. IfSome r (λ e. ReadsSame text.now (With out.old text.now kept from) from false →
        ReadsSame text.now (With out.new text.now e.1 e.0) e.0 true)) }
    ensures bounds { IfOk result (λ r. IfSome r (λ e.
        (e.1 ≤ e.0) × (from < e.0) × (e.0 ≤ length text.now))) }
{
    match byte_at(text, from) {
        b'"' => append_string(text, kept, from + 1, out),
        b'[' => {
            if levels == 0 {
                return Ok(None);
            }
            let Some((end, kept)) = append_items(text, kept, from + 1, levels - 1, out)? else {
                return Ok(None);
            };
            Ok(Some((end, kept)))
        }
        b'{' => {
            if levels == 0 {
                return Ok(None);
            }
            let mut longest = Known::UNNOTED;
            let Some((end, kept)) = append_members(
                text,
                kept,
                from + 1,
                levels - 1,
                out,
                &mut longest,
            )?
            else {
                return Ok(None);
            };
            Ok(Some((end, kept)))
        }
        b'0'..=b'9' => Ok(ended_word(text, kept, number_end(text, from))),
        b't' => Ok(ended_word(text, kept, word_end(text, from, b"true"))),
        b'f' => Ok(ended_word(text, kept, word_end(text, from, b"false"))),
        b'n' => Ok(ended_word(text, kept, word_end(text, from, b"null"))),
        _ => Ok(ended_word(text, kept, number_end(text, from))),
    }
}

#[cycle(spaced)]
fn append_items(
    text: &[u8],
    kept: usize,
    from: usize,
    levels: usize,
    out: &mut Room,
) -> Result<Option<(usize, usize)>, AllocError>
    requires { (kept ≤ from) × (from ≤ length text.now) }
    ensures items { IfOk result (λ r. IfSome r (λ e. HasWrittenItems levels (With out.old text.now kept from)
        (With out.new text.now e.1 e.0))) }
    ensures same { IfOk result (λ r. IfSome r (λ e. ReadsSame text.now (With out.old text.now kept from) from false →
        ReadsSame text.now (With out.new text.now e.1 e.0) e.0 false)) }
    ensures bounds { IfOk result (λ r. IfSome r (λ e.
        (e.1 ≤ e.0) × (from < e.0) × (e.0 ≤ length text.now))) }
{
    let (mut at, mut kept) = past_blanks(text, kept, from, out)?;
    if byte_at(text, at) == b']' {
        return Ok(Some((at + 1, kept)));
    }
    while at < text.len() {
        (at, kept) = past_naturals(text, kept, at, out)?;
        let Some((end, left)) = append_value(text, kept, at, levels, out)? else {
            return Ok(None);
        };
        let (end, left) = past_blanks(text, left, end, out)?;
        let next = byte_at(text, end);
        if next == b']' {
            return Ok(Some((end + 1, left)));
        }
        if next != b',' {
            return Ok(None);
        }
        (at, kept) = past_blanks(text, left, end + 1, out)?;
    }
    Ok(None)
}

/// Appends the integers without a sign that begin there, where nothing is kept before them.
#[inline(always)]
fn past_naturals(
    text: &[u8],
    kept: usize,
    from: usize,
    out: &mut Room,
) -> Result<(usize, usize), AllocError>
    requires { (kept ≤ from) × (from ≤ length text.now) }
    ensures numbers { IfOk result (λ e. (numbers : List (List ℕ)) × AllByRecursion IsNumber numbers ×
        (With out.new text.now e.1 e.0 ≡ With out.old text.now kept from ++ with_commas numbers)) }
    ensures same { IfOk result (λ e. ReadsSame text.now (With out.old text.now kept from) from false →
        ReadsSame text.now (With out.new text.now e.1 e.0) e.0 false) }
    ensures bounds { IfOk result (λ e. (e.1 ≤ e.0) × (from ≤ e.0) × (e.0 ≤ length text.now)) }
{
    if kept != from || !is_digit(byte_at(text, from)) {
        return Ok((from, kept));
    }
    let at = append_naturals(text, from, out)?;
    Ok((at, at))
}

#[cycle(spaced)]
fn append_members(
    text: &[u8],
    kept: usize,
    from: usize,
    levels: usize,
    out: &mut Room,
    longest: &mut Known,
) -> Result<Option<(usize, usize)>, AllocError>
    requires { (kept ≤ from) × (from ≤ length text.now) }
    ensures members { IfOk result (λ r. IfSome r (λ e. HasWrittenMembers levels (With out.old text.now kept from)
        (With out.new text.now e.1 e.0))) }
    ensures same { IfOk result (λ r. IfSome r (λ e. ReadsSame text.now (With out.old text.now kept from) from false →
        ReadsSame text.now (With out.new text.now e.1 e.0) e.0 false)) }
    ensures bounds { IfOk result (λ r. IfSome r (λ e.
        (e.1 ≤ e.0) × (from < e.0) × (e.0 ≤ length text.now))) }
    ensures longest { IfOk result (λ r. IfSome r (λ e. IsKnown levels (With out.old text.now kept from) longest.old →
        IsKnown levels (With out.new text.now e.1 e.0) longest.new)) }
{
    let (mut at, mut kept) = past_blanks(text, kept, from, out)?;
    if byte_at(text, at) == b'}' {
        return Ok(Some((at + 1, kept)));
    }
    while at < text.len() {
        let Some((value, left)) = append_name(text, kept, at, out)? else {
            return Ok(None);
        };
        let start = out.len() + (value - left);
        let Some((end, left)) = append_value(text, left, value, levels, out)? else {
            return Ok(None);
        };
        longest.note(start, out.len() + (end - left));
        let (end, left) = past_blanks(text, left, end, out)?;
        let next = byte_at(text, end);
        if next == b'}' {
            return Ok(Some((end + 1, left)));
        }
        if next != b',' {
            return Ok(None);
        }
        (at, kept) = past_blanks(text, left, end + 1, out)?;
    }
    Ok(None)
}

/// Appends the name of a member and its colon. Gives where its value begins, and where the bytes begin that aren't appended
/// yet.
#[inline(always)]
fn append_name(
    text: &[u8],
    kept: usize,
    from: usize,
    out: &mut Room,
) -> Result<Option<(usize, usize)>, AllocError>
    requires { (kept ≤ from) × (from ≤ length text.now) }
    ensures name { IfOk result (λ r. IfSome r (λ e. HasWrittenName (With out.old text.now kept from)
        (With out.new text.now e.1 e.0))) }
    ensures same { IfOk result (λ r. IfSome r (λ e. ReadsSame text.now (With out.old text.now kept from) from false →
        ReadsSame text.now (With out.new text.now e.1 e.0) e.0 false)) }
    ensures bounds { IfOk result (λ r. IfSome r (λ e.
        (e.1 ≤ e.0) × (from < e.0) × (e.0 ≤ length text.now))) }
{
    if byte_at(text, from) != b'"' {
        return Ok(None);
    }
    let Some((end, kept)) = append_string(text, kept, from + 1, out)? else {
        return Ok(None);
    };
    let (end, kept) = past_blanks(text, kept, end, out)?;
    if byte_at(text, end) != b':' {
        return Ok(None);
    }
    Ok(Some(past_blanks(text, kept, end + 1, out)?))
}
