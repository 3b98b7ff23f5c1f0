//! Contents that are compact objects, read from the texts of their members. What isn't seen to be a call or a result is left
//! to a reader of tokens.

ghost use Rattle.std.specs.Prelude.{◌≡◌, ◌-◌, IfOk, IfSome, IsTrue, false};
ghost use Rattle.std.specs.Str.{bytes_eq};
ghost use Rattle.json.specs.Print.{quoted};
ghost use Rattle.json_texts.specs.Known.{IsKnown};
ghost use Rattle.connection_messages.specs.Envelope.{HasBatch, cancels_by, GivesId, GivesParams, GivesVersion, GivesCall, GivesEntry, GivesReply, GivesCancel, GivesTarget};
ghost use Rattle.connection_messages.specs.Params.{is_structured};
ghost use Rattle.connection_messages.specs.Reading.{unit_of};
ghost use Rattle.connection_messages.specs.declared.read.unit.TheConstants.{MOST_DEPTH_IN};
ghost use Rattle.connection_messages.specs.declared.rules.Rules.{Rules};

use super::batch::{batch_within, has_too_many};
use super::call::read_null_params;
use super::envelope::Envelope;
use super::number::unsigned;
use super::rooms::Rooms;
use super::unit::MOST_DEPTH_IN;
use crate::call::Call;
use crate::cancels::Cancels;
use crate::entry::Entry;
use crate::reply::Reply;
use crate::rules::Rules;
use crate::unit::Unit;
use json_texts::{Known, compacted, plain_end};
use json_values::Text;
use message_ids::Id;
use std::alloc::{AllocError, Global};

/// The unit of a content that is seen to be one compact call or result, or a batch of such. Where the value of one of
/// its members is known, its end isn't looked for.
pub(crate) fn read_compact(
    rooms: &mut Rooms,
    rules: Rules,
    text: &str,
    known: Known,
) -> Result<Option<Unit>, AllocError>
    requires { IsKnown (MOST_DEPTH_IN - 1) text.now known }
    ensures { IfOk result (λ u. IfSome u (λ unit. unit ≡ unit_of rules false text.now)) }
{
    match text.as_bytes().first() {
        Some(b'[') => read_batch(rooms, rules, text),
        _ => read_single(rooms, rules, text, known),
    }
}

/// The same of a content whose text isn't compact, once it is made so.
pub(crate) fn read_compacted(
    rooms: &mut Rooms,
    rules: Rules,
    text: &str,
) -> Result<Option<Unit>, AllocError>
    ensures { IfOk result (λ u. IfSome u (λ unit. unit ≡ unit_of rules false text.now)) }
{
    match compacted(rooms.alloc, text, MOST_DEPTH_IN)? {
        Some(compact) => read_compact(rooms, rules, compact.text.as_str(), compact.longest),
        None => Ok(None),
    }
}

fn read_single(
    rooms: &mut Rooms,
    rules: Rules,
    text: &str,
    known: Known,
) -> Result<Option<Unit>, AllocError>
    requires { IsKnown (MOST_DEPTH_IN - 1) text.now known }
    ensures { IfOk result (λ u. IfSome u (λ unit. unit ≡ unit_of rules false text.now)) }
{
    let mut envelope = Envelope::new();
    if !envelope.note_whole(text, known) {
        return Ok(None);
    }
    match read_envelope(rooms, rules, &envelope)? {
        Some(entry) => Ok(Some(Unit::Single(entry))),
        None => Ok(None),
    }
}

fn read_batch(rooms: &mut Rooms, rules: Rules, text: &str) -> Result<Option<Unit>, AllocError>
    ensures { IfOk result (λ u. IfSome u (λ unit. unit ≡ unit_of rules false text.now)) }
{
    if has_too_many(rules, text) {
        return Ok(Some(Unit::Single(Entry::Invalid)));
    }
    match read_entries(rooms, rules, text)? {
        Some(entries) => Ok(Some(batch_within(rules, entries))),
        None => Ok(None),
    }
}

fn read_entries(
    rooms: &mut Rooms,
    rules: Rules,
    text: &str,
) -> Result<Option<Vec<Entry>>, AllocError>
    ensures { IfOk result (λ e. IfSome e (λ entries. HasBatch rules text.now entries.items)) }
{
    let bytes = text.as_bytes();
    if bytes.is_empty() || bytes[0] != b'[' {
        return Ok(None);
    }
    let mut entries = Vec::new(rooms.alloc);
    let mut at = 1;
    while at < bytes.len() {
        let mut envelope = Envelope::new();
        let Some(end) = envelope.note_object(text, at, MOST_DEPTH_IN - 2, Known::NOTHING) else {
            drop(entries);
            return Ok(None);
        };
        let Some(entry) = read_envelope(rooms, rules, &envelope)? else {
            drop(entries);
            return Ok(None);
        };
        entries.push(entry)?;
        if end == bytes.len() {
            drop(entries);
            return Ok(None);
        }
        let next = bytes[end];
        at = end + 1;
        if next == b']' && at == bytes.len() {
            return Ok(Some(entries));
        }
        if next != b',' {
            drop(entries);
            return Ok(None);
        }
    }
    drop(entries);
    Ok(None)
}

/// The entry that an envelope is of. Inlined, so that an entry, which is of 100 bytes and more, is made where its unit or its
/// batch has it.
#[inline(always)]
fn read_envelope(
    rooms: &mut Rooms,
    rules: Rules,
    envelope: &Envelope<'_>,
) -> Result<Option<Entry>, AllocError>
    ensures { IfOk result (λ e. IfSome e (λ entry. GivesEntry rules envelope.now entry)) }
{
    if !has_version_2(envelope) {
        return Ok(None);
    }
    let Some(part) = envelope.method else {
        return read_result(rooms, envelope);
    };
    let Some(method) = plain(part) else {
        return Ok(None);
    };
    if let Some(by) = cancels_by(rules.cancels, method) {
        return read_cancel(rooms.alloc, by, envelope);
    }
    match read_call(rooms, rules.null_params, envelope, method)? {
        Some(call) => Ok(Some(Entry::Call(call))),
        None => Ok(None),
    }
}

/// The cancels, where theirs have this method.
fn cancels_by(cancels: Option<Cancels>, method: &str) -> Option<Cancels>
    ensures { result ≡ cancels_by cancels method.now }
{
    match cancels {
        Some(by) if method == by.method() => Some(by),
        _ => None,
    }
}

/// A cancel. One whose target isn't seen to be a string or a whole number from 0 on is left to the reader of tokens.
fn read_cancel(
    alloc: Global,
    by: Cancels,
    envelope: &Envelope<'_>,
) -> Result<Option<Entry>, AllocError>
    ensures { IfOk result (λ e. IfSome e (λ entry. GivesCancel by envelope.now entry)) }
{
    let (None, Some(params)) = (envelope.id, envelope.params) else {
        return Ok(None);
    };
    match read_target(alloc, by, params)? {
        Some(target) => Ok(Some(Entry::Cancel(target))),
        None => Ok(None),
    }
}

fn read_target(alloc: Global, by: Cancels, params: &str) -> Result<Option<Id>, AllocError>
    ensures { IfOk result (λ t. IfSome t (λ target. GivesTarget by params.now target)) }
{
    let mut members = Envelope::new();
    let Some(end) = members.note_object(params, 0, MOST_DEPTH_IN - 1, Known::NOTHING) else {
        return Ok(None);
    };
    if end != params.len() {
        return Ok(None);
    }
    let Some(part) = members.target(by) else {
        return Ok(None);
    };
    if let Some(number) = unsigned(part) {
        return Ok(Some(Id::Unsigned(number)));
    }
    match plain(part) {
        Some(text) => Ok(Some(Id::Text(Text::copy_of(alloc, text)?))),
        None => Ok(None),
    }
}

fn has_version_2(envelope: &Envelope<'_>) -> bool
    ensures { IsTrue result → GivesVersion envelope.now }
{
    match envelope.version {
        Some(version) => is_word(version, b"\"2.0\""),
        None => false,
    }
}

fn read_call(
    rooms: &mut Rooms,
    null_params: bool,
    envelope: &Envelope<'_>,
    method: &str,
) -> Result<Option<Call>, AllocError>
    ensures call { IfOk result (λ c. IfSome c (λ call. GivesCall null_params envelope.now method.now call)) }
    ensures method { IfOk result (λ c. IfSome c (λ call. call.method ≡ method.now)) }
{
    let Some(params) = read_params(rooms, null_params, envelope.params)? else {
        return Ok(None);
    };
    let Some(id) = read_id(rooms.alloc, envelope.id)? else {
        drop(params);
        return Ok(None);
    };
    Ok(Some(Call {
        id,
        method: rooms.copy_name(method)?,
        params,
    }))
}

fn read_params(
    rooms: &mut Rooms,
    null_params: bool,
    part: Option<&str>,
) -> Result<Option<Option<Text>>, AllocError>
    ensures { IfOk result (λ p. IfSome p (λ params. GivesParams null_params part.entry params)) }
{
    let Some(part) = part else {
        return Ok(Some(None));
    };
    if is_structured(part) {
        return Ok(Some(Some(rooms.copy_text(part)?)));
    }
    if is_word(part, b"null") {
        return Ok(Some(read_null_params(rooms.alloc, null_params)?));
    }
    Ok(None)
}

fn is_structured(part: &str) -> bool
    ensures { result ≡ is_structured part.now }
{
    matches!(part.as_bytes().first(), Some(b'[' | b'{'))
}

fn read_id(alloc: Global, part: Option<&str>) -> Result<Option<Option<Id>>, AllocError>
    ensures { IfOk result (λ i. IfSome i (λ id. GivesId part.entry id)) }
{
    let Some(part) = part else {
        return Ok(Some(None));
    };
    if let Some(number) = unsigned(part) {
        return Ok(Some(Some(Id::Unsigned(number))));
    }
    if is_word(part, b"null") {
        return Ok(Some(Some(Id::Null)));
    }
    match plain(part) {
        Some(text) => Ok(Some(Some(Id::Text(Text::copy_of(alloc, text)?)))),
        None => Ok(None),
    }
}

/// A result of a call of ours.
fn read_result(rooms: &mut Rooms, envelope: &Envelope<'_>) -> Result<Option<Entry>, AllocError>
    ensures { IfOk result (λ e. IfSome e (λ entry. (rules : Rules) → GivesReply rules envelope.now entry)) }
{
    let (Some(id), Some(result), None) = (envelope.id, envelope.result, envelope.error) else {
        return Ok(None);
    };
    let Some(key) = unsigned(id) else {
        return Ok(None);
    };
    if key == 0 {
        return Ok(None);
    }
    let reply = Reply::Result(rooms.copy_text(result)?);
    Ok(Some(Entry::Reply { key, reply }))
}

/// The text of a string that has no escape. Its bytes are looked at once, by the search that the last quote stops.
fn plain(part: &str) -> Option<&str>
    ensures { IfSome result (λ text. part.now ≡ quoted text.now) }
{
    let bytes = part.as_bytes();
    if bytes.len() < 2 || bytes[0] != b'"' {
        return None;
    }
    let last = bytes.len() - 1;
    if bytes[last] != b'"' || plain_end(bytes, 1) != last {
        return None;
    }
    Some(&part[1..last])
}

/// Whether the text is this word. Two arrays are compared in place, where two texts take a call.
#[inline(always)]
fn is_word<const N: usize>(text: &str, word: &[u8; N]) -> bool
    ensures { result ≡ bytes_eq text.now word.now }
{
    match text.as_bytes().first_chunk::<N>() {
        Some(first) => text.len() == N && *first == *word,
        None => false,
    }
}
