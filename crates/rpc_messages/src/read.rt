//! From a text to its unit (JSON-RPC 2.0, sections 4 to 6), in one pass over its tokens.

ghost use Rattle.std.specs.Prelude.{◌≡◌, ◌<◌, ◌≤◌, ◌∷◌, length, map, Some, None, Err, IfOk, OnOk};
ghost use Rattle.json.specs.Json.{value, items};
ghost use Rattle.json.specs.Reads.{token_of};
ghost use Rattle.json_reading.specs.declared.fault.ReadFault.TheVariants.{Refused};
ghost use Rattle.serde_json.specs.Data.{Data, Items as ItemsRead};
ghost use Rattle.serde_json.specs.Read.{of_json, of_items, converted, max_depth, read as read_data};
ghost use Rattle.rpc_messages.specs.Entry.{entry_seen, entry_of, message_in};
ghost use Rattle.rpc_messages.specs.Held.{envelope_view};
ghost use Rattle.rpc_messages.specs.Unit.{unit_seen, unit_of_reading, value_unit, batch_of, entries_of};

use self::envelope::{Envelope, read_envelope};
use crate::entry::Entry;
use crate::unit::Unit;
use json::{Reader, Scratch, Token};
use json_reading::{ReadFault, value_from};
use json_values::Items;
use std::alloc::{AllocError, Global};

pub(crate) mod direct;
mod envelope;
mod members;
mod names;
mod reply;
mod their_call;
mod version;

/// Values of a text nest at most this deep.
const MOST_DEPTH_IN: usize = 127;

/// The unit of a text. It is refused where it is no JSON of at most 127 levels.
pub(crate) fn read_text(alloc: Global, text: &str, scratch: &mut Scratch) -> Result<Unit, ReadFault>
    ensures ok { IfOk result (λ u. unit_seen u ≡ unit_of_reading (read_data text.now)) }
    ensures refused { result ≡ Err Refused → read_data text.now ≡ None }
{
    let mut reader = Reader::new(text, scratch)?;
    let unit = read_whole(alloc, &mut reader)?;
    if reader.next().is_some() {
        drop(unit);
        return Err(ReadFault::Refused);
    }
    Ok(unit)
}

fn read_whole(alloc: Global, reader: &mut Reader<'_>) -> Result<Unit, ReadFault>
    ensures ok { IfOk result (λ u. (d : Data)
        × (converted of_json (value max_depth reader.old) ≡ Some (d, reader.new))
        × (unit_seen u ≡ value_unit d)) }
    ensures refused { result ≡ Err Refused
        → converted of_json (value max_depth reader.old) ≡ None }
{
    match reader.next().ok_or(ReadFault::Refused)? {
        Token::BeginArray => read_array(alloc, reader, MOST_DEPTH_IN - 1),
        token => Ok(Unit::Single(entry_from(alloc, token, reader, MOST_DEPTH_IN)?)),
    }
}

/// The unit of an array, from behind its bracket on.
fn read_array(alloc: Global, reader: &mut Reader<'_>, depth: usize) -> Result<Unit, ReadFault>
    ensures ok { IfOk result (λ u. (ds : ItemsRead)
        × (converted of_items (items (value depth) (length reader.old) reader.old)
        ≡ Some (ds, reader.new))
        × (unit_seen u ≡ batch_of (entries_of ds))) }
    ensures refused { result ≡ Err Refused
        → converted of_items (items (value depth) (length reader.old) reader.old) ≡ None }
{
    let entries = Items::from(read_entries(alloc, reader, depth)?);
    if entries.is_empty() {
        return Ok(Unit::Single(Entry::Invalid));
    }
    Ok(Unit::Batch(entries))
}

fn read_entries(
    alloc: Global,
    reader: &mut Reader<'_>,
    depth: usize,
) -> Result<Vec<Entry>, ReadFault>
    ensures ok { IfOk result (λ entries. (ds : ItemsRead)
        × (converted of_items (items (value depth) (length reader.old) reader.old)
        ≡ Some (ds, reader.new))
        × (map entry_seen entries.items ≡ entries_of ds)) }
    ensures refused { result ≡ Err Refused
        → converted of_items (items (value depth) (length reader.old) reader.old) ≡ None }
{
    let mut entries = Vec::new(alloc);
    'elements: while !reader.take_end_array() {
        let entry = read_entry(alloc, reader, depth)?;
        entries.push(entry)?;
    }
    Ok(entries)
}

fn read_entry(alloc: Global, reader: &mut Reader<'_>, depth: usize) -> Result<Entry, ReadFault>
    ensures ok { IfOk result (λ e. (d : Data)
        × (converted of_json (value depth reader.old) ≡ Some (d, reader.new))
        × (entry_seen e ≡ entry_of d)) }
    ensures shorter { OnOk result (length reader.new < length reader.old) }
    ensures refused { result ≡ Err Refused → converted of_json (value depth reader.old) ≡ None }
{
    let token = reader.next().ok_or(ReadFault::Refused)?;
    entry_from(alloc, token, reader, depth)
}

/// The entry that begins with this token, which the reader has given.
fn entry_from(
    alloc: Global,
    token: Token<'_>,
    reader: &mut Reader<'_>,
    depth: usize,
) -> Result<Entry, ReadFault>
    ensures ok { IfOk result (λ e. (d : Data)
        × (converted of_json (value depth (token_of token.entry ∷ reader.old))
        ≡ Some (d, reader.new))
        × (entry_seen e ≡ entry_of d)) }
    ensures shorter { OnOk result (length reader.new ≤ length reader.old) }
    ensures refused { result ≡ Err Refused
        → converted of_json (value depth (token_of token.entry ∷ reader.old)) ≡ None }
{
    match token {
        Token::BeginObject => {
            if depth == 0 {
                return Err(ReadFault::Refused);
            }
            let envelope = read_envelope(alloc, reader, depth - 1)?;
            Ok(read_message(alloc, envelope)?)
        }
        token => {
            drop(value_from(alloc, token, reader, depth)?);
            Ok(Entry::Invalid)
        }
    }
}

fn read_message(alloc: Global, mut envelope: Envelope<'_>) -> Result<Entry, AllocError>
    ensures { IfOk result (λ e. entry_seen e ≡ message_in (envelope_view envelope.entry)) }
{
    let entry = take_message(alloc, &mut envelope);
    drop(envelope);
    entry
}

/// The message of an envelope, whose members it takes.
fn take_message(alloc: Global, envelope: &mut Envelope<'_>) -> Result<Entry, AllocError>
    ensures { IfOk result (λ e. entry_seen e ≡ message_in (envelope_view envelope.old)) }
{
    if envelope.method.is_some() {
        their_call::read_call(alloc, envelope)
    } else if envelope.result.is_some() || envelope.error.is_some() {
        reply::read_reply(alloc, envelope)
    } else {
        Ok(Entry::Invalid)
    }
}
