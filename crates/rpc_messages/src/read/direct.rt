//! Contents that are objects, or batches of such, read in one pass without a look at their tokens. What is rare is left
//! to the reader of tokens. The params of a call that comes alone are passed without being made, where they aren't
//! wanted.

ghost use Rattle.std.specs.Prelude.{◌≡◌, ◌<◌, ◌≤◌, ◌∷◌, ◌||◌, ◌&&◌, [], not, length, map, IfOk, OnOk};
ghost use Rattle.json_reading.specs.Piece.{piece_view};
ghost use Rattle.serde_json.specs.Data.{Data, Items as ItemsRead, Members, array, object, no_members};
ghost use Rattle.serde_json.specs.Read.{max_depth, read as read_data};
ghost use Rattle.rpc_messages.specs.Entry.{entry_seen, entry_of};
ghost use Rattle.rpc_messages.specs.Envelope.{envelope_of};
ghost use Rattle.rpc_messages.specs.Held.{envelope_view, is_params};
ghost use Rattle.rpc_messages.specs.Shown.{shown, shown_entry, shown_value, shown_envelope, is_cancel_method};
ghost use Rattle.value_reading.specs.Lexed.{IsRead, ItemsAreRead, MembersAreRead};
ghost use Rattle.rpc_messages.specs.Unit.{unit_seen, unit_of_reading, value_unit, batch_of, entries_of};

use super::envelope::{Envelope, empty, is_for_cancel, keep};
use super::names::{Name, read_name};
use super::{MOST_DEPTH_IN, take_message};
use crate::entry::Entry;
use crate::unit::Unit;
use json_reading::Piece;
use json_values::Items;
use serde_json::Value;
use std::alloc::Global;
use value_reading::{Unread, is_over, next_byte, pass, pass_container, read_string, read_value};

/// The unit of a text that is seen to be one object, or a batch of such.
pub(crate) fn read_direct(alloc: Global, text: &str, with_params: bool) -> Result<Unit, Unread>
    ensures { IfOk result (λ u. shown with_params (unit_seen u)
        ≡ shown with_params (unit_of_reading (read_data text.now))) }
{
    let mut at = 0;
    let unit = read_unit(alloc, text, &mut at, with_params)?;
    next_byte(text, &mut at);
    if at < text.len() {
        drop(unit);
        return Err(Unread::Unusual);
    }
    Ok(unit)
}

fn read_unit(alloc: Global, text: &str, at: &mut usize, with_params: bool) -> Result<Unit, Unread>
    ensures { IfOk result (λ u. (d : Data)
        × IsRead max_depth text.now at.old at.new d
        × (shown with_params (unit_seen u) ≡ shown with_params (value_unit d))) }
{
    if next_byte(text, at) == b'[' {
        return Ok(Unit::Batch(Items::from(read_entries(alloc, text, at)?)));
    }
    let entry = read_entry(alloc, text, at, MOST_DEPTH_IN, with_params)?;
    Ok(Unit::Single(entry))
}

/// Passes a batch of some entries.
fn read_entries(alloc: Global, text: &str, at: &mut usize) -> Result<Vec<Entry>, Unread>
    ensures { IfOk result (λ entries. (ds : ItemsRead)
        × IsRead max_depth text.now at.old at.new (array ds)
        × (map entry_seen entries.items ≡ entries_of ds)
        × (0 < length entries.items)) }
{
    pass(text, at, b'[')?;
    let mut entries = Vec::new(alloc);
    while *at < text.len() {
        let entry = read_entry(alloc, text, at, MOST_DEPTH_IN - 1, true)?;
        entries.push(entry)?;
        if is_over(text, at, b']')? {
            return Ok(entries);
        }
    }
    Err(Unread::Unusual)
}

/// Passes an object.
fn read_entry(
    alloc: Global,
    text: &str,
    at: &mut usize,
    levels: usize,
    with_params: bool,
) -> Result<Entry, Unread>
    requires { 0 < levels }
    ensures entry { IfOk result (λ e. (ms : Members)
        × IsRead levels text.now at.old at.new (object ms)
        × (shown_entry with_params (entry_seen e) ≡ shown_entry with_params (entry_of (object ms)))) }
    ensures bounds { OnOk result ((at.old < at.new) × (at.new ≤ length text.now)) }
{
    pass(text, at, b'{')?;
    let mut envelope = empty();
    read_object(alloc, text, at, levels - 1, with_params, &mut envelope)
}

/// Passes the rest of an object, from behind its brace on, by an envelope that is empty so far. A cancel's params are
/// always wanted.
fn read_object<'a>(
    alloc: Global,
    text: &'a str,
    at: &mut usize,
    levels: usize,
    with_params: bool,
    envelope: &mut Envelope<'a>,
) -> Result<Entry, Unread>
    requires { envelope_view envelope.old ≡ envelope_of no_members }
    ensures entry { IfOk result (λ e. (ms : Members)
        × MembersAreRead levels text.now at.old at.new ms
        × (shown_entry with_params (entry_seen e) ≡ shown_entry with_params (entry_of (object ms)))) }
    ensures bounds { OnOk result ((at.old < at.new) × (at.new ≤ length text.now)) }
{
    read_members(alloc, text, at, levels, with_params, envelope)?;
    if lacks_target(envelope, with_params) {
        return Err(Unread::Unusual);
    }
    Ok(take_message(alloc, envelope)?)
}

/// Whether it is a cancel's, whose params weren't made.
fn lacks_target(envelope: &Envelope<'_>, with_params: bool) -> bool
    ensures { result ≡ (not with_params && is_cancel_method (envelope_view envelope.now).method) }
{
    !with_params && is_for_cancel(envelope)
}

/// Passes the members of an object into an envelope that is empty so far, from behind the brace on.
fn read_members<'a>(
    alloc: Global,
    text: &'a str,
    at: &mut usize,
    levels: usize,
    with_params: bool,
    envelope: &mut Envelope<'a>,
) -> Result<(), Unread>
    requires { envelope_view envelope.old ≡ envelope_of no_members }
    ensures members { OnOk result ((ms : Members)
        × MembersAreRead levels text.now at.old at.new ms
        × (envelope_view envelope.new ≡ shown_envelope with_params (envelope_of ms))) }
    ensures bounds { OnOk result ((at.old < at.new) × (at.new ≤ length text.now)) }
{
    while *at < text.len() {
        let name = read_name(text, at)?;
        let is_wanted = is_wanted(name, with_params);
        let member = read_member(alloc, text, at, levels, is_wanted)?;
        keep(envelope, name, member);
        if is_over(text, at, b'}')? {
            return Ok(());
        }
    }
    Err(Unread::Unusual)
}

/// Whether the value of a member is to be made.
fn is_wanted(name: Name, with_params: bool) -> bool
    ensures { result ≡ (with_params || not (is_params name)) }
{
    with_params || !matches!(name, Name::Params)
}

/// Passes the value of a member, or an array or an object that isn't wanted, which gives null.
fn read_member<'a>(
    alloc: Global,
    text: &'a str,
    at: &mut usize,
    levels: usize,
    is_wanted: bool,
) -> Result<Piece<'a>, Unread>
    ensures piece { IfOk result (λ p. (d : Data)
        × IsRead levels text.now at.old at.new d
        × (piece_view p ≡ shown_value is_wanted d)) }
    ensures bounds { OnOk result ((at.old < at.new) × (at.new ≤ length text.now)) }
{
    if is_wanted {
        return read_piece(alloc, text, at, levels);
    }
    pass_container(text, at, levels)?;
    Ok(Piece::Whole(Value::Null))
}

/// Passes the value of a member. A string is borrowed where it has no escape.
fn read_piece<'a>(
    alloc: Global,
    text: &'a str,
    at: &mut usize,
    levels: usize,
) -> Result<Piece<'a>, Unread>
    ensures piece { IfOk result (λ p. IsRead levels text.now at.old at.new (piece_view p)) }
    ensures bounds { OnOk result ((at.old < at.new) × (at.new ≤ length text.now)) }
{
    let from = *at;
    if let Ok(string) = read_string(text, at) {
        return Ok(Piece::Text(string));
    }
    *at = from;
    Ok(Piece::Whole(read_value(alloc, text, at, levels)?))
}
