//! The members of an object that count for a message.

ghost use Rattle.std.specs.Prelude.{◌≡◌, ◌<◌, length, Some, None, Err, IfOk, OnOk};
ghost use Rattle.json.specs.Json.{value, members};
ghost use Rattle.json_reading.specs.Piece.{piece_view};
ghost use Rattle.json_reading.specs.declared.fault.ReadFault.TheVariants.{Refused};
ghost use Rattle.serde_json.specs.Data.{Members, no_members};
ghost use Rattle.serde_json.specs.Read.{of_members, converted};
ghost use Rattle.rpc_messages.specs.Envelope.{envelope_of};
ghost use Rattle.rpc_messages.specs.Held.{envelope_view, with_member};
ghost use Rattle.rpc_messages.specs.Shown.{is_cancel_method};

use super::names::Name;
use json::Reader;
use json_reading::{Piece, ReadFault, read_piece};
use std::alloc::Global;
use std::mem;

/// Of each name that counts for a message, the last member (JSON-RPC 2.0, sections 4 and 5).
#[derive(Drop)]
pub(super) struct Envelope<'a> {
    /// The member `jsonrpc`.
    pub(super) version: Option<Piece<'a>>,
    pub(super) method: Option<Piece<'a>>,
    pub(super) params: Option<Piece<'a>>,
    pub(super) id: Option<Piece<'a>>,
    pub(super) result: Option<Piece<'a>>,
    pub(super) error: Option<Piece<'a>>,
}

/// Reads the members of an object, from behind its bracket on. Their values may nest `depth` deep.
pub(super) fn read_envelope<'a>(
    alloc: Global,
    reader: &mut Reader<'a>,
    depth: usize,
) -> Result<Envelope<'a>, ReadFault>
    ensures ok { IfOk result (λ e. (ms : Members)
        × (converted (λ js. of_members js no_members)
        (members (value depth) (length reader.old) reader.old) ≡ Some (ms, reader.new))
        × (envelope_view e ≡ envelope_of ms)) }
    ensures shorter { OnOk result (length reader.new < length reader.old) }
    ensures refused { result ≡ Err Refused
        → converted (λ js. of_members js no_members)
        (members (value depth) (length reader.old) reader.old) ≡ None }
{
    let mut envelope = empty();
    if let Err(fault) = read_members(alloc, reader, depth, &mut envelope) {
        drop(envelope);
        return Err(fault);
    }
    Ok(envelope)
}

/// Reads the members into an envelope that is empty so far.
fn read_members<'a>(
    alloc: Global,
    reader: &mut Reader<'a>,
    depth: usize,
    envelope: &mut Envelope<'a>,
) -> Result<(), ReadFault>
    requires { envelope_view envelope.old ≡ envelope_of no_members }
    ensures ok { OnOk result ((ms : Members)
        × (converted (λ js. of_members js no_members)
        (members (value depth) (length reader.old) reader.old) ≡ Some (ms, reader.new))
        × (envelope_view envelope.new ≡ envelope_of ms)) }
    ensures shorter { OnOk result (length reader.new < length reader.old) }
    ensures refused { result ≡ Err Refused
        → converted (λ js. of_members js no_members)
        (members (value depth) (length reader.old) reader.old) ≡ None }
{
    'members: while let Some(name) = reader.next_key()? {
        let member = read_piece(alloc, reader, depth)?;
        keep(envelope, Name::of(name), member);
    }
    Ok(())
}

#[inline(always)]
pub(super) fn empty<'a>() -> Envelope<'a>
    ensures { envelope_view result ≡ envelope_of no_members }
{
    Envelope {
        version: None,
        method: None,
        params: None,
        id: None,
        result: None,
        error: None,
    }
}

/// Keeps a member, where its name counts, in place of an earlier one of that name.
#[inline(always)]
pub(super) fn keep<'a>(envelope: &mut Envelope<'a>, name: Name, member: Piece<'a>)
    ensures { envelope_view envelope.new
        ≡ with_member name (piece_view member.entry) (envelope_view envelope.old) }
{
    match name {
        Name::Version => put(&mut envelope.version, member),
        Name::Method => put(&mut envelope.method, member),
        Name::Params => put(&mut envelope.params, member),
        Name::Id => put(&mut envelope.id, member),
        Name::Result => put(&mut envelope.result, member),
        Name::Error => put(&mut envelope.error, member),
        Name::Other => drop(member),
    }
}

/// Where there is nothing yet, as mostly, nothing is moved out.
#[inline(always)]
fn put<'a>(place: &mut Option<Piece<'a>>, member: Piece<'a>)
    ensures { place.new ≡ Some member.entry }
{
    if place.is_none() {
        *place = Some(member);
    } else {
        drop(mem::replace(place, Some(member)));
    }
}

/// Whether it has a cancel's method (LSP 3.17, "Cancellation Support").
pub(super) fn is_for_cancel(envelope: &Envelope<'_>) -> bool
    ensures { result ≡ is_cancel_method (envelope_view envelope.now).method }
{
    match &envelope.method {
        Some(method) => method.as_str() == Some("$/cancelRequest"),
        None => false,
    }
}
