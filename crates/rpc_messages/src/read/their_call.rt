//! Requests and notifications of the other side.

ghost use Rattle.std.specs.Prelude.{◌≡◌, IfOk, option_map, option_and_then};
ghost use Rattle.json_reading.specs.Piece.{piece_view};
ghost use Rattle.serde_json.specs.Find.{as_str};
ghost use Rattle.serde_json.specs.View.{view, number_view};
ghost use Rattle.rpc_messages.specs.Call.{number_id, id_of, call_id, call_params, target_of, call_in, call_with};
ghost use Rattle.rpc_messages.specs.Entry.{entry_seen, call_or_invalid};
ghost use Rattle.rpc_messages.specs.Held.{envelope_view};

use super::envelope::Envelope;
use super::version::is_version_2;
use crate::call::Call;
use crate::entry::Entry;
use crate::params::Params;
use json_reading::Piece;
use json_values::{Json, Negative, Text};
use message_ids::Id;
use serde_json::{Number, Value};
use std::alloc::{AllocError, Global};
use std::sync::Arc;

/// An object with a member `method`: a call, or an invalid entry.
pub(super) fn read_call(alloc: Global, envelope: &mut Envelope<'_>) -> Result<Entry, AllocError>
    ensures { IfOk result
        (λ e. entry_seen e ≡ call_or_invalid (call_in (envelope_view envelope.old))) }
{
    let Some((id, method, params)) = read_parts(alloc, envelope)? else {
        return Ok(Entry::Invalid);
    };
    let target = read_target(&id, &method, &params)?;
    let call = Call {
        id,
        method,
        params,
        target,
    };
    Ok(Entry::Call(Arc::new(alloc, call)?))
}

/// The id, the method and the params of a call.
fn read_parts(
    alloc: Global,
    envelope: &mut Envelope<'_>,
) -> Result<Option<(Option<Id>, Text, Params)>, AllocError>
    ensures { IfOk result (λ parts. option_map (λ p. call_with p.0 p.1 p.2) parts
        ≡ call_in (envelope_view envelope.old)) }
{
    if !is_version_2(&envelope.version) {
        return Ok(None);
    }
    let Some(method) = read_method(alloc, envelope.method.take())? else {
        return Ok(None);
    };
    let Some(params) = read_params(envelope.params.take()) else {
        return Ok(None);
    };
    let Some(id) = read_call_id(alloc, envelope.id.take())? else {
        return Ok(None);
    };
    Ok(Some((id, method, params)))
}

fn read_method(alloc: Global, member: Option<Piece<'_>>) -> Result<Option<Text>, AllocError>
    ensures { IfOk result
        (λ text. text ≡ option_and_then as_str (option_map piece_view member.entry)) }
{
    let Some(member) = member else {
        return Ok(None);
    };
    Ok(member.into_string(alloc)?.map(Text::from))
}

fn read_call_id(alloc: Global, member: Option<Piece<'_>>) -> Result<Option<Option<Id>>, AllocError>
    ensures { IfOk result (λ id. id ≡ call_id (option_map piece_view member.entry)) }
{
    let Some(member) = member else {
        return Ok(Some(None));
    };
    match read_id(member.into_value(alloc)?) {
        Some(id) => Ok(Some(Some(id))),
        None => Ok(None),
    }
}

fn read_id(value: Value) -> Option<Id>
    ensures { result ≡ id_of (view value) }
{
    match value {
        Value::Null => Some(Id::Null),
        Value::String(text) => Some(Id::Text(Text::from(text))),
        Value::Number(number) => read_number_id(&number),
        _ => None,
    }
}

fn read_number_id(number: &Number) -> Option<Id>
    ensures { result ≡ number_id (number_view number.now) }
{
    match number.as_u64() {
        Some(number) => Some(Id::Unsigned(number)),
        None => Some(Id::Signed(Negative::new(number.as_i64()?)?)),
    }
}

fn read_params(member: Option<Piece<'_>>) -> Option<Params>
    ensures { result ≡ call_params (option_map piece_view member.entry) }
{
    match member {
        None | Some(Piece::Whole(Value::Null)) => Some(Params::Omitted),
        Some(Piece::Whole(value)) if value.is_array() || value.is_object() => {
            match Json::new(value) {
                Some(params) => Some(Params::Whole(params)),
                None => Some(Params::Fractional),
            }
        }
        Some(_) => None,
    }
}

/// The id that a cancel names. A request is no cancel, whatever its method.
fn read_target(id: &Option<Id>, method: &Text, params: &Params) -> Result<Option<Id>, AllocError>
    ensures { IfOk result (λ target. target ≡ target_of id.now method.now params.now) }
{
    let (None, Params::Whole(params)) = (id, params) else {
        return Ok(None);
    };
    if method.as_str() != "$/cancelRequest" {
        return Ok(None);
    }
    match params.as_value().get("id") {
        Some(Value::String(text)) => Ok(Some(Id::Text(Text::from(text.clone()?)))),
        Some(Value::Number(number)) => Ok(read_number_id(number)),
        _ => Ok(None),
    }
}
