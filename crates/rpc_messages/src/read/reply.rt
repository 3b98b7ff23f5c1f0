//! The other side's replies to our calls.

ghost use Rattle.std.specs.Prelude.{◌≡◌, IfOk, option_map};
ghost use Rattle.json_reading.specs.Piece.{piece_view};
ghost use Rattle.serde_json.specs.View.{view};
ghost use Rattle.rpc_messages.specs.Answered.{reply_in, outcome_of, unless_null, error_in, extra_in};
ghost use Rattle.rpc_messages.specs.Entry.{entry_seen, reply_key, reply_or_stray};
ghost use Rattle.rpc_messages.specs.Held.{envelope_view};

use super::envelope::Envelope;
use super::members::{find, take, take_text};
use super::version::is_version_2;
use crate::entry::Entry;
use crate::error_value::ErrorValue;
use crate::key::read_key;
use crate::reply::Reply;
use json_reading::Piece;
use json_values::Json;
use message_ids::Standard;
use serde_json::Value;
use std::alloc::{AllocError, Global};

/// An object with a member `result` or `error` and none `method`.
pub(super) fn read_reply(alloc: Global, envelope: &mut Envelope<'_>) -> Result<Entry, AllocError>
    ensures { let e = envelope_view envelope.old in
        IfOk result (λ entry. entry_seen entry ≡ reply_or_stray (reply_key e) (reply_in e)) }
{
    let Some((number, turn)) = key(envelope) else {
        return Ok(Entry::Stray);
    };
    let reply = read_outcome(alloc, envelope)?;
    Ok(Entry::Reply {
        number,
        turn,
        reply: Box::new(alloc, reply)?,
    })
}

fn key(envelope: &Envelope<'_>) -> Option<(u32, u32)>
    ensures { result ≡ reply_key (envelope_view envelope.now) }
{
    read_key(envelope.id.as_ref()?.as_str()?)
}

fn read_outcome(alloc: Global, envelope: &mut Envelope<'_>) -> Result<Reply, AllocError>
    ensures { IfOk result (λ reply. reply ≡ reply_in (envelope_view envelope.old)) }
{
    if !is_version_2(&envelope.version) {
        return Ok(Reply::Standard(Standard::InvalidReply));
    }
    let error = not_null(owned(alloc, envelope.error.take())?);
    let answer = owned(alloc, envelope.result.take())?;
    Ok(outcome(error, answer).unwrap_or(Reply::Standard(Standard::InvalidReply)))
}

fn owned(alloc: Global, member: Option<Piece<'_>>) -> Result<Option<Value>, AllocError>
    ensures { IfOk result
        (λ value. option_map view value ≡ option_map piece_view member.entry) }
{
    match member {
        Some(member) => Ok(Some(member.into_value(alloc)?)),
        None => Ok(None),
    }
}

fn outcome(error: Option<Value>, answer: Option<Value>) -> Option<Reply>
    ensures { result ≡ outcome_of (option_map view error) (option_map view answer) }
{
    match (error, answer) {
        (None, None) => None,
        (None, Some(value)) => Json::new(value).map(Reply::Done),
        (Some(error), answer) => match not_null(answer) {
            None => read_error(error),
            Some(_) => None,
        }
    }
}

fn not_null(member: Option<Value>) -> Option<Value>
    ensures { option_map view result ≡ unless_null (option_map view member) }
{
    match member {
        None | Some(Value::Null) => None,
        Some(value) => Some(value),
    }
}

fn read_error(error: Value) -> Option<Reply>
    ensures { result ≡ error_in (view error) }
{
    let Value::Object(mut members) = error else {
        return None;
    };
    let code = find(&members, "code")?.as_i64()?;
    let message = take_text(&mut members, "message")?;
    let extra = read_data(take(&mut members, "data"))?;
    Some(Reply::Error(ErrorValue {
        code,
        message,
        extra,
    }))
}

fn read_data(member: Option<Value>) -> Option<Option<Json>>
    ensures { result ≡ extra_in (option_map view member) }
{
    match member {
        None => Some(None),
        Some(value) => Some(Some(Json::new(value)?)),
    }
}
