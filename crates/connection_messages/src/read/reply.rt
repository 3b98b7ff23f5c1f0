//! Replies to calls of ours.

ghost use Rattle.std.specs.Prelude.{◌≡◌, IfOk, Some, codes, option_map, option_and_then};
ghost use Rattle.std.specs.Option.{ForSome};
ghost use Rattle.json.specs.Find.{get, as_str, as_number};
ghost use Rattle.json.specs.Tree.{HasNumbers};
ghost use Rattle.json.specs.Value.{value_view};
ghost use Rattle.json_texts.specs.Texts.{json_text};
ghost use Rattle.connection_messages.specs.Numbers.{unsigned_of, integer_of};
ghost use Rattle.connection_messages.specs.Reading.{unless_null, invalid_reply, error_in, outcome_of, reply_in, key_in, reply_entry};

use super::call::is_version_2;
use super::number::{integer, unsigned};
use crate::entry::Entry;
use crate::reply::{Reply, ReplyError};
use json::Value;
use json_texts::text_of;
use json_values::Text;
use std::alloc::{AllocError, Global};

/// A value with a member `result` or `error` and none `method`: a reply.
pub(crate) fn read_reply(alloc: Global, value: &Value<'_>) -> Result<Entry, AllocError>
    requires { HasNumbers (value_view value.now) }
    ensures { IfOk result
        (λ e. e ≡ reply_entry (key_in (value_view value.now)) (reply_in (value_view value.now))) }
{
    let Some(key) = key_of(value) else {
        return Ok(Entry::Stray);
    };
    let reply = read_outcome(alloc, value)?;
    Ok(Entry::Reply { key, reply })
}

fn key_of(value: &Value<'_>) -> Option<u64>
    ensures { result ≡ key_in (value_view value.now) }
{
    let key = unsigned(value.get("id")?.as_number()?)?;
    if key == 0 { None } else { Some(key) }
}

fn read_outcome(alloc: Global, value: &Value<'_>) -> Result<Reply, AllocError>
    requires { HasNumbers (value_view value.now) }
    ensures { IfOk result (λ reply. reply ≡ reply_in (value_view value.now)) }
{
    if !is_version_2(value) {
        return invalid_reply(alloc);
    }
    match (not_null(value.get("error")), value.get("result")) {
        (None, None) => invalid_reply(alloc),
        (None, Some(result)) => Ok(Reply::Result(text_of(alloc, result)?)),
        (Some(error), result) => match not_null(result) {
            Some(_) => invalid_reply(alloc),
            None => read_error(alloc, error),
        }
    }
}

fn not_null<'v, 't>(member: Option<&'v Value<'t>>) -> Option<&'v Value<'t>>
    ensures { option_map (λ v. value_view v.now) result
        ≡ unless_null (option_map (λ v. value_view v.now) member.entry) }
{
    match member {
        None | Some(Value::Null) => None,
        Some(value) => Some(value),
    }
}

fn read_error(alloc: Global, error: &Value<'_>) -> Result<Reply, AllocError>
    requires { HasNumbers (value_view error.now) }
    ensures { IfOk result (λ reply. reply ≡ error_in (value_view error.now)) }
{
    let Some(code) = code_of(error) else {
        return invalid_reply(alloc);
    };
    let Some(message) = message_of(error) else {
        return invalid_reply(alloc);
    };
    let message = Text::copy_of(alloc, message)?;
    let data = read_data(alloc, error.get("data"))?;
    Ok(Reply::Error(ReplyError {
        code,
        message,
        data,
    }))
}

fn code_of(error: &Value<'_>) -> Option<i64>
    ensures { result ≡ option_and_then integer_of
        (option_and_then as_number (get (codes "code") (value_view error.now))) }
{
    integer(error.get("code")?.as_number()?)
}

fn message_of<'v>(error: &'v Value<'_>) -> Option<&'v str>
    ensures { option_map (λ s. s.now) result
        ≡ option_and_then as_str (get (codes "message") (value_view error.now)) }
{
    error.get("message")?.as_str()
}

fn read_data(alloc: Global, member: Option<&Value<'_>>) -> Result<Option<Text>, AllocError>
    requires { ForSome member (λ v. HasNumbers (value_view v.now)) }
    ensures { IfOk result
        (λ text. text ≡ option_map json_text (option_map (λ v. value_view v.now) member.entry)) }
{
    match member {
        Some(value) => Ok(Some(text_of(alloc, value)?)),
        None => Ok(None),
    }
}

/// A reply that is none: it counts as this error.
fn invalid_reply(alloc: Global) -> Result<Reply, AllocError>
    ensures { IfOk result (λ reply. reply ≡ invalid_reply) }
{
    Ok(Reply::Error(ReplyError {
        code: -32603,
        message: Text::copy_of(alloc, "Invalid reply")?,
        data: None,
    }))
}
