//! Calls and cancels.

ghost use Rattle.std.specs.Prelude.{◌≡◌, IfOk, IfSome, Some, codes, option_and_then, option_map};
ghost use Rattle.json.specs.Find.{get, as_str};
ghost use Rattle.json.specs.Tree.{HasNumbers};
ghost use Rattle.json.specs.Value.{value_view};
ghost use Rattle.json_texts.specs.Texts.{json_text};
ghost use Rattle.connection_messages.specs.Reading.{is_version_2, number_id, id_of, call_id, null_params, call_params, call_in, cancel_member, cancelled_id, target_in, is_cancel, cancel_or_call, call_entry};

use super::number::{negative, unsigned};
use crate::call::Call;
use crate::cancels::Cancels;
use crate::entry::Entry;
use crate::rules::Rules;
use json::Value;
use json_texts::text_of;
use json_values::{Negative, Text};
use message_ids::Id;
use std::alloc::{AllocError, Global};

/// Whether the member `jsonrpc` is exactly "2.0".
pub(crate) fn is_version_2(value: &Value<'_>) -> bool
    ensures { result ≡ is_version_2 (value_view value.now) }
{
    match value.get("jsonrpc") {
        Some(version) => version.as_str() == Some("2.0"),
        None => false,
    }
}

/// A value with a member `method`: a call, a cancel, or invalid.
pub(crate) fn read_call(alloc: Global, rules: Rules, value: &Value<'_>) -> Result<Entry, AllocError>
    requires { HasNumbers (value_view value.now) }
    ensures { IfOk result (λ e. e ≡ call_entry rules.cancels
        (call_in rules.null_params (value_view value.now)) (value_view value.now)) }
{
    let Some(call) = read_members(alloc, rules.null_params, value)? else {
        return Ok(Entry::Invalid);
    };
    let Some(by) = rules.cancels else {
        return Ok(Entry::Call(call));
    };
    let target = read_target(alloc, by, value)?;
    Ok(cancel_or_call(by, call, target))
}

fn cancel_or_call(by: Cancels, call: Call, target: Option<Id>) -> Entry
    ensures { result ≡ cancel_or_call by call target }
{
    match target {
        Some(target) if is_cancel(by, &call) => Entry::Cancel(target),
        _ => Entry::Call(call),
    }
}

fn is_cancel(by: Cancels, call: &Call) -> bool
    ensures { result ≡ is_cancel by call.now }
{
    call.id.is_none() && call.method.as_str() == by.method()
}

/// The members of a call, where each is what it has to be.
fn read_members(
    alloc: Global,
    null_params: bool,
    value: &Value<'_>,
) -> Result<Option<Call>, AllocError>
    requires { HasNumbers (value_view value.now) }
    ensures { IfOk result (λ call. call ≡ call_in null_params (value_view value.now)) }
{
    if !is_version_2(value) {
        return Ok(None);
    }
    let Some(method) = method_of(value) else {
        return Ok(None);
    };
    let Some(params) = read_params(alloc, null_params, value)? else {
        return Ok(None);
    };
    let Some(id) = read_call_id(alloc, value.get("id"))? else {
        drop(params);
        return Ok(None);
    };
    Ok(Some(Call {
        id,
        method: Text::copy_of(alloc, method)?,
        params,
    }))
}

fn method_of<'v>(value: &'v Value<'_>) -> Option<&'v str>
    ensures { option_map (λ s. s.now) result
        ≡ option_and_then as_str (get (codes "method") (value_view value.now)) }
{
    value.get("method")?.as_str()
}

fn read_params(
    alloc: Global,
    null_params: bool,
    value: &Value<'_>,
) -> Result<Option<Option<Text>>, AllocError>
    requires { HasNumbers (value_view value.now) }
    ensures { IfOk result (λ params. params
        ≡ call_params null_params (get (codes "params") (value_view value.now))) }
{
    match value.get("params") {
        None => Ok(Some(None)),
        Some(Value::Null) => Ok(Some(read_null_params(alloc, null_params)?)),
        Some(params) => match params {
            Value::Array(_) | Value::Object(_) => Ok(Some(Some(text_of(alloc, params)?))),
            _ => Ok(None),
        }
    }
}

/// What is told of params that are null.
pub(crate) fn read_null_params(alloc: Global, told: bool) -> Result<Option<Text>, AllocError>
    ensures { IfOk result (λ params. params ≡ null_params told) }
{
    if told {
        Ok(Some(Text::copy_of(alloc, "null")?))
    } else {
        Ok(None)
    }
}

fn read_call_id(alloc: Global, member: Option<&Value<'_>>) -> Result<Option<Option<Id>>, AllocError>
    ensures { IfOk result (λ id. id ≡ call_id (option_map (λ v. value_view v.now) member.entry)) }
{
    let Some(member) = member else {
        return Ok(Some(None));
    };
    match read_id(alloc, member)? {
        Some(id) => Ok(Some(Some(id))),
        None => Ok(None),
    }
}

fn read_id(alloc: Global, value: &Value<'_>) -> Result<Option<Id>, AllocError>
    ensures { IfOk result (λ id. id ≡ id_of (value_view value.now)) }
{
    match value {
        Value::Null => Ok(Some(Id::Null)),
        Value::String(text) => Ok(Some(Id::Text(Text::copy_of(alloc, text)?))),
        Value::Number(text) => Ok(read_number_id(text)),
        _ => Ok(None),
    }
}

fn read_number_id(text: &str) -> Option<Id>
    ensures { result ≡ number_id text.now }
{
    match unsigned(text) {
        Some(number) => Some(Id::Unsigned(number)),
        None => Some(Id::Signed(Negative::new(negative(text)?)?)),
    }
}

/// The id that the params name, where they are those of a cancel.
fn read_target(alloc: Global, by: Cancels, value: &Value<'_>) -> Result<Option<Id>, AllocError>
    ensures { IfOk result (λ target. target ≡ target_in by (value_view value.now)) }
{
    match target_member(by, value) {
        Some(Value::String(text)) => Ok(Some(Id::Text(Text::copy_of(alloc, text)?))),
        Some(Value::Number(text)) => Ok(read_number_id(text)),
        _ => Ok(None),
    }
}

fn target_member<'v, 't>(by: Cancels, value: &'v Value<'t>) -> Option<&'v Value<'t>>
    ensures { option_map (λ v. value_view v.now) result
        ≡ option_and_then (get (cancel_member by)) (get (codes "params") (value_view value.now)) }
{
    value.get("params")?.get(by.member())
}
