//! The id that a cancel names.

ghost use Rattle.std.specs.Prelude.{◌≡◌, IfOk, option_map, option_and_then};
ghost use Rattle.json.specs.Find.{as_str};
ghost use Rattle.json.specs.Value.{value_view};
ghost use Rattle.conversation_reading.specs.Strictly.{cancels_by, cancels_none, names_none};
ghost use Rattle.conversation_reading.specs.Targets.{target_as, target_named, has_fit_reason, target_by};

use crate::entry::WrittenId;
use crate::number::is_whole;
use crate::read::{is_object, text_in};
use json::Value;
use json_values::Text;
use std::alloc::{AllocError, Global};

/// The id that an entry cancels, by its method. There is none where its params aren't a cancel's.
pub(crate) fn read_target(
    alloc: Global,
    method: Option<&Value<'_>>,
    params: Option<&Value<'_>>,
) -> Result<Option<WrittenId>, AllocError>
    ensures { IfOk result (λ target. target ≡ option_and_then (λ method. option_and_then (target_by method)
        (option_map (λ v. value_view v.now) params.entry)) (option_and_then as_str (option_map (λ v. value_view v.now) method.entry))) }
{
    match (text_in(method), params) {
        (Some(method), Some(params)) => target_by(alloc, method, params),
        _ => Ok(None),
    }
}

fn target_by(
    alloc: Global,
    method: &str,
    params: &Value<'_>,
) -> Result<Option<WrittenId>, AllocError>
    ensures { IfOk result (λ target. target ≡ target_by method.now (value_view params.now)) }
{
    if method == "$/cancelRequest" {
        target_named(alloc, "id", params)
    } else if method == "notifications/cancelled" && has_fit_reason(params) {
        target_named(alloc, "requestId", params)
    } else {
        Ok(None)
    }
}

/// Whether an entry is MCP's cancel and names no request.
pub(crate) fn cancels_none(method: Option<&Value<'_>>, params: Option<&Value<'_>>) -> bool
    ensures { result ≡ cancels_none (option_and_then as_str (option_map (λ v. value_view v.now) method.entry))
        (option_map (λ v. value_view v.now) params.entry) }
{
    match text_in(method) {
        Some(method) => cancels_by(method, params),
        None => false,
    }
}

fn cancels_by(method: &str, params: Option<&Value<'_>>) -> bool
    ensures { result ≡ cancels_by method.now (option_map (λ v. value_view v.now) params.entry) }
{
    method == "notifications/cancelled" && names_none(params)
}

fn names_none(params: Option<&Value<'_>>) -> bool
    ensures { result ≡ names_none (option_map (λ v. value_view v.now) params.entry) }
{
    match params {
        Some(params) => {
            is_object(params) && has_fit_reason(params) && params.get("requestId").is_none()
        }
        None => true,
    }
}

/// Whether a reason is a string, where there is one.
fn has_fit_reason(params: &Value<'_>) -> bool
    ensures { result ≡ has_fit_reason (value_view params.now) }
{
    match params.get("reason") {
        Some(reason) => reason.as_str().is_some(),
        None => true,
    }
}

fn target_named(
    alloc: Global,
    name: &str,
    params: &Value<'_>,
) -> Result<Option<WrittenId>, AllocError>
    ensures { IfOk result (λ target. target ≡ target_named name.now (value_view params.now)) }
{
    match params.get(name) {
        Some(target) => target_as(alloc, target),
        None => Ok(None),
    }
}

/// A string, or a number that is whole by its value.
fn target_as(alloc: Global, target: &Value<'_>) -> Result<Option<WrittenId>, AllocError>
    ensures { IfOk result (λ id. id ≡ target_as (value_view target.now)) }
{
    match target {
        Value::String(text) => Ok(Some(WrittenId::Text(Text::copy_of(alloc, text)?))),
        Value::Number(number) => {
            if is_whole(number) {
                Ok(Some(WrittenId::Number(Text::copy_of(alloc, number)?)))
            } else {
                Ok(None)
            }
        }
        _ => Ok(None),
    }
}
