//! What a register holds of the replies to a step's calls.

ghost use Rattle.std.specs.Prelude.{◌≡◌, ◌+◌, ◌≤◌, ◌<◌, IfOk, Ok, option_copied};
ghost use Rattle.rpc_messages.specs.declared.key.TheConstants.{MOST_TURNS};
ghost use Rattle.handler_future.specs.Evaluation.{replies_from};
ghost use Rattle.handler_future.specs.Front.{heard_replies, find_heard};
ghost use Rattle.handler_future.specs.ReplyValues.{kept_reply, kept_result, kept_error, kept_array, value_of_replies};

use json_values::{Json, JsonArray, JsonObject};
use method_templates::{OnError, Step};
use rpc_messages::{ErrorValue, Reply, Standard};
use std::alloc::{AllocError, Global};

/// What the replies to a step's calls leave, those of this many turns from this one on: a value for the step's register, or
/// the error reply that ends the method.
pub(crate) fn value_of_replies(
    alloc: Global,
    step: &Step,
    heard: &[(u32, Reply)],
    turn: u32,
    calls: u32,
) -> Result<Result<Json, Reply>, AllocError>
    requires turns { turn + calls ≤ MOST_TURNS + 1 }
    requires some { 0 < calls }
    ensures { IfOk result (λ value.
        value ≡ value_of_replies step.now (replies_from (heard_replies heard.now) turn calls)) }
{
    match step {
        Step::Call { on_error, .. } => kept_turn(alloc, *on_error, heard, turn),
        Step::Calls { on_error, .. } | Step::Each { on_error, .. } => {
            kept_values(alloc, *on_error, heard, turn, calls)
        }
        _ => kept_values(alloc, OnError::Fail, heard, turn, calls),
    }
}

/// The value of a call's register, or the error reply that ends the method.
fn kept_value(
    alloc: Global,
    on_error: OnError,
    reply: &Reply,
) -> Result<Result<Json, Reply>, AllocError>
    ensures { IfOk result (λ value. value ≡ kept_reply on_error reply.now) }
{
    match on_error {
        OnError::Fail => result_or_error(reply),
        OnError::Keep => kept_object(alloc, reply).map(Ok),
    }
}

/// The value of a reply that is a result, or else the reply as it is.
fn result_or_error(reply: &Reply) -> Result<Result<Json, Reply>, AllocError>
    ensures { IfOk result (λ value. value ≡ kept_reply OnError.Fail reply.now) }
{
    match reply {
        Reply::Done(value) => value.clone().map(Ok),
        error => error.clone().map(Err),
    }
}

/// The object that tells a reply's result or its error.
fn kept_object(alloc: Global, reply: &Reply) -> Result<Json, AllocError>
    ensures { IfOk result (λ object. Ok object ≡ kept_reply OnError.Keep reply.now) }
{
    match reply {
        Reply::Done(value) => kept_result(alloc, value),
        Reply::Error(error) => kept_error(alloc, error),
        Reply::Standard(standard) => {
            let error = ErrorValue::standard(alloc, *standard)?;
            let object = kept_error(alloc, &error);
            drop(error);
            object
        }
    }
}

fn kept_result(alloc: Global, value: &Json) -> Result<Json, AllocError>
    ensures { IfOk result (λ object. object ≡ kept_result value.now) }
{
    let value = value.clone()?;
    JsonObject::new(alloc)
        .with(alloc, "result", value)?
        .with(alloc, "ok", Json::boolean(true))
        .map(JsonObject::finish)
}

fn kept_error(alloc: Global, error: &ErrorValue) -> Result<Json, AllocError>
    ensures { IfOk result (λ object. object ≡ kept_error error.now) }
{
    let error = error.to_json(alloc)?;
    JsonObject::new(alloc)
        .with(alloc, "error", error)?
        .with(alloc, "ok", Json::boolean(false))
        .map(JsonObject::finish)
}

/// What a batch of calls leaves: the values of its replies in the order of their turns, or the first error reply.
fn kept_values(
    alloc: Global,
    on_error: OnError,
    heard: &[(u32, Reply)],
    turn: u32,
    calls: u32,
) -> Result<Result<Json, Reply>, AllocError>
    requires { turn + calls ≤ MOST_TURNS + 1 }
    ensures { IfOk result (λ values.
        values ≡ kept_array on_error (replies_from (heard_replies heard.now) turn calls)) }
{
    let mut values = JsonArray::new(alloc);
    for called in turn..turn + calls {
        match kept_turn(alloc, on_error, heard, called)? {
            Ok(value) => values.push(value)?,
            Err(error) => return Ok(Err(error)),
        }
    }
    Ok(Ok(values.finish()))
}

/// What the reply to the call of this turn leaves.
fn kept_turn(
    alloc: Global,
    on_error: OnError,
    heard: &[(u32, Reply)],
    turn: u32,
) -> Result<Result<Json, Reply>, AllocError>
    ensures { IfOk result (λ value. value ≡ kept_reply on_error (heard_replies heard.now turn)) }
{
    match heard_reply(heard, turn) {
        Some(reply) => kept_value(alloc, on_error, reply),
        None => kept_value(alloc, on_error, &Reply::Standard(Standard::NoReply)),
    }
}

/// The reply to the call of this turn.
fn heard_reply(heard: &[(u32, Reply)], turn: u32) -> Option<&Reply>
    ensures { option_copied result ≡ find_heard heard.now turn }
{
    for entry in heard {
        if entry.0 == turn {
            return Some(&entry.1);
        }
    }
    None
}
