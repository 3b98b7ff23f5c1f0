//! Steps, made of their parts.

ghost use Rattle.std.specs.Prelude.{◌≡◌, ◌&&◌, true, is_some, IfOk, IfErr};
ghost use Rattle.toml.specs.View.{items_view};
ghost use Rattle.table_reading.specs.Fields.{the_calls, listed_calls};
ghost use Rattle.table_reading.specs.Judged.{is_free};
ghost use Rattle.method_templates.specs.Names.{is_register_name};
ghost use Rattle.table_reading.specs.References.{is_place_known, are_params_known, calls_refer_back};
ghost use Rattle.table_reading.specs.Inner.Seen.{seen, seen_call, Breaks, IsMade, IsRefused};

use crate::call::{Call, CallList, call_in};
use crate::fault::FaultKind;
use crate::parts::Parts;
use crate::source::Source;
use crate::templates::template_of;
use json_values::{Items, Text};
use method_templates::{ListedCall, OnError, Step, Template, is_register_name};
use std::alloc::Global;
use toml::Value;

/// The step of the parts, where it keeps the rule of registers, given the steps before it, and its code is free.
pub(crate) fn step_of(
    alloc: Global,
    parts: &Parts<'_>,
    earlier: &[Value],
) -> Result<Step, FaultKind>
    ensures ok { IfOk result (IsMade (items_view earlier.now) (seen parts.now)) }
    ensures refused { IfErr result (IsRefused (items_view earlier.now) (seen parts.now)) }
{
    match parts {
        Parts::Set { to, value } => set(alloc, to, value, earlier),
        Parts::Add { to, left, right } => add(alloc, to, left, right, earlier),
        Parts::Skip { left, right, count } => skip(alloc, left, right, *count, earlier),
        Parts::Call { to, call, on_error } => call_once(alloc, to, call, *on_error, earlier),
        Parts::Calls { to, list, on_error } => calls(alloc, to, list, *on_error, earlier),
        Parts::Each {
            to,
            over,
            method,
            on_error,
        } => each(alloc, to, over, method, *on_error, earlier),
        Parts::Notify(call) => notify(alloc, call, earlier),
        Parts::Answer(value) => answer(alloc, value, earlier),
        Parts::Fail { code, message } => fail(alloc, *code, message, earlier),
    }
}

fn set(alloc: Global, to: &str, value: &Source<'_>, earlier: &[Value]) -> Result<Step, FaultKind>
    ensures ok { IfOk result (IsMade (items_view earlier.now) (Step.Set to.now value.now)) }
    ensures refused { IfErr result
        (IsRefused (items_view earlier.now) (Step.Set to.now value.now)) }
{
    Ok(Step::Set {
        to: register(alloc, to)?,
        value: template(alloc, value, earlier)?,
    })
}

fn add(
    alloc: Global,
    to: &str,
    left: &Source<'_>,
    right: &Source<'_>,
    earlier: &[Value],
) -> Result<Step, FaultKind>
    ensures ok { IfOk result
        (IsMade (items_view earlier.now) (Step.Add to.now left.now right.now)) }
    ensures refused { IfErr result
        (IsRefused (items_view earlier.now) (Step.Add to.now left.now right.now)) }
{
    let to = register(alloc, to)?;
    let (left, right) = templates(alloc, left, right, earlier)?;
    Ok(Step::Add { to, left, right })
}

fn skip(
    alloc: Global,
    left: &Source<'_>,
    right: &Source<'_>,
    count: u32,
    earlier: &[Value],
) -> Result<Step, FaultKind>
    ensures ok { IfOk result
        (IsMade (items_view earlier.now) (Step.Skip left.now right.now count)) }
    ensures refused { IfErr result
        (IsRefused (items_view earlier.now) (Step.Skip left.now right.now count)) }
{
    let (left, right) = templates(alloc, left, right, earlier)?;
    Ok(Step::Skip { left, right, count })
}

fn call_once(
    alloc: Global,
    to: &str,
    call: &Call<'_>,
    on_error: OnError,
    earlier: &[Value],
) -> Result<Step, FaultKind>
    ensures ok { IfOk result
        (IsMade (items_view earlier.now)
        (Step.Call to.now call.now.method.now call.now.params on_error)) }
    ensures refused { IfErr result
        (IsRefused (items_view earlier.now)
        (Step.Call to.now call.now.method.now call.now.params on_error)) }
{
    Ok(Step::Call {
        to: register(alloc, to)?,
        method: Text::copy_of(alloc, call.method)?,
        params: params(alloc, call, earlier)?,
        on_error,
    })
}

fn calls(
    alloc: Global,
    to: &str,
    list: &CallList<'_>,
    on_error: OnError,
    earlier: &[Value],
) -> Result<Step, FaultKind>
    ensures ok { IfOk result
        (IsMade (items_view earlier.now) (Step.Calls to.now list.now on_error)) }
    ensures refused { IfErr result
        (IsRefused (items_view earlier.now) (Step.Calls to.now list.now on_error)) }
{
    Ok(Step::Calls {
        to: register(alloc, to)?,
        list: listed_calls(alloc, list.calls, earlier)?,
        on_error,
    })
}

fn each(
    alloc: Global,
    to: &str,
    over: &Source<'_>,
    method: &str,
    on_error: OnError,
    earlier: &[Value],
) -> Result<Step, FaultKind>
    ensures ok { IfOk result
        (IsMade (items_view earlier.now) (Step.Each to.now over.now method.now on_error)) }
    ensures refused { IfErr result
        (IsRefused (items_view earlier.now) (Step.Each to.now over.now method.now on_error)) }
{
    let to = register(alloc, to)?;
    let over = template(alloc, over, earlier)?;
    match Text::copy_of(alloc, method) {
        Ok(method) => Ok(Step::Each {
            to,
            over,
            method,
            on_error,
        }),
        Err(error) => {
            drop(over);
            Err(FaultKind::from(error))
        }
    }
}

fn notify(alloc: Global, call: &Call<'_>, earlier: &[Value]) -> Result<Step, FaultKind>
    ensures ok { IfOk result
        (IsMade (items_view earlier.now) (Step.Notify call.now.method.now call.now.params)) }
    ensures refused { IfErr result
        (IsRefused (items_view earlier.now) (Step.Notify call.now.method.now call.now.params)) }
{
    Ok(Step::Notify {
        method: Text::copy_of(alloc, call.method)?,
        params: params(alloc, call, earlier)?,
    })
}

fn answer(alloc: Global, value: &Source<'_>, earlier: &[Value]) -> Result<Step, FaultKind>
    ensures ok { IfOk result (IsMade (items_view earlier.now) (Step.Answer value.now)) }
    ensures refused { IfErr result (IsRefused (items_view earlier.now) (Step.Answer value.now)) }
{
    Ok(Step::Answer {
        value: template(alloc, value, earlier)?,
    })
}

fn fail(alloc: Global, code: i64, message: &str, earlier: &[Value]) -> Result<Step, FaultKind>
    ensures ok { IfOk result (IsMade (items_view earlier.now) (Step.Fail code message.now)) }
    ensures refused { IfErr result
        (IsRefused (items_view earlier.now) (Step.Fail code message.now)) }
{
    if !is_free(code) {
        return Err(FaultKind::Code);
    }
    Ok(Step::Fail {
        code,
        message: Text::copy_of(alloc, message)?,
    })
}

/// Whether the code lies outside the reserved ones, -32768 to -32100 (JSON-RPC 2.0, section 5.1).
fn is_free(code: i64) -> bool
    ensures { result ≡ is_free code }
{
    code < -32768 || -32100 < code
}

/// The name of a register that a step may set.
fn register(alloc: Global, name: &str) -> Result<Text, FaultKind>
    ensures ok { IfOk result (λ text. (text ≡ name.now) × (is_register_name name.now ≡ true)) }
    ensures refused { IfErr result (Breaks (is_register_name name.now)) }
{
    if !is_register_name(name) {
        return Err(FaultKind::Register);
    }
    Ok(Text::copy_of(alloc, name)?)
}

fn template(alloc: Global, source: &Source<'_>, earlier: &[Value]) -> Result<Template, FaultKind>
    ensures ok { IfOk result (λ template. (template ≡ source.now)
        × (is_place_known (items_view earlier.now) source.now ≡ true)) }
    ensures refused { IfErr result (Breaks (is_place_known (items_view earlier.now) source.now)) }
{
    template_of(alloc, source.value, earlier)
}

/// The templates of two values.
fn templates(
    alloc: Global,
    left: &Source<'_>,
    right: &Source<'_>,
    earlier: &[Value],
) -> Result<(Template, Template), FaultKind>
    ensures ok { IfOk result (λ made. (made.0 ≡ left.now) × (made.1 ≡ right.now)
        × ((is_place_known (items_view earlier.now) left.now
        && is_place_known (items_view earlier.now) right.now) ≡ true)) }
    ensures refused { IfErr result (Breaks (is_place_known (items_view earlier.now) left.now
        && is_place_known (items_view earlier.now) right.now)) }
{
    let left = template(alloc, left, earlier)?;
    match template(alloc, right, earlier) {
        Ok(right) => Ok((left, right)),
        Err(fault) => {
            drop(left);
            Err(fault)
        }
    }
}

fn params(alloc: Global, call: &Call<'_>, earlier: &[Value]) -> Result<Option<Template>, FaultKind>
    ensures ok { IfOk result (λ params. (params ≡ call.now.params)
        × (are_params_known (items_view earlier.now) call.now.params ≡ true)) }
    ensures refused { IfErr result
        (Breaks (are_params_known (items_view earlier.now) call.now.params)) }
{
    match &call.params {
        Some(params) => Ok(Some(template(alloc, params, earlier)?)),
        None => Ok(None),
    }
}

/// The calls of a list.
fn listed_calls(
    alloc: Global,
    calls: &[Value],
    earlier: &[Value],
) -> Result<Items<ListedCall>, FaultKind>
    requires { is_some (listed_calls (items_view calls.now)) ≡ true }
    ensures ok { IfOk result (λ list. (list ≡ the_calls (items_view calls.now))
        × (calls_refer_back (items_view earlier.now) (the_calls (items_view calls.now)) ≡ true)) }
    ensures refused { IfErr result
        (Breaks (calls_refer_back (items_view earlier.now) (the_calls (items_view calls.now)))) }
{
    let mut list = Vec::with_capacity(alloc, calls.len())?;
    for call in calls {
        let Some(call) = call_in(call) else {
            unreachable!();
        };
        list.push(listed_call(alloc, &call, earlier)?)?;
    }
    Ok(Items::from(list))
}

fn listed_call(alloc: Global, call: &Call<'_>, earlier: &[Value]) -> Result<ListedCall, FaultKind>
    ensures ok { IfOk result (λ made. (made ≡ seen_call call.now)
        × (are_params_known (items_view earlier.now) call.now.params ≡ true)) }
    ensures refused { IfErr result
        (Breaks (are_params_known (items_view earlier.now) call.now.params)) }
{
    Ok(ListedCall {
        method: Text::copy_of(alloc, call.method)?,
        params: params(alloc, call, earlier)?,
    })
}
