//! What a step does with the registers as they stand, its replies left aside.

ghost use Rattle.std.specs.Prelude.{◌≡◌, ◌+ℤ◌, IfOk, IfSome, IfNone, Ok, None, ok_or, if◌then◌else◌};
ghost use Rattle.std.specs.Str.{bytes_eq};
ghost use Rattle.serde_json.specs.Data.{Data};
ghost use Rattle.serde_json.specs.Written.{compact_text};
ghost use Rattle.method_templates.specs.Locals.{with_lent};
ghost use Rattle.method_templates.specs.Value.{i64_in};
ghost use Rattle.handler_future.specs.Act.{act_of, act_or_error, template_value, sum_of, number_of, are_alike, outgoing_of, array_or_object, outgoings_of, calls_for_each, act_of_calls};
ghost use Rattle.handler_future.specs.Inner.Fault.{Gives, IsStepFault};
ghost use Rattle.handler_future.specs.Results.{and_then};

use crate::each::calls_for_each;
use crate::fault::StepFault;
use json_values::{Items, Json, JsonArray, Text};
use method_templates::{
    FillFault, ListedCall, Locals, Step, Template, fill_integer, fill_lent, lend_whole, take_whole,
};
use rpc_messages::{ErrorValue, Outgoing, Reply, Standard};
use std::alloc::{AllocError, Global};

/// What one step does.
#[derive(Drop)]
pub(crate) enum Act {
    /// Puts the value into the step's register.
    Put(Json),
    /// Passes over so many of the next steps.
    Skip(u32),
    /// Sends one notification.
    Notify(Outgoing),
    /// Makes one call.
    Call(Outgoing),
    /// Makes one batch of calls.
    Calls(Items<Outgoing>),
    /// Ends the method.
    End(Reply),
}

/// What the step does. A fault of the step ends the method.
pub(crate) fn decide(
    alloc: Global,
    step: &Step,
    locals: &Locals,
    lent: &Json,
) -> Result<Act, AllocError>
    ensures { IfOk result (λ act. act ≡ act_of (with_lent lent.now locals.now) step.now) }
{
    match try_decide(alloc, step, locals, lent) {
        Ok(act) => Ok(act),
        Err(StepFault::Ended(standard)) => Ok(Act::End(Reply::Standard(standard))),
        Err(StepFault::Memory) => Err(AllocError),
    }
}

/// What the step answers, where that is the whole of a register: it is taken out.
pub(crate) fn whole_answer(step: &Step, locals: &mut Locals) -> Option<Json>
    ensures some { IfSome result (λ value. (lent : Data)
        → act_of (with_lent lent locals.old) step.now ≡ Act.End (Reply.Done value)) }
    ensures none { IfNone result (locals.new ≡ locals.old) }
{
    match step {
        Step::Answer { value } => take_whole(value, locals),
        _ => None,
    }
}

fn try_decide(alloc: Global, step: &Step, locals: &Locals, lent: &Json) -> Result<Act, StepFault>
    ensures { Gives (act_or_error (with_lent lent.now locals.now) step.now) result }
{
    match step {
        Step::Set { value, .. } => template_value(alloc, value, locals, lent).map(Act::Put),
        Step::Add { left, right, .. } => sum(alloc, left, right, locals, lent).map(Act::Put),
        Step::Skip { left, right, count } => skip(alloc, left, right, *count, locals, lent),
        Step::Call { method, params, .. } => {
            outgoing(alloc, method, params, locals, lent).map(Act::Call)
        }
        Step::Calls { list, .. } => {
            all_outgoing(alloc, list.as_slice(), locals, lent).map(Act::Calls)
        }
        Step::Each { over, method, .. } => act_for_each(alloc, over, method, locals, lent),
        Step::Notify { method, params } => {
            outgoing(alloc, method, params, locals, lent).map(Act::Notify)
        }
        Step::Answer { value } => answer(alloc, value, locals, lent),
        Step::Fail { code, message } => failure(*code, message),
    }
}

/// Passes over so many steps where the templates' values are alike, and over none where they aren't.
fn skip(
    alloc: Global,
    left: &Template,
    right: &Template,
    count: u32,
    locals: &Locals,
    lent: &Json,
) -> Result<Act, StepFault>
    ensures { Gives (and_then (are_alike (with_lent lent.now locals.now) left.now right.now)
        (λ alike. Ok (Act.Skip (if alike then count else 0)))) result }
{
    if are_alike(alloc, left, right, locals, lent)? {
        Ok(Act::Skip(count))
    } else {
        Ok(Act::Skip(0))
    }
}

/// Makes one call of the method for each element of the template's value.
fn act_for_each(
    alloc: Global,
    over: &Template,
    method: &Text,
    locals: &Locals,
    lent: &Json,
) -> Result<Act, StepFault>
    ensures { Gives (and_then (template_value (with_lent lent.now locals.now) over.now) (λ over.
        and_then (calls_for_each method.now over) (λ calls. Ok (act_of_calls calls)))) result }
{
    if let Some(over) = lend_whole(over, locals, lent) {
        let calls = calls_for_each(alloc, method, over)?;
        return Ok(act_of_calls(alloc, calls));
    }
    let over = template_value(alloc, over, locals, lent)?;
    let calls = calls_for_each(alloc, method, &over);
    drop(over);
    Ok(act_of_calls(alloc, calls?))
}

/// Ends the method with the template's value.
fn answer(alloc: Global, value: &Template, locals: &Locals, lent: &Json) -> Result<Act, StepFault>
    ensures { Gives (and_then (template_value (with_lent lent.now locals.now) value.now)
        (λ value. Ok (Act.End (Reply.Done value)))) result }
{
    let value = template_value(alloc, value, locals, lent)?;
    Ok(Act::End(Reply::Done(value)))
}

/// Ends the method with an error of its own.
fn failure(code: i64, message: &Text) -> Result<Act, StepFault>
    ensures { Gives (Ok (Act.End (Reply.Error
        (record { code = code; message = message.now; extra = None })))) result }
{
    let message = message.clone()?;
    Ok(Act::End(Reply::Error(ErrorValue {
        code,
        message,
        extra: None,
    })))
}

fn template_value(
    alloc: Global,
    template: &Template,
    locals: &Locals,
    lent: &Json,
) -> Result<Json, StepFault>
    ensures { Gives (template_value (with_lent lent.now locals.now) template.now) result }
{
    match fill_lent(alloc, template, locals, lent) {
        Ok(value) => Ok(value),
        Err(fault) => Err(step_fault(fault)),
    }
}

/// What a template without a value does to the method.
fn step_fault(fault: FillFault) -> StepFault
    ensures { IsStepFault fault result }
{
    match fault {
        FillFault::Params => StepFault::Ended(Standard::InvalidParams),
        FillFault::Missing => StepFault::Ended(Standard::InternalError),
        FillFault::Memory => StepFault::Memory,
    }
}

/// The sum of two whole numbers of i64.
pub(crate) fn sum(
    alloc: Global,
    left: &Template,
    right: &Template,
    locals: &Locals,
    lent: &Json,
) -> Result<Json, StepFault>
    ensures { Gives (sum_of (with_lent lent.now locals.now) left.now right.now) result }
{
    let left = whole(alloc, left, locals, lent)?;
    let right = whole(alloc, right, locals, lent)?;
    sum_of_both(left, right)
}

/// The template's value, where it is a whole number of i64. It stands within the sum, which asks for two of them.
#[inline(always)]
fn whole(
    alloc: Global,
    template: &Template,
    locals: &Locals,
    lent: &Json,
) -> Result<Option<i64>, StepFault>
    ensures { Gives (and_then (template_value (with_lent lent.now locals.now) template.now)
        (λ value. Ok (i64_in value))) result }
{
    match fill_integer(alloc, template, locals, lent) {
        Ok(integer) => Ok(integer),
        Err(fault) => Err(step_fault(fault)),
    }
}

/// The sum where both are there; else the caller's fault.
fn sum_of_both(left: Option<i64>, right: Option<i64>) -> Result<Json, StepFault>
    ensures { Gives (and_then (ok_or left Standard.InvalidParams) (λ left.
        and_then (ok_or right Standard.InvalidParams) (λ right. number_of (left +ℤ right)))) result }
{
    match (left, right) {
        (Some(left), Some(right)) => sum_in_range(left, right),
        _ => Err(StepFault::Ended(Standard::InvalidParams)),
    }
}

fn sum_in_range(left: i64, right: i64) -> Result<Json, StepFault>
    ensures { Gives (number_of (left +ℤ right)) result }
{
    match left.checked_add(right) {
        Some(sum) => Ok(Json::integer(sum)),
        None => Err(StepFault::Ended(Standard::InternalError)),
    }
}

/// Whether the templates' values have the same text.
fn are_alike(
    alloc: Global,
    left: &Template,
    right: &Template,
    locals: &Locals,
    lent: &Json,
) -> Result<bool, StepFault>
    ensures { Gives (are_alike (with_lent lent.now locals.now) left.now right.now) result }
{
    if let Some(left) = lend_whole(left, locals, lent) {
        return is_like(alloc, left, right, locals, lent);
    }
    let left = template_value(alloc, left, locals, lent)?;
    let alike = is_like(alloc, &left, right, locals, lent);
    drop(left);
    alike
}

/// Whether the value has the same text as the template's.
fn is_like(
    alloc: Global,
    left: &Json,
    right: &Template,
    locals: &Locals,
    lent: &Json,
) -> Result<bool, StepFault>
    ensures { Gives (and_then (template_value (with_lent lent.now locals.now) right.now)
        (λ right. Ok (bytes_eq (compact_text left.now) (compact_text right)))) result }
{
    if let Some(right) = lend_whole(right, locals, lent) {
        return Ok(left.has_text_of(alloc, right)?);
    }
    let right = template_value(alloc, right, locals, lent)?;
    let alike = left.has_text_of(alloc, &right);
    drop(right);
    Ok(alike?)
}

/// A call or notification with these params, which are an array or an object.
fn outgoing(
    alloc: Global,
    method: &Text,
    params: &Option<Template>,
    locals: &Locals,
    lent: &Json,
) -> Result<Outgoing, StepFault>
    ensures { Gives (outgoing_of (with_lent lent.now locals.now) method.now params.now) result }
{
    let params = match params {
        Some(params) => Some(array_or_object(template_value(alloc, params, locals, lent)?)?),
        None => None,
    };
    Ok(Outgoing {
        method: method.clone()?,
        params,
    })
}

fn array_or_object(value: Json) -> Result<Json, StepFault>
    ensures { Gives (array_or_object value) result }
{
    let is_structured = value.as_value().is_array() || value.as_value().is_object();
    if is_structured {
        Ok(value)
    } else {
        drop(value);
        Err(StepFault::Ended(Standard::InternalError))
    }
}

fn all_outgoing(
    alloc: Global,
    list: &[ListedCall],
    locals: &Locals,
    lent: &Json,
) -> Result<Items<Outgoing>, StepFault>
    ensures { Gives (outgoings_of (with_lent lent.now locals.now) list.now) result }
{
    let mut calls = Vec::with_capacity(alloc, list.len())?;
    for listed in list {
        let call = outgoing(alloc, &listed.method, &listed.params, locals, lent)?;
        calls.push_reserved(call);
    }
    Ok(Items::from(calls))
}

/// Makes the calls. For none there is no message, and the register gets an empty array at once.
fn act_of_calls(alloc: Global, calls: Vec<Outgoing>) -> Act
    ensures { result ≡ act_of_calls calls.items }
{
    if calls.is_empty() {
        Act::Put(JsonArray::new(alloc).finish())
    } else {
        Act::Calls(Items::from(calls))
    }
}
