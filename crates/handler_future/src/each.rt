//! The calls of a step that makes one for each element of an array.

ghost use Rattle.std.specs.Prelude.{◌≡◌, false, Some, IfOk};
ghost use Rattle.serde_json.specs.View.{view, items_view};
ghost use Rattle.serde_json.specs.Written.{has_float, items_have_float};
ghost use Rattle.handler_future.specs.Act.{calls_for, calls_for_array, calls_for_each, call_for};
ghost use Rattle.handler_future.specs.Inner.Fault.{GivesItems};

use crate::fault::StepFault;
use json_values::{Json, JsonArray, Text};
use method_templates::MOST_LISTED;
use rpc_messages::{Outgoing, Standard};
use serde_json::Value;
use std::alloc::{AllocError, Global};

/// One call of the method for each element of an array, in order.
pub(crate) fn calls_for_each(
    alloc: Global,
    method: &Text,
    over: &Json,
) -> Result<Vec<Outgoing>, StepFault>
    ensures { GivesItems (calls_for_each method.now over.now) result }
{
    match over.as_value().as_array() {
        Some(elements) => calls_for_few(alloc, method, elements.as_slice()),
        None => Err(StepFault::Ended(Standard::InvalidParams)),
    }
}

fn calls_for_few(
    alloc: Global,
    method: &Text,
    elements: &[Value],
) -> Result<Vec<Outgoing>, StepFault>
    requires { items_have_float (items_view elements.now) ≡ false }
    ensures { GivesItems (calls_for_array method.now (Some (items_view elements.now))) result }
{
    if elements.len() > MOST_LISTED {
        return Err(StepFault::Ended(Standard::InvalidParams));
    }
    Ok(calls_for(alloc, method, elements)?)
}

fn calls_for(alloc: Global, method: &Text, elements: &[Value]) -> Result<Vec<Outgoing>, AllocError>
    requires { items_have_float (items_view elements.now) ≡ false }
    ensures { IfOk result (λ calls. calls.items ≡ calls_for method.now (items_view elements.now)) }
{
    let mut calls = Vec::with_capacity(alloc, elements.len())?;
    for element in elements {
        calls.push_reserved(call_for(alloc, method, element)?);
    }
    Ok(calls)
}

/// A call whose params are the array of the element.
fn call_for(alloc: Global, method: &Text, element: &Value) -> Result<Outgoing, AllocError>
    requires { has_float (view element.now) ≡ false }
    ensures { IfOk result (λ call. call ≡ call_for method.now (view element.now)) }
{
    let Some(element) = Json::new(element.clone()?) else {
        unreachable!();
    };
    let mut params = JsonArray::new(alloc);
    params.push(element)?;
    Ok(Outgoing {
        method: method.clone()?,
        params: Some(params.finish()),
    })
}
