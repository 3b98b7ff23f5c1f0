//! Templates filled from registers.

ghost use Rattle.std.specs.Prelude.{◌≡◌, ◌≢◌, List, Ok, Err, None, IfOk, IfErr, IfSome, IfNone, option_map, option_and_then, string_bytes};
ghost use Rattle.serde_json.specs.Data.{Data};
ghost use Rattle.serde_json.specs.Find.{get_member, pointer as points_to};
ghost use Rattle.serde_json.specs.View.{view};
ghost use Rattle.method_templates.specs.Form.{shapes_of, parts_of};
ghost use Rattle.method_templates.specs.Shape.{list, members};
ghost use Rattle.method_templates.specs.Locals.{with_lent};
ghost use Rattle.method_templates.specs.Value.{value_of, value_at, found_in, with_value, i64_in};

use crate::locals::Locals;
use crate::registers::Registers;
use crate::template::{Form, Template};
use json_values::{Json, JsonArray, JsonObject, Text};
use serde_json::Value;
use std::alloc::{AllocError, Global};
use std::collections::BTreeMap;

/// Why a template has no value.
#[derive(Clone, Copy, Debug, PartialEq, Eq)]
pub enum FillFault {
    /// The register `params` has no such place.
    Params,
    /// Another register has no such place, or isn't set.
    Missing,
    /// A growth was refused.
    Memory,
}

impl From<AllocError> for FillFault {
    ghost use Rattle.std.specs.Prelude.{◌≡◌};
    ghost use Rattle.method_templates.specs.declared.filling.FillFault.{FillFault};
    ghost use Rattle.method_templates.specs.declared.filling.FillFault.TheVariants as fault;

    ghost from_gives = { λ _ made. made ≡ fault.Memory };

    fn from(_: AllocError) -> FillFault {
        FillFault::Memory
    }
}

/// The value of the template under the registers. Members of arrays are filled in order, those of objects in the byte order of their names.
pub fn fill(alloc: Global, template: &Template, registers: &Registers) -> Result<Json, FillFault>
    ensures ok { IfOk result (λ value. value_of registers.now template.now ≡ Ok value) }
    ensures refused { IfErr result (λ fault. fault ≢ FillFault.Memory
        → value_of registers.now template.now ≡ Err fault) }
{
    fill_lent(alloc, template, &registers.locals, &registers.params)
}

/// The same under registers whose params are lent.
#[cycle(fill)]
pub fn fill_lent(
    alloc: Global,
    template: &Template,
    locals: &Locals,
    params: &Json,
) -> Result<Json, FillFault>
    ensures ok { IfOk result (λ value.
        value_of (with_lent params.now locals.now) template.now ≡ Ok value) }
    ensures refused { IfErr result (λ fault. fault ≢ FillFault.Memory
        → value_of (with_lent params.now locals.now) template.now ≡ Err fault) }
{
    match &template.form {
        Form::Plain(value) => Ok(value.clone()?),
        Form::Place { name, pointer } => {
            fill_place(name.as_str(), pointer.as_str(), locals, params)
        }
        Form::List(templates) => fill_list(alloc, templates, locals, params),
        Form::Members(templates) => fill_members(alloc, templates, locals, params),
    }
}

fn fill_place(name: &str, pointer: &str, locals: &Locals, params: &Json) -> Result<Json, FillFault>
    ensures ok { IfOk result (λ value.
        value_at (with_lent params.now locals.now) name.now pointer.now ≡ Ok value) }
    ensures refused { IfErr result (λ fault. fault ≢ FillFault.Memory
        → value_at (with_lent params.now locals.now) name.now pointer.now ≡ Err fault) }
{
    let found = match locals.get(params, name) {
        Some(value) => value.pointer(pointer)?,
        None => None,
    };
    match found {
        Some(value) => Ok(value),
        None => Err(fault_at(name)),
    }
}

/// Why the register has no such place.
fn fault_at(name: &str) -> FillFault
    ensures { Err result ≡ found_in name.now None }
{
    if name == "params" {
        FillFault::Params
    } else {
        FillFault::Missing
    }
}

#[cycle(fill)]
fn fill_list(
    alloc: Global,
    templates: &Vec<Template>,
    locals: &Locals,
    params: &Json,
) -> Result<Json, FillFault>
    ensures ok { IfOk result (λ value.
        value_of (with_lent params.now locals.now) (list (shapes_of templates.now.items)) ≡ Ok value) }
    ensures refused { IfErr result (λ fault. fault ≢ FillFault.Memory
        → value_of (with_lent params.now locals.now) (list (shapes_of templates.now.items)) ≡ Err fault) }
{
    let mut values = JsonArray::new(alloc);
    for template in templates {
        values.push(fill_lent(alloc, template, locals, params)?)?;
    }
    Ok(values.finish())
}

#[cycle(fill)]
fn fill_members(
    alloc: Global,
    templates: &BTreeMap<String, Template>,
    locals: &Locals,
    params: &Json,
) -> Result<Json, FillFault>
    ensures ok { IfOk result (λ value.
        value_of (with_lent params.now locals.now) (members (parts_of templates.now.entries)) ≡ Ok value) }
    ensures refused { IfErr result (λ fault. fault ≢ FillFault.Memory
        → value_of (with_lent params.now locals.now) (members (parts_of templates.now.entries)) ≡ Err fault) }
{
    let mut values = JsonObject::new(alloc);
    for (name, template) in templates.iter() {
        let value = fill_lent(alloc, template, locals, params)?;
        match Text::copy_of(alloc, name.as_str()) {
            Ok(name) => values.insert(name, value)?,
            Err(error) => {
                drop(value);
                return Err(FillFault::from(error));
            }
        }
    }
    Ok(values.finish())
}

/// The value of a template, where it is a whole number of i64; none where it is another value. A place's value stays where
/// it is.
pub fn fill_integer(
    alloc: Global,
    template: &Template,
    locals: &Locals,
    params: &Json,
) -> Result<Option<i64>, FillFault>
    ensures ok { IfOk result (λ integer.
        with_value i64_in (value_of (with_lent params.now locals.now) template.now) ≡ Ok integer) }
    ensures refused { IfErr result (λ fault. fault ≢ FillFault.Memory
        → value_of (with_lent params.now locals.now) template.now ≡ Err fault) }
{
    match &template.form {
        Form::Plain(value) => Ok(value.as_value().as_i64()),
        Form::Place { name, pointer } => {
            match find_place(name.as_str(), pointer.as_str(), locals, params) {
                Some(value) => Ok(value.as_i64()),
                None => Err(fault_at(name.as_str())),
            }
        }
        _ => {
            let value = fill_lent(alloc, template, locals, params)?;
            let integer = value.as_value().as_i64();
            drop(value);
            Ok(integer)
        }
    }
}

/// The value of a template that is a value itself or the whole of a register, lent; none of any other.
pub fn lend_whole<'a>(
    template: &'a Template,
    locals: &'a Locals,
    params: &'a Json,
) -> Option<&'a Json>
    ensures { IfSome result (λ value.
        value_of (with_lent params.now locals.now) template.now ≡ Ok value.now) }
{
    match &template.form {
        Form::Plain(value) => Some(value),
        Form::Place { name, pointer } if pointer.as_str().is_empty() => {
            locals.get(params, name.as_str())
        }
        _ => None,
    }
}

/// The value of a template that is the whole of a register, taken out of it; none of any other, or where the value is lent.
pub fn take_whole(template: &Template, locals: &mut Locals) -> Option<Json>
    ensures some { IfSome result (λ value. (lent : Data)
        → value_of (with_lent lent locals.old) template.now ≡ Ok value) }
    ensures none { IfNone result (locals.new ≡ locals.old) }
{
    match &template.form {
        Form::Place { name, pointer } if pointer.as_str().is_empty() => locals.take(name.as_str()),
        _ => None,
    }
}

/// The place in a register that the pointer leads to.
fn find_place<'a>(
    name: &str,
    pointer: &str,
    locals: &'a Locals,
    params: &'a Json,
) -> Option<&'a Value>
    ensures { option_map (λ value. view value.now) result ≡ option_and_then (points_to pointer.now)
        (get_member name.now (with_lent params.now locals.now)) }
{
    match locals.get(params, name) {
        Some(value) => pointed_at(value.as_value(), pointer),
        None => None,
    }
}

/// The place in a value that the pointer leads to. Most params are an array, and most pointers into them have one digit:
/// that item is taken without a walk through the pointer.
fn pointed_at<'a>(value: &'a Value, pointer: &str) -> Option<&'a Value>
    ensures { option_map (λ place. view place.now) result ≡ points_to pointer.now (view value.now) }
{
    let bytes = pointer.as_bytes();
    if bytes.len() == 2 && bytes[0] == b'/' && bytes[1].is_ascii_digit() && value.is_array() {
        return value.get((bytes[1] - b'0') as usize);
    }
    value.pointer(pointer)
}
