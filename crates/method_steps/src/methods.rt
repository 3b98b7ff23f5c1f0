//! The opening and the methods of a document, read in order, and the place of each name.

ghost use Rattle.std.specs.Prelude.{◌≡◌, ◌≢◌, ◌<◌, ◌≤◌, ℕ, List, Some, None, length, map, option_map, All, IfOk, IfErr};
ghost use Rattle.std.specs.BTreeMap.{get_by_text};
ghost use Rattle.toml.specs.Data.{no_items};
ghost use Rattle.toml.specs.View.{view, items_view};
ghost use Rattle.table_reading.specs.Fault.{in_document};
ghost use Rattle.table_reading.specs.Judged.{steps_fault};
ghost use Rattle.method_steps.specs.Judged.{method_fault, methods_fault};
ghost use Rattle.table_reading.specs.Made.{steps_from};
ghost use Rattle.method_steps.specs.Made.{method_from, methods_from};
ghost use Rattle.method_steps.specs.Inner.Methods.{named_steps, IsCounted};
ghost use Rattle.method_steps.specs.Steps.{place_of, shared_steps, unless_empty};

use crate::table::{Method, calls_of};
use json_values::Text;
use method_templates::{MOST_METHODS, MOST_STEPS, Step, is_method_name};
use std::alloc::{AllocError, Global};
use std::collections::BTreeMap;
use std::sync::Arc;
use table_reading::{
    Entry, FaultKind, TableFault, Version, count_of, has_only, in_method, one_says, steps_of,
    tables_at, text_at,
};
use toml::Value;

/// The opening's steps, where there are any, or the first fault among them.
pub(crate) fn opening_of(
    alloc: Global,
    version: Version,
    items: &[Value],
) -> Result<Option<Arc<Vec<Step>>>, TableFault>
    requires { length items.now ≤ MOST_STEPS }
    ensures ok { IfOk result (λ opening. (option_map shared_steps opening
        ≡ unless_empty (steps_from (items_view items.now)))
        × (steps_fault version 0 no_items (items_view items.now) ≡ None)) }
    ensures refused { IfErr result (λ fault. fault ≢ in_document FaultKind.Memory
        → steps_fault version 0 no_items (items_view items.now) ≡ Some fault) }
{
    if items.is_empty() {
        return Ok(None);
    }
    let steps = steps_of(alloc, version, 0, items)?;
    Ok(Some(Arc::new(alloc, steps)?))
}

/// The methods, or the first fault among them.
pub(crate) fn methods_of(
    alloc: Global,
    version: Version,
    items: &[Value],
) -> Result<Vec<Method>, TableFault>
    requires { length items.now ≤ MOST_METHODS }
    ensures ok { IfOk result (λ methods.
        (map named_steps methods.items ≡ methods_from (items_view items.now))
        × (methods_fault version no_items (items_view items.now) ≡ None)) }
    ensures counted { IfOk result (λ methods. All IsCounted methods.items) }
    ensures refused { IfErr result (λ fault. fault ≢ in_document FaultKind.Memory
        → methods_fault version no_items (items_view items.now) ≡ Some fault) }
{
    let mut methods = Vec::with_capacity(alloc, items.len())?;
    for (place, item) in items.iter().enumerate() {
        match method_of(alloc, version, &items[..place], item) {
            Ok(method) => methods.push(method)?,
            Err(fault) => return Err(fault),
        }
    }
    Ok(methods)
}

/// The method after those before it, or its first fault.
fn method_of(
    alloc: Global,
    version: Version,
    earlier: &[Value],
    item: &Value,
) -> Result<Method, TableFault>
    requires { length earlier.now < MOST_METHODS }
    ensures ok { IfOk result (λ method. (named_steps method ≡ method_from (view item.now))
        × (method_fault version (items_view earlier.now) (view item.now) ≡ None)) }
    ensures counted { IfOk result IsCounted }
    ensures refused { IfErr result (λ fault. fault ≢ in_document FaultKind.Memory
        → method_fault version (items_view earlier.now) (view item.now) ≡ Some fault) }
{
    let number = count_of(earlier) as u32 + 1;
    let Value::Table(method) = item else {
        return Err(in_method(number, FaultKind::Field));
    };
    if !has_only(Entry::Method, method) {
        return Err(in_method(number, FaultKind::Field));
    }
    let (Some(name), Some(steps)) = (text_at(method, "name"), tables_at(method, "step")) else {
        return Err(in_method(number, FaultKind::Field));
    };
    if !is_method_name(name) || one_says("name", name, earlier) {
        return Err(in_method(number, FaultKind::Name));
    }
    if count_of(steps) > MOST_STEPS {
        return Err(in_method(number, FaultKind::Limit));
    }
    let steps = steps_of(alloc, version, number, steps)?;
    let calls = calls_of(steps.as_slice());
    Ok(Method {
        name: Text::copy_of(alloc, name)?,
        steps: Arc::new(alloc, steps)?,
        calls,
    })
}

/// The place of the first method of each name.
pub(crate) fn places_of(
    alloc: Global,
    methods: &[Method],
) -> Result<BTreeMap<String, u32>, AllocError>
    requires { length methods.now ≤ MOST_METHODS }
    ensures { IfOk result (λ places. (name : List ℕ)
        → get_by_text places name ≡ place_of name (map named_steps methods.now)) }
{
    let mut places = BTreeMap::new(alloc);
    for (place, method) in methods.iter().enumerate() {
        let name = method.name.as_str();
        if !places.contains_key(name) {
            drop(places.insert(String::from_str(alloc, name)?, place as u32)?);
        }
    }
    Ok(places)
}
