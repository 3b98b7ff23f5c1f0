//! The steps of a method or of the opening, read in order.

ghost use Rattle.std.specs.Prelude.{◌≡◌, ◌≢◌, ◌≤◌, length, Some, None, IfOk, IfErr};
ghost use Rattle.toml.specs.Data.{no_items};
ghost use Rattle.toml.specs.View.{view, items_view};
ghost use Rattle.table_reading.specs.Fault.{in_document};
ghost use Rattle.table_reading.specs.Judged.{step_fault, steps_fault};
ghost use Rattle.table_reading.specs.Made.{step_from, steps_from};

use crate::fault::{FaultKind, TableFault, in_document};
use crate::kind::{is_kind_of, kind_of};
use crate::made;
use crate::parts::parts_of;
use crate::version::Version;
use method_templates::{MOST_STEPS, Step};
use std::alloc::Global;
use toml::{Table, Value};

/// The steps of a method, or of the opening, which has the number 0; or the first fault among them.
pub fn steps_of(
    alloc: Global,
    version: Version,
    method: u32,
    items: &[Value],
) -> Result<Vec<Step>, TableFault>
    requires { length items.now ≤ MOST_STEPS }
    ensures ok { IfOk result (λ steps. (steps.items ≡ steps_from (items_view items.now))
        × (steps_fault version method no_items (items_view items.now) ≡ None)) }
    ensures refused { IfErr result (λ fault. fault ≢ in_document FaultKind.Memory
        → steps_fault version method no_items (items_view items.now) ≡ Some fault) }
{
    let mut steps = Vec::with_capacity(alloc, items.len())?;
    for (place, item) in items.iter().enumerate() {
        match step_of(alloc, version, &items[..place], item) {
            Ok(step) => steps.push(step)?,
            Err(FaultKind::Memory) => return Err(in_document(FaultKind::Memory)),
            Err(kind) => {
                let step = place as u32 + 1;
                return Err(TableFault { kind, method, step });
            }
        }
    }
    Ok(steps)
}

/// The step after those before it, or what is wrong with it.
fn step_of(
    alloc: Global,
    version: Version,
    earlier: &[Value],
    item: &Value,
) -> Result<Step, FaultKind>
    ensures ok { IfOk result (λ step. (step ≡ step_from (view item.now))
        × (step_fault version (items_view earlier.now) (view item.now) ≡ None)) }
    ensures refused { IfErr result (λ fault. fault ≢ FaultKind.Memory
        → step_fault version (items_view earlier.now) (view item.now) ≡ Some fault) }
{
    let Value::Table(step) = item else {
        return Err(FaultKind::Field);
    };
    let Some(kind) = kind_of(step) else {
        return Err(FaultKind::Step);
    };
    if !is_kind_of(version, kind) {
        return Err(FaultKind::Step);
    }
    let Some(parts) = parts_of(kind, step) else {
        return Err(FaultKind::Field);
    };
    if !parts.are_within() {
        return Err(FaultKind::Limit);
    }
    made::step_of(alloc, &parts, earlier)
}
