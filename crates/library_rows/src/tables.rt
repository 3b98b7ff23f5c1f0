//! What a table keeps that no byte shows, and templates that are filled.

use crate::rows::{each_row, is_text, json};
use json_values::{Json, Text};
use method_steps::{FaultKind, FillFault, Registers, Step, Table, Template, fill};
use std::alloc::{AllocError, Global};
use std::test::Fail;

/// A method for each of the things that one may do.
pub const SIX: &str = r#"version = 1
method = [
  { name = "add", step = [{ kind = "add", to = "s", left = "$params/0", right = "$params/1" }, { kind = "answer", value = "$s" }] },
  { name = "ask", step = [{ kind = "call", to = "r", method = "confirm", params = ["$params/0"] }, { kind = "answer", value = "$r" }] },
  { name = "two", step = [{ kind = "calls", to = "r", list = [{ method = "a" }, { method = "b" }] }, { kind = "answer", value = "$r" }] },
  { name = "gate", step = [{ kind = "call", to = "r", method = "confirm" }, { kind = "skip", left = "$r", right = true, count = 1 }, { kind = "fail", code = 7, message = "no" }, { kind = "answer", value = "yes" }] },
  { name = "keep", step = [{ kind = "call", to = "r", method = "confirm", on_error = "keep" }, { kind = "answer", value = "$r" }] },
  { name = "note", step = [{ kind = "notify", method = "log", params = ["$params/0"] }] },
]
"#;

pub const HELLO: &str = r#"version = 2
opening = [{ kind = "call", to = "r", method = "hello" }, { kind = "notify", method = "ready", params = ["$r"] }]
"#;

const EACH: &str = r#"version = 2
opening = [{ kind = "call", to = "r", method = "names" }, { kind = "each", to = "s", over = "$r", method = "g" }]
method = [{ name = "all", step = [{ kind = "each", to = "r", over = "$params", method = "f" }, { kind = "answer", value = "$r" }] }]
"#;

/// Tables, how many calls each of their methods makes at most, and how many the opening does.
const COUNTS: &[(&str, (&[u32], u32))] = &[
    (SIX, (&[0, 1, 2, 1, 1, 0], 0)),
    (HELLO, (&[], 1)),
    (EACH, (&[16], 17)),
    ("version = 2\nopening = []\n", (&[], 0)),
];

/// Whether the table has methods of so many calls, and no other.
fn counts(table: &Table, calls: &[u32]) -> bool {
    let mut method = 0u32;
    for most in calls {
        if table.calls_most(method) != *most || table.steps(method).is_none() {
            return false;
        }
        method = method.saturating_add(1);
    }
    table.len() == method && table.calls_most(method) == 0 && table.steps(method).is_none()
}

fn is_counted(alloc: Global, text: &str, (calls, opening): &(&[u32], u32)) -> Result<bool, Fail> {
    let table = Table::read(alloc, text.as_bytes()).ok().ok_or("no table")?;
    let has_opening = table.opening_steps().is_some() == (*opening > 0);
    let is_counted = counts(&table, calls) && table.opening_most() == *opening;
    drop(table);
    Ok(has_opening && is_counted)
}

#[test]
fn a_table_counts_the_calls_of_its_methods(rt: HostRuntime) -> Result<(), Fail> {
    each_row(&rt, rt.alloc(), COUNTS, is_counted)
}

/// Steps of a method with the params `["x"]`, and the text of what the last, an `answer`, gives, or why it gives none.
const FILLED: &[(&str, &str)] = &[
    (
        r#"{kind="answer",value=["$params/0","$$x","$null"]}"#,
        r#"["x","$x",null]"#,
    ),
    (r#"{kind="answer",value=["$params/1"]}"#, "no such params"),
    (
        r#"{kind="set",to="r",value=1},{kind="answer",value={b="$params/1",a="$r"}}"#,
        "missing",
    ),
];

/// The text of what filling gave, or why it gave nothing.
fn shown(alloc: Global, filled: &Result<Json, FillFault>) -> Result<String, AllocError> {
    match filled {
        Ok(value) => value.to_text(alloc).map(Text::into_string),
        Err(FillFault::Params) => String::from_str(alloc, "no such params"),
        Err(FillFault::Missing) => String::from_str(alloc, "missing"),
        Err(FillFault::Memory) => Err(AllocError),
    }
}

/// Whether the template is filled with a value of this text, or has none for this reason.
fn gives(alloc: Global, template: &Template, want: &str) -> Result<bool, Fail> {
    let registers = Registers::new(alloc, json(alloc, r#"["x"]"#)?)?;
    let filled = fill(alloc, template, &registers);
    drop(registers);
    let shown = shown(alloc, &filled);
    drop(filled);
    Ok(is_text(shown, want)?)
}

fn answers(alloc: Global, table: &Table, want: &str) -> Result<bool, Fail> {
    match table.steps(0) {
        Some(steps) => match steps.last() {
            Some(Step::Answer { value }) => gives(alloc, value, want),
            _ => Ok(false),
        },
        None => Ok(false),
    }
}

fn is_filled(alloc: Global, steps: &str, want: &&str) -> Result<bool, Fail> {
    let before = "version = 1\n[[method]]\nname = \"m\"\nstep = [";
    let text = [before, steps, "]\n"].concat(alloc)?;
    let table = Table::read(alloc, text.as_bytes());
    let is_filled = match &table {
        Ok(table) => answers(alloc, table, want),
        Err(fault) if fault.kind == FaultKind::Memory => Err(AllocError.into()),
        Err(_) => Ok(false),
    };
    drop(table);
    is_filled
}

#[test]
fn templates_are_filled_and_missing_places_are_told_by_their_register(
    rt: HostRuntime,
) -> Result<(), Fail> {
    each_row(&rt, rt.alloc(), FILLED, is_filled)
}
