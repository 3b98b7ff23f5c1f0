//! What more is told of a text that was refused as a table.
use crate::run_notes::RefusedText;
use crate::table_fields::{
    Field, FieldFault, field_fault, fields_of_document, fields_of_method, fields_of_step,
};
use method_steps::{FaultKind, TableFault};
use program_edge::Shown;
use std::alloc::Global;
use std::io;
use std::io::Write;
use toml::{Table, Value};

/// Tells the names of the method and the field at fault, as far as they are known, and the cause.
pub fn tell_refused<E: Write>(
    alloc: Global,
    refused: &RefusedText,
    errors: &mut E,
) -> io::Result<()> {
    let RefusedText { text, fault } = refused;
    if fault.kind == FaultKind::Memory {
        return writeln!(errors, "  missing: memory for the table");
    }
    match toml::table_from_slice(alloc, text.as_slice()) {
        Ok(top) => tell_entry(&top, *fault, errors),
        Err(error) if error.is_memory() => Ok(()),
        Err(error) => {
            let start = error.span().map_or(0, |span| span.start);
            let (line, column) = place_of(text.as_slice(), start);
            writeln!(errors, "  line: {line}")?;
            writeln!(errors, "  column: {column}")?;
            tell_cause(error.message(), errors)
        }
    }
}

/// The line in which this byte stands and the column, both from 1. A column counts characters.
fn place_of(text: &[u8], place: usize) -> (usize, usize) {
    let (mut line, mut column) = (1usize, 1usize);
    for byte in text.iter().take(place) {
        if *byte == b'\n' {
            line = line.saturating_add(1);
            column = 1;
        } else if *byte & 0xC0 != 0x80 {
            column = column.saturating_add(1);
        }
    }
    (line, column)
}

/// What stands at the place of a fault.
#[derive(Clone, Copy)]
struct Entry<'a> {
    method: Option<&'a str>,
    kind: Option<&'a str>,
    fields: &'static [Field],
    /// The entry itself, where it is a table.
    table: Option<&'a Table>,
}

fn tell_entry<E: Write>(top: &Table, fault: TableFault, errors: &mut E) -> io::Result<()> {
    let entry = entry_at(top, fault);
    if let Some(text) = entry.method {
        writeln!(errors, "  method: {}", Shown { text })?;
    }
    if let Some(text) = entry.kind {
        writeln!(errors, "  kind: {}", Shown { text })?;
    }
    let found = fault_of(fault.kind, entry);
    if !found.name.is_empty() {
        let text = found.name;
        writeln!(errors, "  field: {}", Shown { text })?;
    }
    tell_cause(found.cause, errors)
}

fn tell_cause<E: Write>(cause: &str, errors: &mut E) -> io::Result<()> {
    writeln!(errors, "  cause: {cause}")
}

fn entry_at(top: &Table, fault: TableFault) -> Entry<'_> {
    if fault.method > 0 {
        entry_of_method(item_at(top, "method", fault.method), fault.step)
    } else if fault.step > 0 {
        entry_of_step(None, item_at(top, "opening", fault.step))
    } else {
        let version = top.get("version").and_then(Value::as_integer);
        Entry {
            method: None,
            kind: None,
            fields: fields_of_document(version.unwrap_or(0)),
            table: Some(top),
        }
    }
}

fn entry_of_method(method: Option<&Table>, step: u32) -> Entry<'_> {
    let name = text_at(method, "name");
    match method {
        Some(table) if step > 0 => entry_of_step(name, item_at(table, "step", step)),
        _ => Entry {
            method: name,
            kind: None,
            fields: fields_of_method(),
            table: method,
        },
    }
}

fn entry_of_step<'a>(method: Option<&'a str>, step: Option<&'a Table>) -> Entry<'a> {
    let kind = text_at(step, "kind");
    Entry {
        method,
        kind,
        fields: fields_of_step(kind.unwrap_or("")),
        table: step,
    }
}

/// The table of that number, from 1, in the list of that name.
fn item_at<'a>(table: &'a Table, name: &str, number: u32) -> Option<&'a Table> {
    let Some(Value::Array(items)) = table.get(name) else {
        return None;
    };
    items.get(number.saturating_sub(1) as usize)?.as_table()
}

pub fn text_at<'a>(table: Option<&'a Table>, name: &str) -> Option<&'a str> {
    table?.get(name)?.as_str()
}

/// The field at fault, without a name where it isn't known, and what is wrong.
fn fault_of(kind: FaultKind, entry: Entry<'_>) -> FieldFault<'_> {
    let (name, cause) = match kind {
        FaultKind::Field => return field_fault_of(entry),
        FaultKind::NotToml => ("", "the text isn't TOML"),
        FaultKind::Version => ("version", "the version is neither 1 nor 2"),
        FaultKind::Name => (
            "name",
            "the name is empty, too long or reserved, or an earlier method has it",
        ),
        FaultKind::Step => ("kind", "this version has no such kind of step"),
        FaultKind::Register => (
            "",
            "a register or a reference breaks its rule, or no earlier step sets the register",
        ),
        FaultKind::Code => ("code", "JSON-RPC reserves the codes from -32768 to -32100"),
        FaultKind::Limit => ("", "a number, a length or a depth is out of its range"),
        FaultKind::Memory => ("", "there was no memory"),
    };
    FieldFault { name, cause }
}

fn field_fault_of(entry: Entry<'_>) -> FieldFault<'_> {
    let found = match entry.table {
        Some(table) => field_fault(entry.fields, table),
        None => None,
    };
    found.unwrap_or(FieldFault {
        name: "",
        cause: "a field is missing, unknown or of a wrong type",
    })
}
