//! What the methods of a table do, drawn. The table was judged, so what stands in it is of the types that it has to be.
use crate::picture::Picture;
use crate::refused_table::text_at;
use program_edge::Shown;
use std::alloc::{AllocError, Global};
use toml::{Table, Value};

/// Draws what a text does that was judged: the opening, where it has steps, and each method; what goes between the two
/// sides, and step by step what the peer does. A judged text that can't be read again has found no memory.
pub fn drawn(alloc: Global, text: &[u8]) -> Result<String, AllocError> {
    let Ok(top) = toml::table_from_slice(alloc, text) else {
        return Err(AllocError);
    };
    let mut picture = Picture::new(alloc);
    let opening = items_at(&top, "opening");
    if !opening.is_empty() {
        picture.text.push('\n')?;
        picture.rests("opening")?;
        draw_steps(alloc, &mut picture, opening, false)?;
    }
    for method in items_at(&top, "method") {
        if let Value::Table(method) = method {
            draw_method(alloc, &mut picture, method)?;
        }
    }
    Ok(picture.text)
}

fn draw_method(alloc: Global, picture: &mut Picture, method: &Table) -> Result<(), AllocError> {
    let steps = items_at(method, "step");
    picture.text.push('\n')?;
    picture.hears(shown_at(alloc, method, "name")?.as_str())?;
    draw_steps(alloc, picture, steps, true)?;
    if runs_past(steps) {
        picture.sends("result", "end: null")?;
    }
    Ok(())
}

/// Draws steps, of which those that end go to who asked, if anybody did.
fn draw_steps(
    alloc: Global,
    picture: &mut Picture,
    steps: &[Value],
    is_asked: bool,
) -> Result<(), AllocError> {
    for (place, step) in steps.iter().enumerate() {
        if let Value::Table(step) = step {
            let kind = text_at(Some(step), "kind").unwrap_or("");
            let number = place.saturating_add(1);
            let note = match kind {
                "skip" => skip_note(alloc, step, number, steps.len())?,
                _ => step_note(alloc, step, kind, number)?,
            };
            match kind {
                "answer" | "fail" if is_asked => {
                    picture.sends(end_label(alloc, step, kind)?.as_str(), note.as_str())?;
                }
                _ => draw_step(alloc, picture, step, kind, note.as_str())?,
            }
        }
    }
    Ok(())
}

/// Draws a step, and the replies that it waits for.
fn draw_step(
    alloc: Global,
    picture: &mut Picture,
    step: &Table,
    kind: &str,
    note: &str,
) -> Result<(), AllocError> {
    match kind {
        "call" | "notify" | "each" => {
            picture.sends(shown_at(alloc, step, "method")?.as_str(), note)?;
        }
        "calls" => draw_list(alloc, picture, items_at(step, "list"), note)?,
        _ => picture.rests(note)?,
    }
    match kind {
        "call" => picture.hears("reply"),
        "calls" | "each" => picture.hears("replies"),
        _ => Ok(()),
    }
}

/// Draws the calls of a batch. The note stands at the first.
fn draw_list(
    alloc: Global,
    picture: &mut Picture,
    calls: &[Value],
    note: &str,
) -> Result<(), AllocError> {
    let mut note = note;
    for call in calls {
        if let Value::Table(call) = call {
            picture.sends(shown_at(alloc, call, "method")?.as_str(), note)?;
            note = "";
        }
    }
    Ok(())
}

/// What a step is: its number, its kind, and the register that it sets.
fn step_note(alloc: Global, step: &Table, kind: &str, number: usize) -> Result<String, AllocError> {
    let register = text_at(Some(step), "to");
    match (register, text_at(Some(step), "on_error")) {
        (Some(to), Some("keep")) => format!(in alloc; "{number} {kind} to {to}, errors too"),
        (Some(to), _) => format!(in alloc; "{number} {kind} to {to}"),
        (None, _) => format!(in alloc; "{number} {kind}"),
    }
}

/// What a skip is: its number, and where it leads.
fn skip_note(alloc: Global, step: &Table, number: usize, len: usize) -> Result<String, AllocError> {
    let next = after_skip(step, number);
    if next > len {
        format!(in alloc; "{number} skip to the end")
    } else {
        format!(in alloc; "{number} skip to {next}")
    }
}

/// The number of the step to which a skip of this number leads.
fn after_skip(step: &Table, number: usize) -> usize {
    let count = match step.get("count") {
        Some(Value::Integer(count)) => usize::try_from(*count).unwrap_or(0),
        _ => 0,
    };
    number.saturating_add(count).saturating_add(1)
}

/// What goes to who asked: a result, or an error by its code.
fn end_label(alloc: Global, step: &Table, kind: &str) -> Result<String, AllocError> {
    match (kind, step.get("code")) {
        ("fail", Some(Value::Integer(code))) => format!(in alloc; "error {code}"),
        _ => format!(in alloc; "result"),
    }
}

/// Whether a method may run past its last step: that one ends nothing, or a skip leads behind it.
fn runs_past(steps: &[Value]) -> bool {
    let mut is_past = true;
    let mut is_skipped = false;
    for (place, step) in steps.iter().enumerate() {
        if let Value::Table(step) = step {
            let kind = text_at(Some(step), "kind");
            is_past = !matches!(kind, Some("answer" | "fail"));
            let next = after_skip(step, place.saturating_add(1));
            is_skipped = is_skipped || (kind == Some("skip") && next > steps.len());
        }
    }
    is_past || is_skipped
}

/// The items of the list of that name, where there is one.
fn items_at<'a>(table: &'a Table, name: &str) -> &'a [Value] {
    match table.get(name) {
        Some(Value::Array(items)) => items.as_slice(),
        _ => &[],
    }
}

/// The text of that name, with its control characters escaped.
fn shown_at(alloc: Global, table: &Table, name: &str) -> Result<String, AllocError> {
    let text = text_at(Some(table), name).unwrap_or("");
    Shown { text }.to_string(alloc)
}
