//! What contents are read as where the reader itself is called, and where it found no memory.

use crate::rows::{each_act, each_line, is_text};
use json_values::Items;
use lsp_frames::Frame;
use rpc_messages::{Unit, UnitReader, read_unit};
use std::alloc::{AllocError, Global};
use std::test::Fail;

/// Contents, and what `Debug` shows of their units.
const UNITS: &str =
    r#"{"jsonrpc":"2.0","id":"1.1","result":1,"error":null} => Single(Reply { number: 1, turn: 1, reply: Done(1) })
{"jsonrpc":"2.0","id":"1.1","result":null} => Single(Reply { number: 1, turn: 1, reply: Done(null) })
{"jsonrpc":"2.0","id":"1.1","error":null} => Single(Reply { number: 1, turn: 1, reply: Standard(InvalidReply) })
{"jsonrpc":"1.0","id":"1.1","result":1} => Single(Reply { number: 1, turn: 1, reply: Standard(InvalidReply) })
{"jsonrpc":"2.0","id":"1.1","result":[1.5]} => Single(Reply { number: 1, turn: 1, reply: Standard(InvalidReply) })
{"jsonrpc":"2.0","id":5,"result":1} => Single(Stray)
{"method":"x","result":1} => Single(Invalid)
{"jsonrpc":"2.0","method":"$/cancelRequest","params":{"id":null}} => Single(Call(Call { id: None, method: "$/cancelRequest", params: Whole({"id":null}), target: None }))
{"jsonrpc":"2.0","method":"$/cancelRequest","params":{"id":7}} => Single(Call(Call { id: None, method: "$/cancelRequest", params: Whole({"id":7}), target: Some(Unsigned(7)) }))
{"jsonrpc":"2.0","method":"nope","id":1} => Single(Call(Call { id: Some(Unsigned(1)), method: "nope", params: Omitted, target: None }))"#;

fn frame(alloc: Global, content: &str) -> Result<Frame, AllocError> {
    Ok(Frame {
        content: Items::from(content.as_bytes().to_vec(alloc)?),
        foreign: false,
    })
}

/// Whether `Debug` shows so of the unit.
fn is_shown(alloc: Global, unit: Result<Unit, AllocError>, want: &str) -> Result<bool, AllocError> {
    let unit = unit?;
    let shown = format!(in alloc; "{unit:?}");
    drop(unit);
    is_text(shown, want)
}

/// The content of a line, and its unit.
fn parts(line: &str) -> (&str, &str) {
    line.split_once(" => ").unwrap_or((line, ""))
}

fn is_unit(alloc: Global, line: &str) -> Result<bool, AllocError> {
    let (content, want) = parts(line);
    let frame = frame(alloc, content)?;
    let unit = read_unit(alloc, &frame);
    drop(frame);
    is_shown(alloc, unit, want)
}

#[test]
fn contents_are_read_as_their_units(rt: HostRuntime) -> Result<(), Fail> {
    each_line(&rt, rt.alloc(), UNITS, is_unit)
}

/// The same, with so many letters in the places of `@`.
const AGAIN: &[(usize, &str)] = &[
    (
        0,
        r#"{"jsonrpc":"2.0","method":"f","params":{"b":["\n",-1],"a":"x"},"id":"\u0031"} => Single(Call(Call { id: Some(Text("1")), method: "f", params: Whole({"a":"x","b":["\n",-1]}), target: None }))"#,
    ),
    (
        5_000,
        r#"{"jsonrpc": "2.0", "method": "a\/b", "params": [{"\u0063": 1, "d": [[], {}]}, "\n@\"\u0041"]} => Single(Call(Call { id: None, method: "a/b", params: Whole([{"c":1,"d":[[],{}]},"\n@\"A"]), target: None }))"#,
    ),
    (
        70_000,
        r#"{"jsonrpc":"2.0","method":"f","params":["@"]} => Single(Call(Call { id: None, method: "f", params: Whole(["@"]), target: None }))"#,
    ),
    (
        0,
        r#"[{"id":"2.3","jsonrpc":"2.0","result":["y"]},{},1e999] => Unreadable"#,
    ),
    (
        0,
        r#"[{"id":"2.3","jsonrpc":"2.0","result":["y"]},{},1e99] => Batch(Items { items: [Reply { number: 2, turn: 3, reply: Done(["y"]) }, Invalid, Invalid] })"#,
    ),
];

fn is_read(
    alloc: Global,
    reader: &mut UnitReader,
    row: &(usize, &str),
) -> Result<bool, AllocError> {
    let letters = "a".repeat(alloc, row.0)?;
    let line = row.1.replace(alloc, "@", letters.as_str())?;
    let (content, want) = parts(line.as_str());
    let frame = frame(alloc, content)?;
    let unit = reader.read(&frame);
    drop(frame);
    is_shown(alloc, unit, want)
}

fn is_read_at_last(
    alloc: Global,
    reader: &mut UnitReader,
    row: &(usize, &str),
) -> Result<bool, Fail> {
    for _ in 0..4 {
        if let Ok(is_read) = is_read(alloc, reader, row) {
            return Ok(is_read);
        }
    }
    Ok(false)
}

/// A content whose reading found no memory is read by the same reader again. `bin/test` runs this test with each request for
/// memory refused in turn.
#[test]
fn a_content_is_read_again_after_memory(rt: HostRuntime) -> Result<(), Fail> {
    let mut reader = UnitReader::new(rt.alloc());
    let read = each_act(
        &rt,
        rt.alloc(),
        "contents",
        &mut reader,
        AGAIN,
        is_read_at_last,
    );
    drop(reader);
    read
}
