//! A content is read as far as the session looks at it.

ghost use Rattle.std.specs.Prelude.{◌≡◌, IfOk};
ghost use Rattle.rpc_messages.specs.Unit.{unit_of, unit_seen};
ghost use Rattle.peer_session.specs.Inner.Reading.{IsTakenAs, has_method};

use lsp_frames::Frame;
use method_steps::Table;
use rpc_messages::{Entry, Unit, UnitReader};
use std::alloc::AllocError;

/// From so many bytes on a content is first read without the params of its call. Most long ones are for methods that
/// the table doesn't have, and are answered whatever their params. A second look costs a short one more than it saves.
const LONG: usize = 4_096;

/// In so many first bytes the method is looked for, which most senders write before the params.
const FIRST: usize = 256;

/// The unit of a content, or one that the session takes as that one: the params of a call whose method isn't in the
/// table may be others.
pub(crate) fn read_unit(
    reader: &mut UnitReader,
    table: &Table,
    frame: &Frame,
) -> Result<Unit, AllocError>
    ensures { IfOk result (λ u. IsTakenAs table.now (unit_seen u)
        (unit_of frame.now.foreign frame.now.content)) }
{
    let content = frame.content.as_slice();
    if content.len() < LONG || seems_known(table, content) {
        return reader.read(frame);
    }
    let unit = reader.read_outline(frame)?;
    if !has_method(table, &unit) {
        return Ok(unit);
    }
    drop(unit);
    reader.read(frame)
}

/// Whether a content seems to be for a method that the table has. It is a guess: where it is wrong, the content is read
/// twice, or params are made that nobody looks at.
fn seems_known(table: &Table, content: &[u8]) -> bool {
    match first_method(content) {
        Some(method) => table.find(method).is_some(),
        None => false,
    }
}

/// The string behind the first `"method"`, whatever it is there.
fn first_method(content: &[u8]) -> Option<&str> {
    let first = str::from_utf8(&content[..content.len().min(FIRST)]).ok()?;
    let (_, rest) = first.split_once("\"method\"")?;
    let (_, rest) = rest.split_once('"')?;
    let (method, _) = rest.split_once('"')?;
    Some(method)
}

/// Whether it is a call that came alone, of a method that the table has.
fn has_method(table: &Table, unit: &Unit) -> bool
    ensures { result ≡ has_method table.now (unit_seen unit.now) }
{
    match unit {
        Unit::Single(Entry::Call(call)) => table.find(call.method.as_str()).is_some(),
        _ => false,
    }
}
