//! What no clause says of a peer on one thread: that its calls succeed, after want of memory and with sinks that fail.

mod devices;
mod drains;
mod memory;

use json_values::Items;
use lsp_frames::{Frame, put_frame};
use method_steps::Table;
use peer_session::Limits;
use std::alloc::{AllocError, Global};
use std::process::Abort;
use std::test::Fail;

/// The methods of most tests.
pub(crate) const METHODS: &str = r#"version = 1
method = [
  { name = "m" },
  { name = "add", step = [{ kind = "add", to = "s", left = "$params/0", right = "$params/1" }, { kind = "answer", value = "$s" }] },
  { name = "ask", step = [{ kind = "call", to = "r", method = "confirm", params = ["$params/0"] }, { kind = "answer", value = "$r" }] },
  { name = "two", step = [{ kind = "calls", to = "r", list = [{ method = "a" }, { method = "b" }] }, { kind = "answer", value = "$r" }] },
  { name = "keep", step = [{ kind = "call", to = "r", method = "confirm", on_error = "keep" }, { kind = "answer", value = "$r" }] },
]
"#;

pub(crate) fn table(alloc: Global, text: &str) -> Result<Table, Fail> {
    Ok(Table::read(alloc, text.as_bytes()).ok().ok_or("no table")?)
}

/// The frames of the contents on those lines that begin with this mark.
fn framed(alloc: Global, lines: &str, mark: &str) -> Result<Vec<u8>, AllocError> {
    let mut bytes = Vec::new(alloc);
    for line in lines.lines() {
        if let Some(content) = line.strip_prefix(mark) {
            put_frame(&mut bytes, content.as_bytes())?;
        }
    }
    Ok(bytes)
}

/// A content as it comes in.
fn frame(alloc: Global, content: &str) -> Result<Frame, AllocError> {
    Ok(Frame {
        content: Items::from(content.as_bytes().to_vec(alloc)?),
        foreign: false,
    })
}

#[test]
fn limits_are_at_most_the_standard_ones(rt: HostRuntime) {
    assert!(rt; Limits::new(16_777_217, 2).is_none());
    assert!(rt; Limits::new(16_777_216, 1_000_001).is_none());
    assert!(rt; Limits::new(16_777_216, 1_000_000) == Some(Limits::standard()));
}
