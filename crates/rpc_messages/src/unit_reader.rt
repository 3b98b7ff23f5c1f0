//! From contents to their units.

ghost use Rattle.std.specs.Prelude.{◌≡◌, IfOk, false};
ghost use Rattle.serde_json.specs.Read.{read};
ghost use Rattle.rpc_messages.specs.Outline.{outline};
ghost use Rattle.rpc_messages.specs.Shown.{shown};
ghost use Rattle.rpc_messages.specs.Unit.{unit_seen, unit_of, unit_of_reading};

use crate::read::direct::read_direct;
use crate::read::read_text;
use crate::unit::Unit;
use json::Scratch;
use json_reading::ReadFault;
use json_texts::utf8_text;
use lsp_frames::Frame;
use std::alloc::{AllocError, Global};
use value_reading::Unread;

/// The room that reading takes is kept from one content to the next where the content is at most this long, in bytes.
const KEPT_ROOM: usize = 65_536;

/// Reads one content after another, over the same room.
#[derive(Drop)]
pub struct UnitReader {
    alloc: Global,
    scratch: Option<Box<Scratch>>,
}

impl UnitReader {
    /// A reader that has no room yet.
    pub fn new(alloc: Global) -> UnitReader {
        UnitReader {
            alloc,
            scratch: None,
        }
    }

    /// The unit of a frame's content. Every content has one, so the only error is want of memory, after which others
    /// can be read.
    pub fn read(&mut self, frame: &Frame) -> Result<Unit, AllocError>
        ensures { IfOk result (λ u. unit_seen u ≡ unit_of frame.now.foreign frame.now.content) }
    {
        self.read_frame(frame, true)
    }

    /// The same, except that the params of a call that comes alone may be others, for callers that don't look at them.
    /// Their values are checked and not made, unless the call is a cancel.
    pub fn read_outline(&mut self, frame: &Frame) -> Result<Unit, AllocError>
        ensures { IfOk result (λ u. outline (unit_seen u)
            ≡ outline (unit_of frame.now.foreign frame.now.content)) }
    {
        self.read_frame(frame, false)
    }

    #[tactic(auto, unfolding(crate::specs::Unit::unit_of))]
    fn read_frame(&mut self, frame: &Frame, with_params: bool) -> Result<Unit, AllocError>
        ensures { IfOk result (λ u. shown with_params (unit_seen u)
            ≡ shown with_params (unit_of frame.now.foreign frame.now.content)) }
    {
        if frame.foreign {
            return Ok(Unit::Unreadable);
        }
        self.read_content(frame.content.as_slice(), with_params)
    }

    fn read_content(&mut self, content: &[u8], with_params: bool) -> Result<Unit, AllocError>
        ensures { IfOk result (λ u. shown with_params (unit_seen u)
            ≡ shown with_params (unit_of false content.now)) }
    {
        let Some(text) = utf8_text(content) else {
            return Ok(Unit::Unreadable);
        };
        match read_direct(self.alloc, text, with_params) {
            Ok(unit) => Ok(unit),
            Err(Unread::Unusual) => self.read_tokens(text),
            Err(Unread::Memory) => Err(AllocError),
        }
    }

    fn read_tokens(&mut self, text: &str) -> Result<Unit, AllocError>
        ensures { IfOk result (λ u. unit_seen u ≡ unit_of_reading (read text.now)) }
    {
        let mut scratch = self.take_scratch()?;
        let unit = read_text(self.alloc, text, &mut scratch);
        if text.len() <= KEPT_ROOM {
            self.scratch = Some(scratch);
        } else {
            drop(scratch);
        }
        match unit {
            Ok(unit) => Ok(unit),
            Err(ReadFault::Refused) => Ok(Unit::Unreadable),
            Err(ReadFault::Memory) => Err(AllocError),
        }
    }

    fn take_scratch(&mut self) -> Result<Box<Scratch>, AllocError> {
        match self.scratch.take() {
            Some(scratch) => Ok(scratch),
            None => new_scratch(self.alloc),
        }
    }
}

/// Apart, since it holds the scratch's 16 KiB on the stack.
#[cold]
#[inline(never)]
fn new_scratch(alloc: Global) -> Result<Box<Scratch>, AllocError> {
    Ok(Box::new(alloc, Scratch::new(alloc))?)
}

/// The unit of a frame's content, as a new `UnitReader` reads it.
pub fn read_unit(alloc: Global, frame: &Frame) -> Result<Unit, AllocError>
    ensures { IfOk result (λ u. unit_seen u ≡ unit_of frame.now.foreign frame.now.content) }
{
    UnitReader::new(alloc).read(frame)
}
