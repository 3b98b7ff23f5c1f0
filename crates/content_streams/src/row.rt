//! Contents that wait until they are taken.

ghost use Rattle.std.specs.Prelude.{◌≡◌, ◌++◌, ◌∷◌, [], List, Some, None, IfOk, OnOk, drop, slice_get, option_map};
ghost use Rattle.lsp_frames.specs.Feeds.{fed_frames};
ghost use Rattle.lsp_frames.specs.Gathered.{frame_of_content};
ghost use Rattle.content_streams.specs.Inner.Rows.{row_items};

use lsp_frames::{Content, Fed, Frame, Frames};
use std::alloc::{AllocError, Global};
use std::mem;

/// Contents in a row. Those that were added last stand by themselves, so that to add some takes no memory.
#[derive(Drop)]
pub(crate) struct Row {
    pub(crate) waiting: Frames,
    pub(crate) added: Fed,
    pub(crate) last: Option<Frame>,
}

impl Row {
    pub(crate) fn new(alloc: Global) -> Row
        ensures items { row_items result ≡ [] }
        ensures last { result.last ≡ None }
    {
        Row {
            waiting: Frames::new(alloc),
            added: Fed {
                first: None,
                others: Frames::new(alloc),
            },
            last: None,
        }
    }

    /// Moves what was added last to the others, and gives the room for what comes.
    pub(crate) fn make_room(&mut self) -> Result<Frames, AllocError>
        ensures items { row_items self.new ≡ row_items self.old }
        ensures last { self.new.last ≡ self.old.last }
        ensures added { OnOk result (fed_frames self.new.added ≡ []) }
        ensures room { IfOk result (λ room. room ≡ []) }
    {
        self.move_added()?;
        if self.waiting.is_empty() {
            return Ok(self.waiting.take());
        }
        Ok(self.added.others.take())
    }

    /// Moves what was added last to the others. Where none of those wait, as is usual, no content is copied.
    fn move_added(&mut self) -> Result<(), AllocError>
        ensures items { row_items self.new ≡ row_items self.old }
        ensures last { self.new.last ≡ self.old.last }
        ensures room { OnOk result (fed_frames self.new.added ≡ []) }
    {
        if self.waiting.is_empty() && self.added.first.is_none() {
            mem::swap(&mut self.waiting, &mut self.added.others);
            return Ok(());
        }
        self.move_first()?;
        self.waiting.append(&mut self.added.others)
    }

    /// Moves the first that was added to the others, where it stands by itself.
    fn move_first(&mut self) -> Result<(), AllocError>
        ensures items { row_items self.new ≡ row_items self.old }
        ensures last { self.new.last ≡ self.old.last }
        ensures first { OnOk result (self.new.added.first ≡ None) }
    {
        if let Some(frame) = &self.added.first {
            self.waiting.push(frame.content.as_slice(), frame.foreign)?;
            self.added.first = None;
        }
        Ok(())
    }

    /// Adds contents, where there is room.
    pub(crate) fn add(&mut self, contents: Fed)
        requires room { fed_frames self.old.added ≡ [] }
        requires last { self.old.last ≡ None }
        ensures items { row_items self.new ≡ row_items self.old ++ fed_frames contents }
        ensures last { self.new.last ≡ None }
    {
        self.added = contents;
    }

    /// Adds the last content.
    pub(crate) fn add_last(&mut self, content: Frame)
        requires { self.old.last ≡ None }
        ensures { row_items self.new ≡ row_items self.old ++ content ∷ [] }
    {
        self.last = Some(content);
    }

    pub(crate) fn front(&self) -> Option<Content<'_>>
        ensures { option_map frame_of_content result ≡ slice_get (row_items self.now) 0 }
    {
        if let Some(content) = self.waiting.front() {
            return Some(content);
        }
        if let Some(frame) = &self.added.first {
            return Some(content_of(frame));
        }
        if let Some(content) = self.added.others.front() {
            return Some(content);
        }
        match &self.last {
            Some(frame) => Some(content_of(frame)),
            None => None,
        }
    }

    /// Takes the first content, if there is one.
    pub(crate) fn pop(&mut self)
        ensures items { row_items self.new ≡ drop 1 (row_items self.old) }
        ensures last { self.old.last ≡ None → self.new.last ≡ None }
    {
        if !self.waiting.is_empty() {
            self.waiting.pop();
        } else if self.added.first.is_some() {
            self.added.first = None;
        } else if !self.added.others.is_empty() {
            self.added.others.pop();
        } else {
            self.last = None;
        }
    }
}

fn content_of(frame: &Frame) -> Content<'_>
    ensures { frame_of_content result ≡ frame.now }
{
    Content {
        bytes: frame.content.as_slice(),
        foreign: frame.foreign,
    }
}
