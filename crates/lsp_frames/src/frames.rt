//! Frames whose contents stand behind one another in one block of memory.

ghost use Rattle.std.specs.Prelude.{◌≡◌, ◌<◌, ◌++◌, ◌∷◌, [], OnErr, OnOk, drop, is_none, length, option_map, slice_get, slice_index_or};
ghost use Rattle.lsp_frames.specs.declared.frame.Frame.{Frame as OneFrame};
ghost use Rattle.lsp_frames.specs.Gathered.{frame_of_content};

use std::alloc::{AllocError, Global};
use std::collections::VecDeque;
use std::marker::Model;
use std::mem;

/// Room for so many bytes, and for so many contents, is kept where none are left: what is read at once of most streams is
/// less.
const KEPT_BYTES: usize = 4096;

const KEPT_SIZES: usize = 64;

/// The content of a frame, in memory that it shares with others.
#[derive(Clone, Copy, Debug)]
pub struct Content<'a> {
    /// The bytes of its content part, as many as `Content-Length` says.
    pub bytes: &'a [u8],
    /// Whether a line `Content-Type` of its head names another charset than UTF-8.
    pub foreign: bool,
}

/// How many bytes a content has, and whether it is foreign.
#[derive(Clone, Copy)]
struct Size {
    bytes: usize,
    foreign: bool,
}

/// Frames in a row. Each is lent from the front, and then taken.
#[derive(Drop)]
pub struct Frames {
    alloc: Global,
    /// The contents, one behind the other.
    bytes: Vec<u8>,
    /// So many bytes at the front are of frames that were taken.
    passed: usize,
    sizes: VecDeque<Size>,
}

impl Model for Frames {
    ghost use Rattle.std.specs.Prelude.{◌≡◌, ◌+◌, List, drop, length};
    ghost use Rattle.lsp_frames.specs.Gathered.{frames_by, total};
    ghost use Rattle.lsp_frames.specs.declared.frame.Frame.{Frame as OneFrame};

    ghost Value = { List OneFrame };

    ghost view = { λ a. frames_by (drop a.passed a.bytes.items) a.sizes.items };

    ghost invariant = { λ a. a.passed + total a.sizes.items ≡ length a.bytes.items };
}

impl Frames {
    /// None. Takes no memory.
    pub fn new(alloc: Global) -> Frames
        ensures { result ≡ [] }
    {
        Frames {
            alloc,
            bytes: Vec::new(alloc),
            passed: 0,
            sizes: VecDeque::new(alloc),
        }
    }

    pub fn is_empty(&self) -> bool
        ensures { result ≡ is_none (slice_get self.now 0) }
    {
        self.sizes.is_empty()
    }

    /// How many there are.
    pub fn len(&self) -> usize
        ensures { result ≡ length self.now }
    {
        self.sizes.len()
    }

    /// How many bytes a content has.
    pub fn size(&self, index: usize) -> usize
        requires { index < length self.now }
        ensures { (other : OneFrame) →
            result ≡ length (slice_index_or self.now index other).content }
    {
        self.sizes[index].bytes
    }

    /// Puts a frame behind the others.
    pub fn push(&mut self, content: &[u8], foreign: bool) -> Result<(), AllocError>
        ensures ok { OnOk result (self.new ≡ self.old
            ++ record { content = content.now; foreign = foreign } ∷ []) }
        ensures err { OnErr result (self.new ≡ self.old) }
    {
        self.let_go_of_passed()?;
        self.add(content, foreign)
    }

    fn add(&mut self, content: &[u8], foreign: bool) -> Result<(), AllocError>
        ensures ok { OnOk result (self.new ≡ self.old
            ++ record { content = content.now; foreign = foreign } ∷ []) }
        ensures err { OnErr result (self.new ≡ self.old) }
    {
        self.sizes.reserve(1)?;
        self.bytes.extend_from_slice(content)?;
        self.sizes.push_back_reserved(Size {
            bytes: content.len(),
            foreign,
        });
        Ok(())
    }

    /// Gives up the bytes of those that were taken, once they are more than half: else a row that is never empty would
    /// hold all that has passed.
    fn let_go_of_passed(&mut self) -> Result<(), AllocError>
        ensures { self.new ≡ self.old }
    {
        if self.passed > self.bytes.len() / 2 {
            self.bytes = Vec::from_slice(self.alloc, &self.bytes[self.passed..])?;
            self.passed = 0;
        }
        Ok(())
    }

    /// The first frame.
    pub fn front(&self) -> Option<Content<'_>>
        ensures { option_map frame_of_content result ≡ slice_get self.now 0 }
    {
        let size = self.sizes.front()?;
        let rest = &self.bytes[self.passed..];
        Some(Content {
            bytes: &rest[..size.bytes],
            foreign: size.foreign,
        })
    }

    /// Takes the first frame, if there is one. With the last one most of the memory goes.
    pub fn pop(&mut self)
        ensures { self.new ≡ drop 1 self.old }
    {
        match self.sizes.pop_front() {
            Some(size) => self.passed += size.bytes,
            None => {}
        }
        if self.sizes.is_empty() {
            self.begin_anew();
        }
    }

    /// With no frames left: what room there is serves for those to come, where it is small.
    fn begin_anew(&mut self)
        ensures { self.new ≡ [] }
    {
        if self.bytes.capacity() > KEPT_BYTES || self.sizes.capacity() > KEPT_SIZES {
            *self = Frames::new(self.alloc);
        } else {
            self.bytes.clear();
            self.sizes.clear();
            self.passed = 0;
        }
    }

    /// All of them, with their memory; there are none left.
    pub fn take(&mut self) -> Frames
        ensures all { result ≡ self.old }
        ensures none { self.new ≡ [] }
    {
        let none = Frames::new(self.alloc);
        mem::replace(self, none)
    }

    /// Moves those of the other row behind its own. Where it fails, some may have moved.
    pub fn append(&mut self, other: &mut Frames) -> Result<(), AllocError>
        ensures items { self.new ++ other.new ≡ self.old ++ other.old }
        ensures ok { OnOk result (other.new ≡ []) }
    {
        while let Some(content) = other.front() {
            self.push(content.bytes, content.foreign)?;
            other.pop();
        }
        Ok(())
    }
}
