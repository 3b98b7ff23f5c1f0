//! Whole lines.

ghost use Rattle.std.specs.Prelude.{◌≡◌, ◌+◌, ◌≤◌, ◌++◌, ◌∷◌, [], ℕ, List, length, true, false, if◌then◌else◌, OnOk, OnErr, IfOk, position};
ghost use Rattle.std.specs.Option.{option_to_list};
ghost use Rattle.lsp_frames.specs.Contents.{Open, Broken, end_of};
ghost use Rattle.lsp_frames.specs.declared.frame.Frame.{Frame};
ghost use Rattle.lsp_frames.specs.declared.frame.FrameFault.TheVariants.{TooLarge};
ghost use Rattle.content_streams.specs.Lines.{is_lf, fits};
ghost use Rattle.content_streams.specs.Streams.{plain};
ghost use Rattle.stream_framing.specs.Lines.{HoldsLines, is_empty};
ghost use Rattle.stream_framing.specs.Inner.Cutting.{IsWithin, ended_contents, grown, line_content, text_standing};

use json_values::Items;
use lsp_frames::{End, Frame, FrameFault};
use std::alloc::{AllocError, Global};
use std::marker::Model;
use std::mem;

/// Cuts a stream into whole lines, in whatever pieces it comes. It holds the line under way and no other bytes.
#[derive(Drop)]
pub struct LineCutter {
    alloc: Global,
    limit: u32,
    /// A line was too long.
    is_over: bool,
    line: Vec<u8>,
}

impl Model for LineCutter {
    ghost use Rattle.std.specs.Prelude.{◌≤◌, length};
    ghost use Rattle.stream_framing.specs.Inner.Cutting.{LineCutting, standing_at};

    ghost Value = { LineCutting };

    ghost view = { λ a. record {
      limit = a.limit;
      standing = standing_at a.is_over a.line.items;
    } };

    ghost invariant = { λ a. length a.line.items ≤ a.limit };
}

impl LineCutter {
    /// At a line's start. Takes no memory.
    pub fn new(alloc: Global, limit: u32) -> LineCutter
        ensures { result ≡ record { limit = limit; standing = Open [] } }
    {
        LineCutter {
            alloc,
            limit,
            is_over: false,
            line: Vec::new(alloc),
        }
    }

    /// In a line that is too long.
    fn over(alloc: Global, limit: u32) -> LineCutter
        ensures { result ≡ record { limit = limit; standing = Broken TooLarge } }
    {
        LineCutter {
            alloc,
            limit,
            is_over: true,
            line: Vec::new(alloc),
        }
    }

    /// Whether a line was too long.
    pub fn is_over(&self) -> bool
        ensures over { result ≡ true → self.now.standing ≡ Broken TooLarge }
        ensures within { result ≡ false → IsWithin self.now.standing }
    {
        self.is_over
    }

    /// How the stream ends, if no more bytes come: inside a line that has a byte it is truncated.
    pub fn end(&self) -> End
        ensures { result ≡ end_of self.now.standing }
    {
        if self.is_over {
            End::Fault(FrameFault::TooLarge)
        } else if self.line.is_empty() {
            End::Clean
        } else {
            End::Fault(FrameFault::Truncated)
        }
    }

    /// The contents of the lines that this piece ends. Behind a line that is too long there are none.
    pub fn feed(&mut self, piece: &[u8]) -> Result<Vec<Frame>, AllocError>
        ensures limit { self.new.limit ≡ self.old.limit }
        ensures holds { IfOk result (λ given. (bytes : List ℕ) (frames : List Frame) →
            HoldsLines self.old.limit bytes frames self.old.standing →
            HoldsLines self.old.limit (bytes ++ piece.now) (frames ++ given.items)
            self.new.standing) }
        ensures err { OnErr result (self.new ≡ self.old) }
    {
        if self.is_over {
            return Ok(Vec::new(self.alloc));
        }
        self.take(piece)
    }

    /// The same, where no line is too long yet.
    fn take(&mut self, piece: &[u8]) -> Result<Vec<Frame>, AllocError>
        requires { IsWithin self.old.standing }
        ensures limit { self.new.limit ≡ self.old.limit }
        ensures given { IfOk result (λ given. (bytes : List ℕ) →
            self.old.standing ≡ text_standing self.old.limit bytes →
            ended_contents self.old.limit (bytes ++ piece.now)
            ≡ ended_contents self.old.limit bytes ++ given.items) }
        ensures left { OnOk result ((bytes : List ℕ) →
            self.old.standing ≡ text_standing self.old.limit bytes →
            self.new.standing ≡ text_standing self.old.limit (bytes ++ piece.now)) }
        ensures err { OnErr result (self.new ≡ self.old) }
    {
        let mut contents = Vec::new(self.alloc);
        let Some(end) = place_of_lf(piece) else {
            self.hold(piece)?;
            return Ok(contents);
        };
        let (last, behind) = (&piece[..end], &piece[end + 1..]);
        if !fits_with(self.line.as_slice(), last, self.limit) {
            *self = LineCutter::over(self.alloc, self.limit);
            return Ok(contents);
        }
        // The first line's content is put in once nothing can fail any more.
        contents.push(Frame {
            content: Items::new(self.alloc),
            foreign: false,
        })?;
        let next = cut(self.alloc, self.limit, &mut contents, behind)?;
        self.line.extend_from_slice(last)?;
        let whole = mem::replace(self, next);
        match whole.into_content() {
            Some(content) => contents[0] = content,
            None => drop(contents.remove(0)),
        }
        Ok(contents)
    }

    /// Takes bytes of the same line.
    fn hold(&mut self, bytes: &[u8]) -> Result<(), AllocError>
        requires { IsWithin self.old.standing }
        ensures ok { OnOk result ((line : List ℕ) → self.old.standing ≡ Open line →
            self.new ≡ record self.old { standing = grown self.old.limit (line ++ bytes.now) }) }
        ensures err { OnErr result (self.new ≡ self.old) }
    {
        if fits_with(self.line.as_slice(), bytes, self.limit) {
            self.line.extend_from_slice(bytes)?;
        } else {
            *self = LineCutter::over(self.alloc, self.limit);
        }
        Ok(())
    }

    /// The content of the line, unless it is empty.
    fn into_content(self) -> Option<Frame>
        requires { IsWithin self.standing }
        ensures { (line : List ℕ) → self.standing ≡ Open line →
            option_to_list result ≡ (if is_empty line then [] else plain line ∷ []) }
    {
        let LineCutter { line, .. } = self;
        if line.is_empty() {
            return None;
        }
        Some(Frame {
            content: line.into(),
            foreign: false,
        })
    }
}

/// Cuts the lines off the front of the bytes, adds their contents to the others, and keeps what is left.
fn cut(
    alloc: Global,
    limit: u32,
    contents: &mut Vec<Frame>,
    bytes: &[u8],
) -> Result<LineCutter, AllocError>
    ensures given { OnOk result (contents.new.items ≡
        contents.old.items ++ ended_contents limit bytes.now) }
    ensures left { IfOk result (λ left. left ≡ record {
      limit = limit;
      standing = text_standing limit bytes.now;
    }) }
{
    let mut rest = bytes;
    while let Some(end) = place_of_lf(rest) {
        let line = &rest[..end];
        if !fits_with(&[], line, limit) {
            return Ok(LineCutter::over(alloc, limit));
        }
        push_content(alloc, contents, line)?;
        rest = &rest[end + 1..];
    }
    let mut left = LineCutter::new(alloc, limit);
    left.hold(rest)?;
    Ok(left)
}

/// Puts a content behind the others, unless it is empty.
fn push_content(alloc: Global, contents: &mut Vec<Frame>, content: &[u8]) -> Result<(), AllocError>
    ensures { OnOk result (contents.new.items ≡
        contents.old.items ++ (if is_empty content.now then [] else plain content.now ∷ [])) }
{
    if content.is_empty() {
        return Ok(());
    }
    let content = Vec::from_slice(alloc, content)?.into();
    contents.push(Frame {
        content,
        foreign: false,
    })?;
    Ok(())
}

fn place_of_lf(bytes: &[u8]) -> Option<usize>
    ensures { result ≡ position is_lf bytes.now }
{
    bytes.iter().position(|b| *b == b'\n')
}

/// Whether a line that isn't too long still isn't with these bytes behind it.
fn fits_with(line: &[u8], more: &[u8], limit: u32) -> bool
    requires { length line.now ≤ limit }
    ensures { result ≡ fits limit (line.now ++ more.now) }
{
    line.len() + more.len() <= limit as usize
}
