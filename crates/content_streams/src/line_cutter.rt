//! Lines.

ghost use Rattle.std.specs.Prelude.{◌≡◌, ◌+◌, ◌++◌, ◌∷◌, [], ℕ, List, true, false, if◌then◌else◌, OnOk, OnErr, IfOk, map, position};
ghost use Rattle.std.specs.Option.{option_to_list};
ghost use Rattle.lsp_frames.specs.Feeds.{fed_frames};
ghost use Rattle.content_streams.specs.Lines.{is_lf, ends_in_cr, without_cr, is_blank, fits, line_contents, line_place, ended_lines};
ghost use Rattle.content_streams.specs.Streams.{capped, plain};
ghost use Rattle.content_streams.specs.Inner.Cutting.{Within, Over, IsWithin, ended_contents, ended_places, places_from, grown, last_contents, text_standing, line_fault};
ghost use Rattle.content_streams.specs.Inner.Cutters.{LinesStartAt};
ghost use Rattle.content_streams.specs.Inner.Rows.{BeginsWith};

use crate::line_feed::place_of_lf;
use lsp_frames::{Fed, Frame, Frames};
use std::alloc::{AllocError, Global};
use std::collections::VecDeque;
use std::marker::Model;
use std::mem;

/// Cuts a stream into lines, in whatever pieces it comes. It holds the unfinished line and no other bytes.
#[derive(Drop)]
pub(crate) struct LineCutter {
    alloc: Global,
    limit: u32,
    /// A line was too long.
    is_over: bool,
    line: Vec<u8>,
    /// The offset of the line under way, or of the one that was too long, up to u64's greatest value.
    start: u64,
}

impl Model for LineCutter {
    ghost use Rattle.std.specs.Prelude.{◌≤◌, length};
    ghost use Rattle.content_streams.specs.Lines.{without_cr};
    ghost use Rattle.content_streams.specs.Inner.Cutting.{LineCutting, standing_at};

    ghost Value = { LineCutting };

    ghost view = { λ a. record {
      limit = a.limit;
      standing = standing_at a.is_over a.line.items;
      start = a.start;
    } };

    ghost invariant = { λ a. length (without_cr a.line.items) ≤ a.limit };
}

impl LineCutter {
    /// At a line's start.
    pub(crate) fn new(alloc: Global, limit: u32, start: u64) -> LineCutter
        ensures { result ≡ record { limit = limit; standing = Within []; start = start } }
    {
        LineCutter {
            alloc,
            limit,
            is_over: false,
            line: Vec::new(alloc),
            start,
        }
    }

    /// In a line that is too long.
    fn over(alloc: Global, limit: u32, start: u64) -> LineCutter
        ensures { result ≡ record { limit = limit; standing = Over; start = start } }
    {
        LineCutter {
            alloc,
            limit,
            is_over: true,
            line: Vec::new(alloc),
            start,
        }
    }

    /// Whether a line was too long.
    pub(crate) fn is_over(&self) -> bool
        ensures over { result ≡ true → self.now.standing ≡ Over }
        ensures within { result ≡ false → IsWithin self.now.standing }
    {
        self.is_over
    }

    /// Where the line under way begins, or the one that was too long.
    pub(crate) fn start(&self) -> u64
        ensures { result ≡ self.now.start }
    {
        self.start
    }

    /// The contents of the lines that this piece ends, and at the end of `places` where they begin.
    pub(crate) fn feed(
        &mut self,
        piece: &[u8],
        places: &mut VecDeque<u64>,
        room: Frames,
    ) -> Result<Fed, AllocError>
        requires within { IsWithin self.old.standing }
        requires room { room ≡ [] }
        ensures limit { self.new.limit ≡ self.old.limit }
        ensures given { IfOk result (λ given. (bytes : List ℕ) →
            self.old.standing ≡ text_standing self.old.limit bytes →
            ended_contents self.old.limit (bytes ++ piece.now)
            ≡ ended_contents self.old.limit bytes ++ fed_frames given) }
        ensures places { OnOk result ((bytes passed : List ℕ) →
            self.old.standing ≡ text_standing self.old.limit bytes → LinesStartAt self.old bytes →
            ended_places self.old.limit bytes ≡ passed ++ places.old.items →
            ended_places self.old.limit (bytes ++ piece.now) ≡ passed ++ places.new.items) }
        ensures left { OnOk result ((bytes : List ℕ) →
            self.old.standing ≡ text_standing self.old.limit bytes →
            self.new.standing ≡ text_standing self.old.limit (bytes ++ piece.now)) }
        ensures start { OnOk result ((bytes : List ℕ) →
            self.old.standing ≡ text_standing self.old.limit bytes → LinesStartAt self.old bytes →
            LinesStartAt self.new (bytes ++ piece.now)) }
        ensures err { OnErr result (self.new ≡ self.old) }
        ensures err_places { OnErr result (places.new.items ≡ places.old.items) }
    {
        let had = places.len();
        match self.take(piece, places, room) {
            Ok(contents) => Ok(contents),
            Err(error) => {
                places.truncate(had);
                Err(error)
            }
        }
    }

    /// The same, but where it fails, some places may stand behind those that there were.
    fn take(
        &mut self,
        piece: &[u8],
        places: &mut VecDeque<u64>,
        room: Frames,
    ) -> Result<Fed, AllocError>
        requires within { IsWithin self.old.standing }
        requires room { room ≡ [] }
        ensures limit { self.new.limit ≡ self.old.limit }
        ensures given { IfOk result (λ given. (bytes : List ℕ) →
            self.old.standing ≡ text_standing self.old.limit bytes →
            ended_contents self.old.limit (bytes ++ piece.now)
            ≡ ended_contents self.old.limit bytes ++ fed_frames given) }
        ensures places { OnOk result ((bytes passed : List ℕ) →
            self.old.standing ≡ text_standing self.old.limit bytes → LinesStartAt self.old bytes →
            ended_places self.old.limit bytes ≡ passed ++ places.old.items →
            ended_places self.old.limit (bytes ++ piece.now) ≡ passed ++ places.new.items) }
        ensures left { OnOk result ((bytes : List ℕ) →
            self.old.standing ≡ text_standing self.old.limit bytes →
            self.new.standing ≡ text_standing self.old.limit (bytes ++ piece.now)) }
        ensures start { OnOk result ((bytes : List ℕ) →
            self.old.standing ≡ text_standing self.old.limit bytes → LinesStartAt self.old bytes →
            LinesStartAt self.new (bytes ++ piece.now)) }
        ensures err { OnErr result (self.new ≡ self.old) }
        ensures kept { OnErr result (BeginsWith places.old.items places.new.items) }
    {
        let mut others = room;
        let Some(end) = place_of_lf(piece) else {
            self.hold(piece)?;
            return Ok(Fed {
                first: None,
                others,
            });
        };
        let (last, behind) = (&piece[..end], &piece[end + 1..]);
        if !fits_with(self.line.as_slice(), last, self.limit) {
            *self = LineCutter::over(self.alloc, self.limit, self.start);
            return Ok(Fed {
                first: None,
                others,
            });
        }
        let had = places.len();
        places.push_back(self.start)?;
        let start = behind_line(self.start, self.line.len(), end);
        let next = cut(self.alloc, self.limit, start, &mut others, places, behind)?;
        self.line.extend_from_slice(last)?;
        let whole = mem::replace(self, next);
        let first = whole.into_content();
        if first.is_none() {
            places.remove(had);
        }
        Ok(Fed { first, others })
    }

    /// Takes bytes of the same line.
    fn hold(&mut self, bytes: &[u8]) -> Result<(), AllocError>
        requires { IsWithin self.old.standing }
        ensures ok { OnOk result ((line : List ℕ) → self.old.standing ≡ Within line →
            self.new ≡ record self.old { standing = grown self.old.limit (line ++ bytes.now) }) }
        ensures err { OnErr result (self.new ≡ self.old) }
    {
        if fits_with(self.line.as_slice(), bytes, self.limit) {
            self.line.extend_from_slice(bytes)?;
        } else {
            *self = LineCutter::over(self.alloc, self.limit, self.start);
        }
        Ok(())
    }

    /// The content of the unfinished line, unless it is blank.
    pub(crate) fn take_last(&mut self) -> Option<Frame>
        ensures limit { self.new.limit ≡ self.old.limit }
        ensures fault { line_fault self.new.standing ≡ line_fault self.old.standing }
        ensures start { self.new.start ≡ self.old.start }
        ensures content { option_to_list result ≡
            last_contents self.old.limit self.old.standing }
    {
        if self.is_over {
            return None;
        }
        let next = LineCutter::new(self.alloc, self.limit, self.start);
        mem::replace(self, next).into_content()
    }

    /// The content of the line, unless it is blank.
    fn into_content(self) -> Option<Frame>
        requires { IsWithin self.standing }
        ensures { option_to_list result ≡ last_contents self.limit self.standing }
    {
        let LineCutter { mut line, .. } = self;
        let size = without_cr(line.as_slice()).len();
        line.truncate(size);
        if is_blank(line.as_slice()) {
            return None;
        }
        Some(Frame {
            content: line.into(),
            foreign: false,
        })
    }
}

/// Cuts the lines off the front of the bytes, adds their contents and places to the others, and keeps what is left.
fn cut(
    alloc: Global,
    limit: u32,
    first: u64,
    contents: &mut Frames,
    places: &mut VecDeque<u64>,
    bytes: &[u8],
) -> Result<LineCutter, AllocError>
    ensures given { OnOk result (contents.new ≡
        contents.old ++ ended_contents limit bytes.now) }
    ensures places { OnOk result ((start : ℕ) → first ≡ capped start →
        places.new.items ≡ places.old.items ++ places_from limit start (ended_lines bytes.now)) }
    ensures left { IfOk result (λ left. (start : ℕ) → first ≡ capped start → left ≡ record {
      limit = limit;
      standing = text_standing limit bytes.now;
      start = capped (line_place limit start (ended_lines bytes.now));
    }) }
    ensures kept { BeginsWith places.old.items places.new.items }
{
    let mut start = first;
    let mut rest = bytes;
    while let Some(end) = place_of_lf(rest) {
        let line = &rest[..end];
        if !fits_with(&[], line, limit) {
            return Ok(LineCutter::over(alloc, limit, start));
        }
        push_content(contents, places, start, without_cr(line))?;
        start = behind_line(start, 0, end);
        rest = &rest[end + 1..];
    }
    let mut left = LineCutter::new(alloc, limit, start);
    left.hold(rest)?;
    Ok(left)
}

/// The offset behind a line's LF, where so many bytes of it had come, and so many came.
fn behind_line(start: u64, had: usize, more: usize) -> u64
    ensures { result ≡ capped (start + (had + more) + 1) }
{
    start
        .saturating_add(had as u64)
        .saturating_add(more as u64)
        .saturating_add(1)
}

/// Puts a content and its place behind the others, unless it is blank.
fn push_content(
    contents: &mut Frames,
    places: &mut VecDeque<u64>,
    place: u64,
    content: &[u8],
) -> Result<(), AllocError>
    ensures content { OnOk result (contents.new ≡
        contents.old ++ (if is_blank content.now then [] else plain content.now ∷ [])) }
    ensures place { OnOk result (places.new.items ≡
        places.old.items ++ (if is_blank content.now then [] else place ∷ [])) }
    ensures kept { BeginsWith places.old.items places.new.items }
{
    if is_blank(content) {
        return Ok(());
    }
    contents.push(content, false)?;
    places.push_back(place)?;
    Ok(())
}

fn ends_in_cr(line: &[u8]) -> bool
    ensures { result ≡ ends_in_cr line.now }
{
    line.last() == Some(&b'\r')
}

/// The line without one CR at its end.
fn without_cr(line: &[u8]) -> &[u8]
    ensures { result.now ≡ without_cr line.now }
{
    if ends_in_cr(line) {
        &line[..line.len() - 1]
    } else {
        line
    }
}

/// Whether there is nothing but spaces and tabs.
fn is_blank(content: &[u8]) -> bool
    ensures { result ≡ is_blank content.now }
{
    content.iter().all(|b| *b == b' ' || *b == b'\t')
}

/// Whether a line that isn't too long still isn't with these bytes behind it.
fn fits_with(line: &[u8], more: &[u8], limit: u32) -> bool
    requires { fits limit (without_cr line.now) ≡ true }
    ensures { result ≡ fits limit (without_cr (line.now ++ more.now)) }
{
    more.is_empty() || line.len() + more.len() - ends_in_cr(more) as usize <= limit as usize
}
