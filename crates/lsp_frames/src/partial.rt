//! What has come of the frame under way, and what a piece adds to it.

ghost use Rattle.std.specs.Prelude.{◌≡◌, ◌==◌, ◌<◌, ◌≤◌, ◌++◌, ◌∷◌, ℕ, List, [], None, false, length, position, take, IfOk, IfSome, IsTrue, OnErr, OnOk};
ghost use Rattle.std.specs.Option.{option_to_list};
ghost use Rattle.lsp_frames.specs.Feeds.{fed_frames};
ghost use Rattle.lsp_frames.specs.Heads.{head_from};
ghost use Rattle.lsp_frames.specs.Frames.{Whole, front};
ghost use Rattle.lsp_frames.specs.Decoding.{end_known};
ghost use Rattle.lsp_frames.specs.Inner.Partials.{Adds, Cuts, Gives, HasKept, IsCutSoFar, IsFront, IsPartial, IsSame, IsShort, IsUnderWay, Takes, TakesAll, first_place, frames_of, known_read, read_at, read_of, read_on};

use crate::fed::Fed;
use crate::field::place_of;
use crate::frame::{End, Frame, FrameFault};
use crate::frames::Frames;
use crate::gathering::Gathering;
use crate::limits::LONGEST_HEAD;
use crate::line::{Fields, Line, line_meaning};
use crate::usual_head::usual_head;
use json_values::Items;
use std::alloc::{AllocError, Global};
use std::mem;

/// How far a head was read.
#[derive(Clone, Copy)]
pub(crate) struct Place {
    /// What its whole lines have said.
    pub(crate) fields: Fields,
    /// It may have so many bytes more.
    pub(crate) room: usize,
}

/// What the bytes that come next belong to.
#[derive(Clone, Copy)]
pub(crate) enum Stage {
    /// A line of a head.
    Head(Place),
    /// A content of so many bytes, foreign or not.
    Content(u32, bool),
    /// Nothing: the stream has this fault.
    Ended(FrameFault),
}

/// What was taken of a piece.
pub(crate) enum Taken<'a> {
    /// All of it.
    All,
    /// Its front, with which a line or a content is whole. What comes next, and the bytes behind.
    Front(Stage, &'a [u8]),
}

/// A line or a content that stands whole in a piece, what comes next, and the bytes behind.
#[derive(Clone, Copy)]
pub(crate) struct Front<'a> {
    pub(crate) whole: &'a [u8],
    pub(crate) next: Stage,
    pub(crate) behind: &'a [u8],
}

/// A line or a content, and the bytes that have come of it.
#[derive(Drop)]
pub(crate) struct Partial {
    pub(crate) stage: Stage,
    pub(crate) held: Vec<u8>,
}

impl Place {
    pub(crate) const FIRST: Place = Place {
        fields: Fields::NONE,
        room: LONGEST_HEAD,
    };

    /// Whether no byte of the head has been read.
    fn is_first(self) -> bool
        ensures { IsTrue result → self ≡ first_place }
    {
        self.room == LONGEST_HEAD && self.fields.content_length.is_none() && !self.fields.foreign
    }

    /// What comes behind a line of a head, given all of it before its LF. The room is that before the LF.
    fn behind_line(self, limit: u32, text: &[u8]) -> Stage
        requires { 0 < self.room }
        ensures read { (more : List ℕ) → read_on limit (read_at result []) more ≡
            head_from limit self.fields text.now self.room (10 ∷ more) }
        ensures under_way { IsUnderWay result [] }
    {
        match line_meaning(limit, self.fields, text) {
            Line::More(fields) => {
                if self.room > 1 {
                    Stage::Head(Place {
                        fields,
                        room: self.room - 1,
                    })
                } else {
                    Stage::Ended(FrameFault::HeadTooLong)
                }
            }
            Line::End(size, foreign) => Stage::Content(size, foreign),
            Line::Fault(fault) => Stage::Ended(fault),
        }
    }
}

impl Stage {
    /// Whether a frame begins here.
    fn is_first(self) -> bool
        ensures { IsTrue result → self ≡ Stage.Head first_place }
    {
        match self {
            Stage::Head(place) => place.is_first(),
            Stage::Content(..) => false,
            Stage::Ended(_) => false,
        }
    }
}

/// Where the first line ends, if it does among the first `room` bytes.
fn line_end(bytes: &[u8], room: usize) -> Option<usize>
    ensures { result ≡ position (λ b. b == 10) (take room bytes.now) }
{
    let within = bytes.len().min(room);
    place_of(b'\n', &bytes[..within])
}

impl Partial {
    /// Nothing of it has come. Takes no memory.
    pub(crate) fn new(alloc: Global, stage: Stage) -> Self
        ensures stage { result.stage ≡ stage }
        ensures held { result.held.items ≡ [] }
    {
        Partial {
            stage,
            held: Vec::new(alloc),
        }
    }

    /// Takes the bytes of the line or the content under way.
    fn take_front<'a>(
        &mut self,
        alloc: Global,
        limit: u32,
        piece: &'a [u8],
    ) -> Result<Taken<'a>, AllocError>
        requires { IsPartial self.old }
        ensures ok { IfOk result (λ taken. Takes limit self.old self.new piece.now taken) }
        ensures err { OnErr result (HasKept self.old self.new) }
    {
        match self.stage {
            Stage::Ended(_) => Ok(Taken::All),
            Stage::Head(place) => self.take_line(alloc, limit, place, piece),
            Stage::Content(size, _) => {
                let missing = size as usize - self.held.len();
                if piece.len() < missing {
                    self.hold(alloc, piece)?;
                    return Ok(Taken::All);
                }
                let (last, behind) = piece.split_at(missing);
                self.held.extend_from_slice(last)?;
                Ok(Taken::Front(Stage::Head(Place::FIRST), behind))
            }
        }
    }

    fn take_line<'a>(
        &mut self,
        alloc: Global,
        limit: u32,
        place: Place,
        piece: &'a [u8],
    ) -> Result<Taken<'a>, AllocError>
        requires stage { self.old.stage ≡ Stage.Head place }
        requires room { 0 < place.room }
        ensures ok { IfOk result (λ taken. Takes limit self.old self.new piece.now taken) }
        ensures err { OnErr result (HasKept self.old self.new) }
    {
        let Place { fields, room } = place;
        match line_end(piece, room) {
            Some(end) => {
                let before_lf = Place {
                    fields,
                    room: room - end,
                };
                let next = self.end_line(limit, before_lf, &piece[..end])?;
                Ok(Taken::Front(next, &piece[end + 1..]))
            }
            None => {
                self.hold(alloc, piece)?;
                Ok(Taken::All)
            }
        }
    }

    /// Takes bytes with which the line or the content under way isn't whole.
    fn hold(&mut self, alloc: Global, bytes: &[u8]) -> Result<(), AllocError>
        requires partial { IsPartial self.old }
        requires short { IsShort self.old.stage self.old.held.items bytes.now }
        ensures ok { (limit : ℕ) → OnOk result (TakesAll limit self.old self.new bytes.now) }
        ensures err { OnErr result (HasKept self.old self.new) }
    {
        if bytes.is_empty() {
            return Ok(());
        }
        match self.stage {
            Stage::Ended(_) => {}
            Stage::Head(place) => {
                if bytes.len() < place.room {
                    self.held.extend_from_slice(bytes)?;
                    self.stage = Stage::Head(Place {
                        fields: place.fields,
                        room: place.room - bytes.len(),
                    });
                } else {
                    *self = Partial::new(alloc, Stage::Ended(FrameFault::HeadTooLong));
                }
            }
            Stage::Content(..) => self.held.extend_from_slice(bytes)?,
        }
        Ok(())
    }

    /// What comes behind the line under way, which ends so. The place is that before the LF.
    fn end_line(&mut self, limit: u32, place: Place, last: &[u8]) -> Result<Stage, AllocError>
        requires { 0 < place.room }
        ensures read { IfOk result (λ next. (more : List ℕ) →
            read_on limit (read_at next []) more ≡
            head_from limit place.fields (self.old.held.items ++ last.now) place.room (10 ∷ more)) }
        ensures under_way { IfOk result (λ next. IsUnderWay next []) }
        ensures kept { HasKept self.old self.new }
    {
        if self.held.is_empty() {
            return Ok(place.behind_line(limit, last));
        }
        self.held.extend_from_slice(last)?;
        Ok(place.behind_line(limit, self.held.as_slice()))
    }

    /// Takes a piece, and adds the frames that it completes. The first of them stands by itself where some of its
    /// content had come, and keeps that memory. Where it fails, some of the piece may stand behind what was held.
    fn take<G: Gathering>(
        &mut self,
        alloc: Global,
        limit: u32,
        frames: &mut G,
        piece: &[u8],
    ) -> Result<Option<Frame>, AllocError>
        requires { IsPartial self.old }
        ensures given { IfOk result (λ first. Adds limit (G.gathered frames.old) (G.gathered frames.new)
            (read_on limit (read_of self.old) piece.now) first (read_of self.new)) }
        ensures partial { OnOk result (IsPartial self.new) }
        ensures err { OnErr result (HasKept self.old self.new) }
    {
        if let Stage::Head(_) = self.stage
            && self.held.is_empty()
        {
            let partial = cut(alloc, limit, self.stage, frames, piece)?;
            *self = partial;
            return Ok(None);
        }
        match self.take_front(alloc, limit, piece)? {
            Taken::All => Ok(None),
            Taken::Front(next, behind) => {
                let partial = cut(alloc, limit, next, frames, behind)?;
                Ok(mem::replace(self, partial).into_frame())
            }
        }
    }

    /// The frame of a content that is whole.
    fn into_frame(self) -> Option<Frame>
        ensures { option_to_list result ≡ frames_of self.stage self.held.items }
    {
        match self.stage {
            Stage::Content(_, foreign) => Some(Frame {
                content: self.held.into(),
                foreign,
            }),
            Stage::Head(_) => None,
            Stage::Ended(_) => None,
        }
    }

    /// Takes a piece, and adds the frames that it completes, as `take` does.
    pub(crate) fn feed<G: Gathering>(
        &mut self,
        alloc: Global,
        limit: u32,
        frames: &mut G,
        piece: &[u8],
    ) -> Result<Option<Frame>, AllocError>
        requires { IsPartial self.old }
        ensures given { IfOk result (λ first. Adds limit (G.gathered frames.old) (G.gathered frames.new)
            (read_on limit (read_of self.old) piece.now) first (read_of self.new)) }
        ensures partial { OnOk result (IsPartial self.new) }
        ensures err { OnErr result (IsSame self.old self.new) }
    {
        let had = self.held.len();
        match self.take(alloc, limit, frames, piece) {
            Ok(first) => Ok(first),
            Err(error) => {
                self.held.truncate(had);
                Err(error)
            }
        }
    }

    /// Takes a piece, and gives the frames that it completes, each in memory of its own.
    pub(crate) fn feed_apart(
        &mut self,
        alloc: Global,
        limit: u32,
        piece: &[u8],
    ) -> Result<Vec<Frame>, AllocError>
        requires { IsPartial self.old }
        ensures given { IfOk result (λ given. Gives limit
            (read_on limit (read_of self.old) piece.now) given.items (read_of self.new)) }
        ensures partial { OnOk result (IsPartial self.new) }
        ensures err { OnErr result (IsSame self.old self.new) }
    {
        let mut frames = Vec::new(alloc);
        // The first frame may come by itself, and is put in once nothing can fail any more.
        frames.push(Frame {
            content: Items::new(alloc),
            foreign: false,
        })?;
        match self.feed(alloc, limit, &mut frames, piece)? {
            Some(first) => frames[0] = first,
            None => drop(frames.remove(0)),
        }
        Ok(frames)
    }

    /// Takes a piece, and gives the frames that it completes, their contents behind one another in this room.
    pub(crate) fn feed_together(
        &mut self,
        alloc: Global,
        limit: u32,
        piece: &[u8],
        room: Frames,
    ) -> Result<Fed, AllocError>
        requires partial { IsPartial self.old }
        requires room { room ≡ [] }
        ensures given { IfOk result (λ given. Gives limit
            (read_on limit (read_of self.old) piece.now) (fed_frames given) (read_of self.new)) }
        ensures partial { OnOk result (IsPartial self.new) }
        ensures err { OnErr result (IsSame self.old self.new) }
    {
        let mut others = room;
        let first = self.feed(alloc, limit, &mut others, piece)?;
        Ok(Fed { first, others })
    }

    /// How the stream ends, if no more bytes come.
    pub(crate) fn end(&self) -> End
        ensures { result ≡ end_known (known_read (read_of self.now)) }
    {
        match self.stage {
            Stage::Head(place) => {
                if place.room == LONGEST_HEAD {
                    End::Clean
                } else {
                    End::Fault(FrameFault::Truncated)
                }
            }
            Stage::Content(..) => End::Fault(FrameFault::Truncated),
            Stage::Ended(fault) => End::Fault(fault),
        }
    }
}

/// The line or the content that begins with the bytes, if it is whole among them.
fn whole_front(limit: u32, stage: Stage, bytes: &[u8]) -> Option<Front<'_>>
    requires { IsUnderWay stage [] }
    ensures some { IfSome result (λ front. IsFront limit stage bytes.now front) }
    ensures none { result ≡ None → IsShort stage [] bytes.now }
{
    match stage {
        Stage::Ended(_) => None,
        Stage::Head(place) => match head_front(limit, place, bytes) {
            Some(front) => Some(front),
            None => line_front(limit, place, bytes),
        },
        Stage::Content(size, _) => {
            if bytes.len() < size as usize {
                return None;
            }
            let (whole, behind) = bytes.split_at(size as usize);
            Some(Front {
                whole,
                next: Stage::Head(Place::FIRST),
                behind,
            })
        }
    }
}

/// The whole head that begins with the bytes, if it is a usual one.
fn head_front(limit: u32, place: Place, bytes: &[u8]) -> Option<Front<'_>>
    ensures { IfSome result (λ front. IsFront limit (Stage.Head place) bytes.now front) }
{
    if !place.is_first() {
        return None;
    }
    let (size, end) = usual_head(limit, bytes)?;
    let (whole, behind) = bytes.split_at(end);
    Some(Front {
        whole,
        next: Stage::Content(size, false),
        behind,
    })
}

/// The line that begins with the bytes, if it is whole among them.
fn line_front(limit: u32, place: Place, bytes: &[u8]) -> Option<Front<'_>>
    requires { 0 < place.room }
    ensures some { IfSome result (λ front. IsFront limit (Stage.Head place) bytes.now front) }
    ensures none { result ≡ None → IsShort (Stage.Head place) [] bytes.now }
{
    let Place { fields, room } = place;
    let end = line_end(bytes, room)?;
    let before_lf = Place {
        fields,
        room: room - end,
    };
    let whole = &bytes[..end];
    Some(Front {
        whole,
        next: before_lf.behind_line(limit, whole),
        behind: &bytes[end + 1..],
    })
}

/// Puts the frame of a whole content behind the others. A line makes none.
fn push_whole<G: Gathering>(
    alloc: Global,
    frames: &mut G,
    stage: Stage,
    whole: &[u8],
) -> Result<(), AllocError>
    ensures { OnOk result (G.gathered frames.new
        ≡ G.gathered frames.old ++ frames_of stage whole.now) }
{
    match stage {
        Stage::Content(_, foreign) => frames.put(alloc, whole, foreign),
        Stage::Head(_) => Ok(()),
        Stage::Ended(_) => Ok(()),
    }
}

/// The content of the frame that begins with the bytes, and the bytes behind it, if its head is a usual one and it is
/// whole among them.
#[inline(always)]
fn usual_frame(limit: u32, bytes: &[u8]) -> Option<(&[u8], &[u8])>
    ensures frame { IfSome result (λ cut. front limit bytes.now
        ≡ Whole (record { content = cut.0.now; foreign = false }) cut.1.now) }
    ensures behind { IfSome result (λ cut. length cut.1.now < length bytes.now) }
{
    let (size, at) = usual_head(limit, bytes)?;
    let rest = &bytes[at..];
    if rest.len() < size as usize {
        return None;
    }
    Some(rest.split_at(size as usize))
}

/// Cuts those frames off the front of the bytes whose heads are usual ones, adds them to `frames`, and gives the bytes
/// behind. Nearly all frames are cut here, in one step; line by line each would take two, with a stage between them.
fn cut_usual<'a, G: Gathering>(
    alloc: Global,
    limit: u32,
    stage: Stage,
    frames: &mut G,
    bytes: &'a [u8],
) -> Result<&'a [u8], AllocError>
    ensures so_far { IfOk result (λ rest. IsCutSoFar limit (G.gathered frames.old) (G.gathered frames.new)
        (read_on limit (read_at stage []) bytes.now) (read_on limit (read_at stage []) rest.now)) }
    ensures behind { IfOk result (λ rest. length rest.now ≤ length bytes.now) }
{
    let mut rest = bytes;
    if !stage.is_first() {
        return Ok(rest);
    }
    while let Some((content, behind)) = usual_frame(limit, rest) {
        frames.put(alloc, content, false)?;
        rest = behind;
    }
    Ok(rest)
}

/// Cuts the frames off the front of the bytes, which begin at this stage, adds them to `frames`, and keeps what is left.
fn cut<G: Gathering>(
    alloc: Global,
    limit: u32,
    first: Stage,
    frames: &mut G,
    bytes: &[u8],
) -> Result<Partial, AllocError>
    requires { IsUnderWay first [] }
    ensures given { IfOk result (λ partial. Cuts limit (G.gathered frames.old) (G.gathered frames.new)
        (read_on limit (read_at first []) bytes.now) (read_of partial)) }
    ensures partial { IfOk result (λ partial. IsPartial partial) }
{
    let mut stage = first;
    let mut rest = cut_usual(alloc, limit, stage, frames, bytes)?;
    while let Some(front) = whole_front(limit, stage, rest) {
        push_whole(alloc, frames, stage, front.whole)?;
        stage = front.next;
        rest = cut_usual(alloc, limit, stage, frames, front.behind)?;
    }
    let mut partial = Partial::new(alloc, stage);
    partial.hold(alloc, rest)?;
    Ok(partial)
}
