//! Where the contents of frames begin, which a decoder doesn't tell.

ghost use Rattle.std.specs.Prelude.{◌≡◌, ◌≤◌, ◌+◌, ◌++◌, length, map};
ghost use Rattle.std.specs.VecDeque.{deque_len, deque_capacity};
ghost use Rattle.lsp_frames.specs.Feeds.{fed_frames};
ghost use Rattle.content_streams.specs.Inner.Heads.{SmallFrames, at_start, behind_content, content_place, followed, head_bytes, stage_after, with_bytes};

use crate::line_feed::place_of_lf;
use crate::usual_head::usual_head;
use lsp_frames::{Fed, Frames};
use std::collections::VecDeque;

/// What has come last of the head of the frame under way.
#[derive(Clone, Copy)]
pub(crate) enum HeadStage {
    /// A line's end, or nothing.
    LineStart,
    /// A CR at a line's start.
    Cr,
    /// Other bytes of a line.
    Line,
    /// The empty line, which ends it.
    Whole,
}

impl HeadStage {
    fn after(self, b: u8) -> HeadStage
        ensures { result ≡ stage_after self b }
    {
        match self {
            HeadStage::LineStart => match b {
                b'\n' => HeadStage::LineStart,
                b'\r' => HeadStage::Cr,
                _ => HeadStage::Line,
            },
            HeadStage::Cr => match b {
                b'\n' => HeadStage::Whole,
                _ => HeadStage::Line,
            },
            HeadStage::Line => match b {
                b'\n' => HeadStage::LineStart,
                _ => HeadStage::Line,
            },
            HeadStage::Whole => HeadStage::Whole,
        }
    }
}

/// The frame under way. Offsets are counted from the first byte that was fed, up to u64's greatest value.
#[derive(Clone, Copy)]
pub(crate) struct UnderWay {
    /// The offset of its first byte.
    pub(crate) start: u64,
    /// The offset behind those bytes of its head that have come.
    pub(crate) head_end: u64,
    pub(crate) stage: HeadStage,
    /// So many bytes of its content have come.
    pub(crate) content: usize,
}

impl UnderWay {
    /// Nothing of it has come.
    pub(crate) fn at(start: u64) -> UnderWay
        ensures { result ≡ at_start start }
    {
        UnderWay {
            start,
            head_end: start,
            stage: HeadStage::LineStart,
            content: 0,
        }
    }

    /// These bytes came, and don't complete it.
    fn with(self, bytes: &[u8]) -> UnderWay
        ensures { result ≡ with_bytes self bytes.now }
    {
        let (size, stage) = head_bytes(self.stage, bytes);
        UnderWay {
            start: self.start,
            head_end: self.head_end.saturating_add(size as u64),
            stage,
            content: self.content.saturating_add(bytes.len() - size),
        }
    }

    /// These bytes complete it, with a content of this size: the content's place, and the bytes behind.
    fn completed(self, size: usize, bytes: &[u8]) -> (u64, &[u8])
        ensures place { result.0 ≡ content_place self bytes.now }
        ensures behind { result.1.now ≡ behind_content self size bytes.now }
    {
        let head = head_size(self.stage, bytes);
        let place = self.head_end.saturating_add(head as u64);
        let behind_head = &bytes[head..];
        let missing = size.saturating_sub(self.content).min(behind_head.len());
        (place, &behind_head[missing..])
    }

    /// This piece came, and completed these frames. Notes where each content begins.
    pub(crate) fn follow(self, piece: &[u8], frames: &Fed, places: &mut VecDeque<u64>) -> UnderWay
        requires { deque_len places.old + length (fed_frames frames.now) ≤ deque_capacity places.old }
        ensures places { places.new.items ≡
            places.old.items ++ (followed self piece.now (fed_frames frames.now)).0 }
        ensures under_way { result ≡ (followed self piece.now (fed_frames frames.now)).1 }
        ensures small { SmallFrames (fed_frames frames.now) }
    {
        match &frames.first {
            Some(frame) => {
                let size = frame.content.len();
                let (place, behind) = self.completed(size, piece);
                places.push_back_reserved(place);
                let next = UnderWay::at(place.saturating_add(size as u64));
                next.follow_others(behind, &frames.others, places)
            }
            None => self.follow_others(piece, &frames.others, places),
        }
    }

    fn follow_others(self, piece: &[u8], frames: &Frames, places: &mut VecDeque<u64>) -> UnderWay
        requires { deque_len places.old + length frames.now ≤ deque_capacity places.old }
        ensures places { places.new.items ≡
            places.old.items ++ (followed self piece.now frames.now).0 }
        ensures under_way { result ≡ (followed self piece.now frames.now).1 }
        ensures small { SmallFrames frames.now }
    {
        let mut under_way = self;
        let mut rest = piece;
        let mut index = 0;
        while index < frames.len() {
            let size = frames.size(index);
            let (place, behind) = under_way.completed(size, rest);
            places.push_back_reserved(place);
            under_way = UnderWay::at(place.saturating_add(size as u64));
            rest = behind;
            index += 1;
        }
        under_way.with(rest)
    }
}

/// How many of the bytes the head has that is at this stage.
fn head_size(stage: HeadStage, bytes: &[u8]) -> usize
    ensures is { result ≡ (head_bytes stage bytes.now).0 }
    ensures most { result ≤ length bytes.now }
{
    if let HeadStage::LineStart = stage
        && let Some(size) = usual_head(bytes)
    {
        return size;
    }
    head_bytes(stage, bytes).0
}

/// How many of the bytes the head has that is at this stage, and its stage behind them.
fn head_bytes(stage: HeadStage, bytes: &[u8]) -> (usize, HeadStage)
    ensures are { result ≡ head_bytes stage bytes.now }
    ensures most { result.0 ≤ length bytes.now }
{
    let mut stage = stage;
    let mut at = 0;
    while at < bytes.len() {
        match stage {
            HeadStage::Whole => return (at, stage),
            // Nearly all bytes of a head are here, so they are passed many at a time.
            HeadStage::Line => match place_of_lf(&bytes[at..]) {
                Some(end) => {
                    at += end + 1;
                    stage = HeadStage::LineStart;
                }
                None => return (bytes.len(), stage),
            },
            HeadStage::LineStart | HeadStage::Cr => {
                stage = stage.after(bytes[at]);
                at += 1;
            }
        }
    }
    (bytes.len(), stage)
}
