//! What contents are cut from.

ghost use Rattle.std.specs.Prelude.{◌≡◌, ◌≤◌, ◌++◌, ◌∷◌, [], ℕ, List, Some, None, map, OnOk, OnErr, IfOk, if◌then◌else◌};
ghost use Rattle.std.specs.Option.{option_to_list};
ghost use Rattle.lsp_frames.specs.Feeds.{fed_frames};
ghost use Rattle.lsp_frames.specs.declared.limits.TheConstants.{LONGEST_CONTENT as MOST_BYTES};
ghost use Rattle.content_streams.specs.Streams.{capped, closed_end, fault_of, place_left};
ghost use Rattle.content_streams.specs.Inner.Cutters.{framing_of, limit_of, MayFeed, Stands, Tells, places_by, read_by};

use crate::content_cutter::ContentCutter;
use crate::ending::{HowEnded, StreamEnd};
use crate::frames::{FrameCutter, fault_at_end, stream_end};
use crate::framing::Framing;
use crate::line_cutter::LineCutter;
use lsp_frames::{Fed, Frame, FrameFault, Frames};
use std::alloc::{AllocError, Global};
use std::collections::VecDeque;

/// Cuts a stream into contents, in one of the framings.
#[derive(Drop)]
pub(crate) enum Cutter {
    Frames(FrameCutter),
    Lines(LineCutter),
    Contents(ContentCutter),
}

impl Cutter {
    /// At a stream's start. Takes no memory.
    pub(crate) fn new(alloc: Global, framing: Framing, limit: u32) -> Cutter
        requires { limit ≤ MOST_BYTES }
        ensures framing { framing_of result ≡ framing }
        ensures limit { limit_of result ≡ limit }
        ensures stands { Stands result [] }
    {
        match framing {
            Framing::Frames => Cutter::Frames(FrameCutter::new(alloc, limit)),
            Framing::Lines => Cutter::Lines(LineCutter::new(alloc, limit, 0)),
            Framing::Contents => Cutter::Contents(ContentCutter {
                alloc,
                limit,
                is_over: false,
                start: 0,
            }),
        }
    }

    /// The fault that was shown.
    pub(crate) fn fault(&self) -> Option<FrameFault>
        ensures told { (pieces : List (List ℕ)) → Tells self.now pieces →
            result ≡ fault_of (framing_of self.now) (limit_of self.now) pieces }
        ensures none { result ≡ None → MayFeed self.now }
    {
        match self {
            Cutter::Frames(cutter) => fault_at_end(cutter.decoder.end()),
            Cutter::Lines(cutter) => too_large_if(cutter.is_over()),
            Cutter::Contents(cutter) => too_large_if(cutter.is_over),
        }
    }

    /// The contents that this piece completes, in this room, and at the end of `places` where they begin.
    pub(crate) fn feed(
        &mut self,
        piece: &[u8],
        places: &mut VecDeque<u64>,
        room: Frames,
    ) -> Result<Fed, AllocError>
        requires room { room ≡ [] }
        requires may { MayFeed self.old }
        requires known { (pieces : List (List ℕ)) × Stands self.old pieces }
        ensures framing { framing_of self.new ≡ framing_of self.old }
        ensures limit { limit_of self.new ≡ limit_of self.old }
        ensures given { IfOk result (λ given. (pieces : List (List ℕ)) → Stands self.old pieces →
            read_by self.old (pieces ++ piece.now ∷ []) None
            ≡ read_by self.old pieces None ++ fed_frames given) }
        ensures places { OnOk result ((pieces : List (List ℕ)) (passed : List ℕ) →
            Stands self.old pieces →
            places_by self.old pieces None ≡ passed ++ places.old.items →
            places_by self.old (pieces ++ piece.now ∷ []) None ≡ passed ++ places.new.items) }
        ensures stands { OnOk result ((pieces : List (List ℕ)) → Stands self.old pieces →
            Stands self.new (pieces ++ piece.now ∷ [])) }
        ensures err { OnErr result (self.new ≡ self.old) }
        ensures err_places { OnErr result (places.new.items ≡ places.old.items) }
    {
        match self {
            Cutter::Frames(cutter) => cutter.feed(piece, places, room),
            Cutter::Lines(cutter) => cutter.feed(piece, places, room),
            Cutter::Contents(cutter) => cutter.feed(piece, places, room),
        }
    }

    /// The last content, where the input is closed: that of a line with no LF.
    pub(crate) fn take_last(&mut self) -> Option<Frame>
        ensures framing { framing_of self.new ≡ framing_of self.old }
        ensures limit { limit_of self.new ≡ limit_of self.old }
        ensures content { (pieces : List (List ℕ)) → Stands self.old pieces →
            read_by self.old pieces (Some HowEnded.Closed)
            ≡ read_by self.old pieces None ++ option_to_list result }
        ensures place { (pieces : List (List ℕ)) → Stands self.old pieces →
            places_by self.old pieces (Some HowEnded.Closed) ≡ places_by self.old pieces None
            ++ map (λ _. capped (place_left (framing_of self.old) (limit_of self.old) pieces))
            (option_to_list result) }
        ensures tells { (pieces : List (List ℕ)) → Stands self.old pieces → Tells self.new pieces }
    {
        match self {
            Cutter::Frames(_) => None,
            Cutter::Lines(cutter) => cutter.take_last(),
            Cutter::Contents(_) => None,
        }
    }

    /// Where what is left begins.
    pub(crate) fn place_left(&self) -> u64
        ensures { (pieces : List (List ℕ)) → Tells self.now pieces →
            result ≡ capped (place_left (framing_of self.now) (limit_of self.now) pieces) }
    {
        match self {
            Cutter::Frames(cutter) => cutter.under_way.start,
            Cutter::Lines(cutter) => cutter.start(),
            Cutter::Contents(cutter) => cutter.start,
        }
    }

    /// How the stream ends where it is closed and has shown no fault.
    pub(crate) fn closed_end(&self) -> StreamEnd
        ensures { (pieces : List (List ℕ)) → Tells self.now pieces →
            result ≡ closed_end (framing_of self.now) (limit_of self.now) pieces }
    {
        match self {
            Cutter::Frames(cutter) => stream_end(cutter.decoder.end()),
            Cutter::Lines(_) => StreamEnd::Clean,
            Cutter::Contents(_) => StreamEnd::Clean,
        }
    }
}

fn too_large_if(is_over: bool) -> Option<FrameFault>
    ensures { result ≡ (if is_over then Some FrameFault.TooLarge else None) }
{
    if is_over {
        Some(FrameFault::TooLarge)
    } else {
        None
    }
}
