//! Frames.

ghost use Rattle.std.specs.Prelude.{◌≡◌, ◌≤◌, ◌++◌, [], ℕ, List, OnOk, OnErr, IfOk};
ghost use Rattle.lsp_frames.specs.Feeds.{fed_frames};
ghost use Rattle.lsp_frames.specs.declared.limits.TheConstants.{LONGEST_CONTENT as MOST_BYTES};
ghost use Rattle.content_streams.specs.Framed.{frames_of, placed_frames};
ghost use Rattle.content_streams.specs.Inner.Cutters.{FramesStand, fault_at_end};
ghost use Rattle.content_streams.specs.Streams.{capped_places, stream_end};

use crate::ending::StreamEnd;
use crate::under_way::UnderWay;
use lsp_frames::{Decoder, End, Fed, FrameFault, Frames};
use std::alloc::{AllocError, Global};
use std::collections::VecDeque;

/// A frame has more bytes than this: the name `Content-Length` has 14, and each of two lines a CR LF at its end.
const FRAME_BYTES: usize = 16;

/// Room for so many places is kept, however few are in use: those of a piece of 16 KiB, which few reads are longer than.
const KEPT_PLACES: usize = 1024;

/// Cuts a stream into frames, and knows where they stand.
#[derive(Drop)]
pub(crate) struct FrameCutter {
    pub(crate) decoder: Decoder,
    pub(crate) under_way: UnderWay,
}

impl FrameCutter {
    /// At a stream's start. Takes no memory.
    pub(crate) fn new(alloc: Global, limit: u32) -> FrameCutter
        requires { limit ≤ MOST_BYTES }
        ensures limit { result.decoder.limit ≡ limit }
        ensures stands { FramesStand result [] }
    {
        FrameCutter {
            decoder: Decoder::for_long_contents(alloc, limit),
            under_way: UnderWay::at(0),
        }
    }

    /// The contents of the frames that this piece completes, and at the end of `places` where they begin.
    pub(crate) fn feed(
        &mut self,
        piece: &[u8],
        places: &mut VecDeque<u64>,
        room: Frames,
    ) -> Result<Fed, AllocError>
        requires known { (bytes : List ℕ) × FramesStand self.old bytes }
        requires room { room ≡ [] }
        ensures limit { self.new.decoder.limit ≡ self.old.decoder.limit }
        ensures given { IfOk result (λ given. (bytes : List ℕ) → FramesStand self.old bytes →
            frames_of self.old.decoder.limit (bytes ++ piece.now)
            ≡ frames_of self.old.decoder.limit bytes ++ fed_frames given) }
        ensures places { OnOk result ((bytes passed : List ℕ) → FramesStand self.old bytes →
            capped_places (placed_frames self.old.decoder.limit bytes)
            ≡ passed ++ places.old.items →
            capped_places (placed_frames self.old.decoder.limit (bytes ++ piece.now))
            ≡ passed ++ places.new.items) }
        ensures stands { OnOk result ((bytes : List ℕ) → FramesStand self.old bytes →
            FramesStand self.new (bytes ++ piece.now)) }
        ensures err { OnErr result (self.new ≡ self.old) }
        ensures err_places { OnErr result (places.new.items ≡ places.old.items) }
    {
        places.reserve(piece.len() / FRAME_BYTES + 1)?;
        let frames = self.decoder.feed_together(piece, room)?;
        self.under_way = self.under_way.follow(piece, &frames, places);
        give_room_back(places);
        Ok(frames)
    }
}

/// Gives memory back where less than a quarter is in use: a long piece may have had a place in each of its heads.
fn give_room_back(places: &mut VecDeque<u64>)
    ensures items { places.new.items ≡ places.old.items }
{
    let room = places.capacity();
    if room > KEPT_PLACES && room / 4 > places.len() {
        places.shrink_to((2 * places.len()).max(KEPT_PLACES));
    }
}

/// The fault that is more than the input's end inside a frame.
pub(crate) fn fault_at_end(end: End) -> Option<FrameFault>
    ensures { result ≡ fault_at_end end }
{
    match end {
        End::Fault(FrameFault::Truncated) => None,
        End::Fault(fault) => Some(fault),
        End::Clean => None,
    }
}

pub(crate) fn stream_end(end: End) -> StreamEnd
    ensures { result ≡ stream_end end }
{
    match end {
        End::Clean => StreamEnd::Clean,
        End::Fault(fault) => StreamEnd::Fault(fault),
    }
}
