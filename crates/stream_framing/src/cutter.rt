//! What contents are cut from.

ghost use Rattle.std.specs.Prelude.{◌≡◌, ◌≤◌, ◌++◌, ℕ, List, [], OnOk, Err};
ghost use Rattle.lsp_frames.specs.Contents.{Standing, Broken, end_of};
ghost use Rattle.lsp_frames.specs.Decoding.{IfEnded, IfFed};
ghost use Rattle.lsp_frames.specs.declared.fault.FeedFault.TheVariants.{Memory};
ghost use Rattle.lsp_frames.specs.declared.frame.Frame.{Frame};
ghost use Rattle.lsp_frames.specs.declared.limits.TheConstants.{LARGEST_CONTENT as MOST_BYTES};
ghost use Rattle.stream_framing.specs.Framed.{Holds, IsOpenLeft, Knows, StandsBehind, framing_of, limit_of};

use crate::framing::Framing;
use crate::line_cutter::LineCutter;
use lsp_frames::{Decoder, End, FeedFault, Frame, FrameFault};
use std::alloc::Global;

/// Cuts a stream into contents, in whatever pieces it comes.
#[derive(Drop)]
pub enum Cutter {
    Frames(Decoder),
    Lines(LineCutter),
}

impl Cutter {
    /// At a stream's start. A content has at most `limit` bytes. Takes no memory.
    pub fn new(alloc: Global, framing: Framing, limit: u32) -> Cutter
        requires { limit ≤ MOST_BYTES }
        ensures framing { framing_of result ≡ framing }
        ensures limit { limit_of result ≡ limit }
        ensures stands { StandsBehind result [] [] }
    {
        match framing {
            Framing::Frames => Cutter::Frames(Decoder::new(alloc, limit)),
            Framing::Lines => Cutter::Lines(LineCutter::new(alloc, limit)),
        }
    }

    pub fn framing(&self) -> Framing
        ensures { result ≡ framing_of self.now }
    {
        match self {
            Cutter::Frames(_) => Framing::Frames,
            Cutter::Lines(_) => Framing::Lines,
        }
    }

    /// The contents that this piece completes. `FeedFault::Ended` has those in front of the fault that it found.
    pub fn feed(&mut self, piece: &[u8]) -> Result<Vec<Frame>, FeedFault>
        ensures framing { framing_of self.new ≡ framing_of self.old }
        ensures limit { limit_of self.new ≡ limit_of self.old }
        ensures stands { (bytes : List ℕ) (frames : List Frame) →
            StandsBehind self.old bytes frames →
            IfFed result (λ given. StandsBehind self.new (bytes ++ piece.now) (frames ++ given)) }
        ensures open { OnOk result ((left : Standing) → Knows self.new left → IsOpenLeft left) }
        ensures ended { IfEnded result (λ fault. (left : Standing) → Knows self.new left →
            left ≡ Broken fault) }

        // Without memory nothing of the piece is taken.
        ensures memory { result ≡ Err Memory → self.new ≡ self.old }
    {
        match self {
            Cutter::Frames(decoder) => decoder.feed(piece),
            Cutter::Lines(cutter) => {
                let contents = cutter.feed(piece)?;
                if cutter.is_over() {
                    return Err(FeedFault::Ended(FrameFault::TooLarge, contents.into()));
                }
                Ok(contents)
            }
        }
    }

    /// How the stream ends, if no more bytes come.
    pub fn end(&self) -> End
        ensures { (bytes : List ℕ) (frames : List Frame) (left : Standing) →
            Holds (framing_of self.now) (limit_of self.now) bytes frames left →
            Knows self.now left → result ≡ end_of left }
    {
        match self {
            Cutter::Frames(decoder) => decoder.end(),
            Cutter::Lines(cutter) => cutter.end(),
        }
    }
}
