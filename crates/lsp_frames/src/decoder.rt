//! The decoder of a stream of frames that comes in pieces.

ghost use Rattle.std.specs.Prelude.{◌≡◌, ◌≤◌, ◌++◌, ℕ, List, [], IfOk, OnErr, OnOk, Err};
ghost use Rattle.lsp_frames.specs.declared.frame.Frame.{Frame};
ghost use Rattle.lsp_frames.specs.declared.frame.FrameFault.{FrameFault};
ghost use Rattle.lsp_frames.specs.declared.fault.FeedFault.TheVariants.{Memory, Ended};
ghost use Rattle.lsp_frames.specs.Contents.{Standing, IsContents, end_of};
ghost use Rattle.lsp_frames.specs.Feeds.{fed_frames};
ghost use Rattle.lsp_frames.specs.Decoding.{Broken, IfEnded, IfFed, IsOpen, StandsAfter, end_known};

use crate::fault::FeedFault;
use crate::fed::Fed;
use crate::frame::{End, Frame};
use crate::frames::Frames;
use crate::limits::{LARGEST_CONTENT, LONGEST_CONTENT};
use crate::partial::{Partial, Place, Stage};
use json_values::Items;
use std::alloc::{AllocError, Global};
use std::marker::Model;

/// Cuts a stream into frames, in whatever pieces it comes (LSP 3.17, "Base Protocol").
///
/// It holds the bytes of the line or the content under way and no others, and makes room for a byte only once it has
/// come: a head that promises much costs nothing. A feed costs its piece and the frames that it gives.
#[derive(Drop)]
pub struct Decoder {
    alloc: Global,
    limit: u32,
    partial: Partial,
}

impl Model for Decoder {
    ghost use Rattle.lsp_frames.specs.Decoding.{Decoding};
    ghost use Rattle.lsp_frames.specs.Inner.Partials.{IsPartial, known_read, read_of};

    ghost Value = { Decoding };

    ghost view = { λ decoder. record {
      limit = decoder.limit;
      standing = known_read (read_of decoder.partial);
    } };

    ghost invariant = { λ decoder. IsPartial decoder.partial };
}

impl Decoder {
    /// A decoder of contents of at most `limit` bytes, at a stream's start. Takes no memory.
    pub fn new(alloc: Global, limit: u32) -> Decoder
        requires { limit ≤ LARGEST_CONTENT }
        ensures limit { result.limit ≡ limit }
        ensures start { StandsAfter result [] [] }
    {
        Decoder::for_long_contents(alloc, limit)
    }

    /// The same, where the host may set a limit beyond `LARGEST_CONTENT`. Takes no memory.
    pub fn for_long_contents(alloc: Global, limit: u32) -> Decoder
        requires { limit ≤ LONGEST_CONTENT }
        ensures limit { result.limit ≡ limit }
        ensures start { StandsAfter result [] [] }
    {
        Decoder {
            alloc,
            limit,
            partial: Partial::new(alloc, Stage::Head(Place::FIRST)),
        }
    }

    /// The frames that this piece completes. `FeedFault::Ended` has those in front of the fault that it found.
    pub fn feed(&mut self, piece: &[u8]) -> Result<Vec<Frame>, FeedFault>
        ensures limit { self.new.limit ≡ self.old.limit }

        // The frames given so far are those of the bytes fed so far, and so is what is left.
        ensures stands { (bytes : List ℕ) (frames : List Frame) →
            StandsAfter self.old bytes frames →
            IfFed result (λ given. StandsAfter self.new (bytes ++ piece.now) (frames ++ given)) }
        ensures open { OnOk result (IsOpen self.new.standing) }
        ensures ended { IfEnded result (λ fault. self.new.standing ≡ Broken fault) }

        // Without memory nothing of the piece is taken.
        ensures memory { result ≡ Err Memory → self.new ≡ self.old }

        // After a fault there are no more frames, and memory isn't wanted.
        ensures over { (fault : FrameFault) → self.old.standing ≡ Broken fault →
            result ≡ Err (Ended fault []) }
    {
        let frames = match self.partial.stage {
            Stage::Ended(fault) => {
                return Err(FeedFault::Ended(fault, Items::new(self.alloc)));
            }
            _ => self.partial.feed_apart(self.alloc, self.limit, piece)?,
        };
        match self.partial.stage {
            Stage::Ended(fault) => Err(FeedFault::Ended(fault, frames.into())),
            _ => Ok(frames),
        }
    }

    /// The frames that this piece completes, in memory that they share: that of `room`, which has none. A fault is told
    /// by `end`, and behind one there are no more frames.
    pub fn feed_together(&mut self, piece: &[u8], room: Frames) -> Result<Fed, AllocError>
        requires { room ≡ [] }
        ensures limit { self.new.limit ≡ self.old.limit }
        ensures stands { (bytes : List ℕ) (frames : List Frame) →
            StandsAfter self.old bytes frames →
            IfOk result (λ given. StandsAfter self.new (bytes ++ piece.now) (frames ++ fed_frames given)) }

        // Without memory nothing of the piece is taken.
        ensures err { OnErr result (self.new ≡ self.old) }
    {
        self.partial
            .feed_together(self.alloc, self.limit, piece, room)
    }

    /// How the stream ends, if no more bytes come.
    pub fn end(&self) -> End
        ensures standing { result ≡ end_known self.now.standing }
        ensures contents { (bytes : List ℕ) (frames : List Frame) (left : Standing) →
            StandsAfter self.now bytes frames →
            IsContents self.now.limit bytes frames left → result ≡ end_of left }
    {
        self.partial.end()
    }
}
