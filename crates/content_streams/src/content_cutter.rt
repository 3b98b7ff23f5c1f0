//! Contents that come by themselves.

ghost use Rattle.std.specs.Prelude.{◌≡◌, ◌+◌, ◌++◌, ◌∷◌, [], OnOk, OnErr, IfOk, length, map, take_while, not, false, if◌then◌else◌};
ghost use Rattle.lsp_frames.specs.Feeds.{fed_frames};
ghost use Rattle.content_streams.specs.Lines.{fits};
ghost use Rattle.content_streams.specs.Streams.{capped, plain};

use lsp_frames::{Fed, Frame, Frames};
use std::alloc::{AllocError, Global};
use std::collections::VecDeque;

/// Takes each piece as one content, until one is too large.
#[derive(Drop)]
pub(crate) struct ContentCutter {
    pub(crate) alloc: Global,
    pub(crate) limit: u32,
    /// A piece was too large.
    pub(crate) is_over: bool,
    /// The offset of the next piece, or of the one that was too large, up to u64's greatest value.
    pub(crate) start: u64,
}

impl ContentCutter {
    /// The content of this piece, and at the end of `places` where it begins.
    pub(crate) fn feed(
        &mut self,
        piece: &[u8],
        places: &mut VecDeque<u64>,
        room: Frames,
    ) -> Result<Fed, AllocError>
        requires over { self.old.is_over ≡ false }
        requires room { room ≡ [] }
        ensures given { IfOk result (λ given.
            fed_frames given ≡ map plain (take_while (fits self.old.limit) (piece.now ∷ []))) }
        ensures places { OnOk result (places.new.items ≡ places.old.items
            ++ (if fits self.old.limit piece.now then self.old.start ∷ [] else [])) }
        ensures left { OnOk result (self.new ≡ record self.old {
          is_over = not (fits self.old.limit piece.now);
          start = if fits self.old.limit piece.now
              then capped (self.old.start + length piece.now) else self.old.start;
        }) }
        ensures err { OnErr result (self.new ≡ self.old) }
        ensures err_places { OnErr result (places.new.items ≡ places.old.items) }
    {
        let others = room;
        if piece.len() > self.limit as usize {
            self.is_over = true;
            return Ok(Fed {
                first: None,
                others,
            });
        }
        let content = Vec::from_slice(self.alloc, piece)?.into();
        places.push_back(self.start)?;
        self.start = self.start.saturating_add(piece.len() as u64);
        let first = Some(Frame {
            content,
            foreign: false,
        });
        Ok(Fed { first, others })
    }
}
