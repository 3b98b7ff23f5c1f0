//! The input side of a connection: from pieces to contents.

ghost use Rattle.std.specs.Prelude.{◌≡◌, ◌≤◌, ◌+◌, ◌++◌, ◌∷◌, [], Some, None, IsSome, IsOk, IsTrue, OnOk, OnErr, is_some, option_map};
ghost use Rattle.lsp_frames.specs.Gathered.{frame_of_content};
ghost use Rattle.lsp_frames.specs.declared.limits.TheConstants.{LONGEST_CONTENT as MOST_BYTES};

use crate::cutter::Cutter;
use crate::ending::{HowEnded, StreamEnd};
use crate::framing::Framing;
use crate::places::Places;
use crate::row::Row;
use ghost_log::GhostLog;
use lsp_frames::Content;
use std::alloc::{AllocError, Global};
use std::marker::Model;

/// The contents of a stream that is fed piece by piece, one after another, and how it has ended.
///
/// It holds the contents that weren't taken, and of the rest the unfinished frame or line alone. What has passed is seen
/// by clauses only.
#[derive(Drop)]
pub struct ContentStream {
    cutter: Cutter,
    row: Row,
    places: Places,
    ended: Option<HowEnded>,
    log: GhostLog,
}

impl Model for ContentStream {
    ghost use Rattle.content_streams.specs.Streams.{Stream};
    ghost use Rattle.content_streams.specs.Inner.Cutters.{IsHeld, framing_of, limit_of};

    ghost Value = { Stream };

    ghost view = { λ a. record {
      framing = framing_of a.cutter;
      limit = limit_of a.cutter;
      pieces = a.log.texts;
      ended = a.ended;
      taken = a.log.taken;
    } };

    ghost invariant = { λ a. IsHeld a.cutter a.row a.places a.log.texts a.ended a.log.taken };
}

impl ContentStream {
    ghost use Rattle.content_streams.specs.Streams.{next_content, next_placed, close_of, fault_place, capped};

    /// Contents have at most `limit` bytes. Takes no memory.
    pub fn new(alloc: Global, framing: Framing, limit: u32) -> ContentStream
        requires some { 1 ≤ limit }
        requires most { limit ≤ MOST_BYTES }
        ensures { result ≡ record {
          framing = framing;
          limit = limit;
          pieces = [];
          ended = None;
          taken = 0;
        } }
    {
        ContentStream {
            cutter: Cutter::new(alloc, framing, limit),
            row: Row::new(alloc),
            places: Places::new(alloc),
            ended: None,
            log: GhostLog::new(),
        }
    }

    /// One more piece came. Behind a fault pieces are ignored.
    pub fn feed(&mut self, piece: &[u8]) -> Result<(), AllocError>
        requires { self.old.ended ≡ None }
        ensures ok { OnOk result (self.new ≡
            record self.old { pieces = self.old.pieces ++ piece.now ∷ [] }) }
        ensures err { OnErr result (self.new ≡ self.old) }
        ensures ignored { IsSome (close_of self.old) → IsOk result }
    {
        if self.cutter.fault().is_none() {
            let room = self.row.make_room()?;
            let contents = self.cutter.feed(piece, &mut self.places.waiting, room)?;
            self.row.add(contents);
        }
        self.log = self.log.with_text(piece);
        Ok(())
    }

    /// The input has ended. Takes no memory.
    pub fn end(&mut self, how: HowEnded)
        requires { self.old.ended ≡ None }
        ensures { self.new ≡ record self.old { ended = Some how } }
    {
        let place = self.cutter.place_left();
        match how {
            HowEnded::Closed => match self.cutter.take_last() {
                Some(content) => {
                    self.row.add_last(content);
                    self.places.add_last(place);
                }
                None => {}
            },
            HowEnded::ReadFailed => {}
        }
        self.ended = Some(how);
    }

    /// Whether the host has said that the input ended.
    pub fn has_ended(&self) -> bool
        ensures { result ≡ is_some self.now.ended }
    {
        self.ended.is_some()
    }

    /// The next content: the first that wasn't taken.
    pub fn front(&self) -> Option<Content<'_>>
        ensures { option_map frame_of_content result ≡ next_content self.now }
    {
        self.row.front()
    }

    /// The offset of the next content's first byte, counted from the first byte that was fed, from 0, up to u64's
    /// greatest value.
    pub fn front_place(&self) -> Option<u64>
        ensures { result ≡ option_map (λ placed. capped placed.0) (next_placed self.now) }
    {
        self.places.front()
    }

    /// Takes the next content.
    pub fn pop(&mut self)
        requires { IsSome (next_content self.old) }
        ensures { self.new ≡ record self.old { taken = self.old.taken + 1 } }
    {
        self.row.pop();
        self.places.pop();
        self.log = self.log.with_taken(1);
    }

    /// How the stream has ended, once it has shown a fault or the host has said that it ended.
    pub fn close(&self) -> Option<StreamEnd>
        ensures { result ≡ close_of self.now }
    {
        if let Some(fault) = self.cutter.fault() {
            return Some(StreamEnd::Fault(fault));
        }
        match self.ended {
            Some(HowEnded::Closed) => Some(self.cutter.closed_end()),
            Some(HowEnded::ReadFailed) => Some(StreamEnd::ReadFailed),
            None => None,
        }
    }

    /// Where the stream has ended by a fault: the offset of the first byte of the frame or line at fault, or of the
    /// content that was too large, counted as for `front_place`.
    pub fn fault_place(&self) -> Option<u64>
        ensures { result ≡ option_map capped (fault_place self.now) }
    {
        match self.close() {
            Some(StreamEnd::Fault(_)) => Some(self.cutter.place_left()),
            _ => None,
        }
    }
}
