//! A stream of bytes, played in pieces of one size.
ghost use Rattle.std.specs.Prelude.{◌<◌};

use crate::reading::Taker;
use lsp_frames::MemSink;
use method_steps::Table;
use rpc_peer::{DrainFault, Framing, Limits, Player, Report, Schedule};
use std::alloc::{AllocError, Global};

/// Bytes that are played in pieces of one size as they come; the last piece may be shorter. What is written is kept.
#[derive(Drop)]
pub struct Pieces<'a> {
    player: Player<'a, MemSink>,
    /// The piece under way, which is shorter than the others.
    last: Vec<u8>,
    size: usize,
    ghost has_a_size: { 0 < size },
}

impl<'a> Pieces<'a> {
    /// No bytes yet, to be played in this framing and in pieces of `size` bytes, by a peer with the methods of this table.
    pub fn new(
        alloc: Global,
        framing: Framing,
        table: &'a Table,
        limits: Limits,
        schedule: &'a Schedule,
        size: usize,
    ) -> Result<Pieces<'a>, AllocError>
        requires { 0 < size }
    {
        let sink = MemSink::new(alloc, None);
        match Player::in_framing(alloc, framing, table, limits, schedule, sink) {
            Ok(player) => Ok(Pieces {
                player,
                last: Vec::new(alloc),
                size,
            }),
            Err((fault, _)) => Err(no_memory(fault)),
        }
    }

    /// Adds bytes at the end, and plays the pieces that they fill. A piece that comes whole isn't copied.
    pub fn add(&mut self, bytes: &[u8]) -> Result<(), AllocError> {
        let rest = self.fill_last(bytes)?;
        for piece in rest.chunks(self.size) {
            if piece.len() < self.size {
                self.last.extend_from_slice(piece)?;
            } else {
                self.player.feed(piece).map_err(no_memory)?;
            }
        }
        Ok(())
    }

    /// Goes on with the piece under way, where there is one, and gives the bytes that are left.
    fn fill_last<'b>(&mut self, bytes: &'b [u8]) -> Result<&'b [u8], AllocError> {
        if self.last.is_empty() {
            return Ok(bytes);
        }
        let room = self.size.saturating_sub(self.last.len());
        let (head, rest) = bytes.split_at(room.min(bytes.len()));
        self.last.extend_from_slice(head)?;
        if self.last.len() >= self.size {
            self.player.feed(self.last.as_slice()).map_err(no_memory)?;
            self.last.clear();
        }
        Ok(rest)
    }

    /// What was written, where the stream ends here, and what is told of it.
    pub fn finish(self) -> Result<(Vec<u8>, Report), AllocError> {
        let Pieces {
            mut player,
            last,
            size: _,
        } = self;
        player.feed(last.as_slice()).map_err(no_memory)?;
        let report = player.end().map_err(no_memory)?;
        Ok((player.into_sink().into_vec(), report))
    }
}

impl Taker for Pieces<'_> {
    fn take(&mut self, bytes: &[u8]) -> Result<(), AllocError> {
        self.add(bytes)
    }
}

/// A sink in memory fails only where there is none.
fn no_memory(_fault: DrainFault) -> AllocError {
    AllocError
}
