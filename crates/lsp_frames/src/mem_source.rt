//! A source in memory.

ghost use Rattle.std.specs.Prelude.{◌≡◌, ◌<◌, ◌≤◌, ◌↔◌, ◌+◌, ◌^◌, Some, IsErr, IfOk, length, take, map, option_map, ◌-◌};
ghost use Rattle.lsp_frames.specs.Devices.{CountsFailure, GivesNext, GivesFrontOf};
ghost use Rattle.lsp_frames.specs.Inner.DeviceLaws.{front_at_first};
ghost use Rattle.lsp_frames.specs.MemDevices.{bytes_of, from_first_byte, first_piece, behind_bytes, pieces_from};

use crate::device::{IoFault, Source};
use std::marker::Model;

/// Gives pieces of bytes in order, one a call where the room is large enough. It can be told to fail.
#[derive(Drop)]
pub struct MemSource {
    pieces: Vec<Vec<u8>>,
    at: usize,
    start: usize,
    calls_left: Option<u32>,
    failures: u64,
}

impl Model for MemSource {
    ghost use Rattle.lsp_frames.specs.MemDevices.{Giving, pieces_from};

    ghost Value = { Giving };

    ghost view = { λ source. record {
      pieces = pieces_from source.pieces.items source.at source.start;
      calls_left = source.calls_left;
      failures = source.failures;
    } };
}

impl MemSource {
    /// The call of `next` with the number `fault_at`, from 1, fails, and so do all after it. Takes no memory.
    pub fn new(pieces: Vec<Vec<u8>>, fault_at: Option<u32>) -> Self
        ensures pieces { result.pieces ≡ map (λ piece. piece.items) pieces.items }
        ensures calls { result.calls_left ≡ option_map (λ n. n - 1) fault_at }
        ensures failures { result.failures ≡ 0 }
    {
        MemSource {
            pieces,
            at: 0,
            start: 0,
            calls_left: fault_at.map(|number| number.saturating_sub(1)),
            failures: 0,
        }
    }
}

/// The place of the next byte: in which piece, and how far into it.
fn place_of_byte(pieces: &[Vec<u8>], at: usize, start: usize) -> (usize, usize)
    ensures { pieces_from pieces.now result.0 result.1 ≡
        from_first_byte (pieces_from pieces.now at start) }
{
    let mut place = (at, start);
    while let Some(piece) = pieces.get(place.0) {
        if place.1 < piece.len() {
            break;
        }
        place = (place.0 + 1, 0);
    }
    place
}

/// What is left of the piece at a place.
fn rest_of_piece(pieces: &[Vec<u8>], at: usize, start: usize) -> &[u8]
    ensures rest { result.now ≡ first_piece (pieces_from pieces.now at start) }
    ensures bound { start + length result.now < 2 ^ 64 }
{
    match pieces.get(at) {
        Some(piece) => piece.get(start..).unwrap_or(b""),
        None => b"",
    }
}

/// Copies as many bytes as have room, and tells how many.
fn copy_front(bytes: &[u8], room: &mut [u8]) -> usize
    ensures count { result ≡ length (take (length room.old) bytes.now) }
    ensures bytes { take result room.new ≡ take (length room.old) bytes.now }
{
    let count = bytes.len().min(room.len());
    room[..count].copy_from_slice(&bytes[..count]);
    count
}

impl Source for MemSource {
    ghost gave = { λ source bytes ending. GivesFrontOf (bytes_of source.pieces) bytes ending };

    ghost failures = { λ source. source.failures };

    ghost nothing_at_first = { λ source. front_at_first (bytes_of source.pieces) };

    fn next(&mut self, room: &mut [u8]) -> Result<usize, IoFault>
        requires { 0 < length room.old }
        ensures count { IfOk result (λ n. n ≤ length room.new) }
        ensures gives { GivesNext (GivesFrontOf (bytes_of self.old.pieces))
            (GivesFrontOf (bytes_of self.new.pieces)) result room.new }
        ensures cause { CountsFailure self.old.failures self.new.failures result }

        // It fails where it was told to, and nowhere else.
        ensures fails { IsErr result ↔ (self.old.calls_left ≡ Some 0) }
        ensures calls { self.new.calls_left ≡ option_map (λ n. n - 1) self.old.calls_left }

        // It passes over empty pieces, and gives what has room of the next.
        ensures given { IfOk result (λ n.
            take n room.new ≡
            take (length room.old) (first_piece (from_first_byte self.old.pieces))) }
        ensures rest { IfOk result (λ n.
            self.new.pieces ≡ behind_bytes n (from_first_byte self.old.pieces)) }
    {
        if self.calls_left == Some(0) {
            self.failures = self.failures.saturating_add(1);
            return Err(IoFault);
        }
        self.calls_left = self.calls_left.map(|left| left.saturating_sub(1));
        let (at, start) = place_of_byte(&self.pieces, self.at, self.start);
        let count = copy_front(rest_of_piece(&self.pieces, at, start), room);
        self.at = at;
        self.start = start + count;
        Ok(count)
    }

    fn failures(&self) -> u64 {
        self.failures
    }
}
