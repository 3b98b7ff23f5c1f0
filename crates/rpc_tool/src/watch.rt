//! The place at which an input is at fault.
ghost use Rattle.std.specs.Prelude.{◌≤◌};
ghost use Rattle.lsp_frames.specs.declared.limits.TheConstants.{LARGEST_CONTENT};

use lsp_frames::{Decoder, FeedFault};
use std::alloc::Global;

/// What follows the bytes of an input.
#[derive(Drop)]
pub enum Watch {
    Frames(FrameWatch),
    Lines(LineWatch),
}

impl Watch {
    /// Goes on with these bytes.
    pub fn take(&mut self, bytes: &[u8]) {
        match self {
            Watch::Frames(watch) => watch.take(bytes),
            Watch::Lines(watch) => watch.take(bytes),
        }
    }
}

/// Follows frames, a byte at a time.
#[derive(Drop)]
pub struct FrameWatch {
    decoder: Decoder,
    /// How many bytes were taken.
    count: u64,
    /// How many of them came before the frame under way.
    before: u64,
    /// Whether the bytes taken show a fault.
    is_over: bool,
    /// Whether there was no memory to go on.
    is_lost: bool,
}

impl FrameWatch {
    /// No byte was taken yet. A content has at most `limit` bytes.
    pub fn new(alloc: Global, limit: u32) -> FrameWatch
        requires { limit ≤ LARGEST_CONTENT }
    {
        FrameWatch {
            decoder: Decoder::new(alloc, limit),
            count: 0,
            before: 0,
            is_over: false,
            is_lost: false,
        }
    }

    /// How many bytes came before the frame at fault, and how many until the fault showed; none where that isn't known.
    pub fn place(&self) -> Option<(u64, u64)> {
        if self.is_lost {
            None
        } else {
            Some((self.before, self.count))
        }
    }

    fn take(&mut self, bytes: &[u8]) {
        for byte in bytes {
            if self.is_over || self.is_lost {
                return;
            }
            self.take_byte(*byte);
        }
    }

    fn take_byte(&mut self, byte: u8) {
        match self.decoder.feed(&[byte]) {
            Ok(frames) => {
                self.count = self.count.saturating_add(1);
                if !frames.is_empty() {
                    self.before = self.count;
                }
            }
            Err(FeedFault::Ended(_, _)) => {
                self.count = self.count.saturating_add(1);
                self.is_over = true;
            }
            Err(FeedFault::Memory) => self.is_lost = true,
        }
    }
}

/// Follows lines, to the first that is too long.
#[derive(Drop)]
pub struct LineWatch {
    limit: u32,
    /// How many lines came before the one under way.
    before: u64,
    /// How many bytes the line under way has.
    length: u64,
    /// Whether the line under way is too long.
    is_over: bool,
}

impl LineWatch {
    /// No byte was taken yet. A line has at most `limit` bytes.
    pub fn new(limit: u32) -> LineWatch {
        LineWatch {
            limit,
            before: 0,
            length: 0,
            is_over: false,
        }
    }

    /// The number of the first line that is too long, from 1, where there is one.
    pub fn place(&self) -> Option<u64> {
        if self.is_over {
            Some(self.before.saturating_add(1))
        } else {
            None
        }
    }

    fn take(&mut self, bytes: &[u8]) {
        for byte in bytes {
            if self.is_over {
                return;
            }
            self.take_byte(*byte);
        }
    }

    fn take_byte(&mut self, byte: u8) {
        if byte == b'\n' {
            self.before = self.before.saturating_add(1);
            self.length = 0;
        } else {
            self.length = self.length.saturating_add(1);
            self.is_over = self.length > u64::from(self.limit);
        }
    }
}
