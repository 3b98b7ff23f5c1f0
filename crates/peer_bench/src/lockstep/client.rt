//! A client that waits for answers before its next request: a source and a sink that know of each other.

ghost use Rattle.std.specs.Prelude.{None};

use lsp_frames::{IoFault, Sink, Source};
use std::sync::atomic::AtomicU64;
use std::sync::atomic::Ordering::SeqCst;
use std::thread;

/// So often the client looks for an answer before it gives up.
const PATIENCE: u32 = 200_000_000;

/// What the client sends each time, how many bytes each answer has, and so many bytes of answers that needn't have come
/// before the next is sent.
#[derive(Clone, Copy)]
pub struct Step<'a> {
    pub request: &'a [u8],
    pub answer: u64,
    pub ahead: u64,
}

/// Gives the request so many times, each once enough before it are answered. Where an answer never comes, the input ends.
#[derive(Drop)]
pub struct Asking<'a> {
    pub step: Step<'a>,
    pub left: u32,
    pub wanted: u64,
    pub taken: &'a AtomicU64,
}

impl Source for Asking<'_> {
    ghost gave = { λ source bytes ending. Unit {0} };

    ghost failures = { λ source. 0 };

    ghost nothing_at_first = { λ source. tt };

    fn next(&mut self, room: &mut [u8]) -> Result<usize, IoFault> {
        if self.left == 0 {
            return Ok(0);
        }
        for _ in 0..PATIENCE {
            if self.taken.load(SeqCst).saturating_add(self.step.ahead) >= self.wanted {
                self.left = self.left.saturating_sub(1);
                self.wanted = self.wanted.saturating_add(self.step.answer);
                let count = self.step.request.len().min(room.len());
                room[..count].copy_from_slice(&self.step.request[..count]);
                return Ok(count);
            }
            thread::yield_now();
        }
        Ok(0)
    }

    fn failures(&self) -> u64 {
        0
    }
}

/// Counts the bytes that it takes, and keeps none.
#[derive(Drop)]
pub struct Counting<'a> {
    pub taken: &'a AtomicU64,
}

impl Sink for Counting<'_> {
    ghost bytes_taken = { λ sink. None };

    ghost failures = { λ sink. 0 };

    fn put(&mut self, bytes: &[u8]) -> Result<usize, IoFault> {
        self.taken.fetch_add(bytes.len() as u64, SeqCst);
        Ok(bytes.len())
    }

    fn flush(&mut self) -> Result<(), IoFault> {
        Ok(())
    }

    fn failures(&self) -> u64 {
        0
    }
}
