//! The readers and writers of std as devices. Each error counts as a failure, an interrupted call too.

ghost use Rattle.std.specs.Prelude.{◌≡◌, IfSome};
ghost use Rattle.lsp_frames.specs.Devices.{GivesFrontOf};
ghost use Rattle.lsp_frames.specs.Inner.DeviceLaws.{gives_nothing_at_first};

use crate::device::{IoFault, Sink, Source};
use std::io::{Read, Write};

/// The bytes that a reader gives. Where what it holds is known, they are a front of that, and all of it at the end.
#[derive(Drop)]
pub struct StdSource<R> {
    reader: R,
    failures: u64,
}

impl<R: Read> StdSource<R> {
    /// Takes no memory.
    pub fn new(reader: R) -> Self
        ensures { result ≡ record { reader = reader; failures = 0 } }
    {
        StdSource {
            reader,
            failures: 0,
        }
    }
}

impl<R: Read> Source for StdSource<R> {
    ghost gave = { λ source bytes ending.
        IfSome (R.remaining source.reader) (λ held. GivesFrontOf held bytes ending) };

    ghost failures = { λ source. source.failures };

    ghost nothing_at_first = { λ source. gives_nothing_at_first (R.remaining source.reader) };

    fn next(&mut self, room: &mut [u8]) -> Result<usize, IoFault> {
        match self.reader.read(room) {
            Ok(count) => Ok(count),
            Err(_) => {
                self.failures = self.failures.saturating_add(1);
                Err(IoFault)
            }
        }
    }

    fn failures(&self) -> u64 {
        self.failures
    }
}

/// A writer takes the bytes. A write of 0 bytes counts as a failure.
#[derive(Drop)]
pub struct StdSink<W> {
    writer: W,
    failures: u64,
}

impl<W: Write> StdSink<W> {
    /// Takes no memory.
    pub fn new(writer: W) -> Self
        ensures { result ≡ record { writer = writer; failures = 0 } }
    {
        StdSink {
            writer,
            failures: 0,
        }
    }
}

impl<W: Write> Sink for StdSink<W> {
    ghost bytes_taken = { λ sink. W.contents sink.writer };

    ghost handed_on = { λ sink. W.contents sink.writer };

    ghost failures = { λ sink. sink.failures };

    fn put(&mut self, bytes: &[u8]) -> Result<usize, IoFault> {
        match self.writer.write(bytes) {
            Ok(count) if count > 0 => Ok(count),
            _ => {
                self.failures = self.failures.saturating_add(1);
                Err(IoFault)
            }
        }
    }

    fn flush(&mut self) -> Result<(), IoFault> {
        match self.writer.flush() {
            Ok(()) => Ok(()),
            Err(_) => {
                self.failures = self.failures.saturating_add(1);
                Err(IoFault)
            }
        }
    }

    fn failures(&self) -> u64 {
        self.failures
    }
}
