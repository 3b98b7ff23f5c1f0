//! A sink in memory.

ghost use Rattle.std.specs.Prelude.{◌≡◌, ◌<◌, ◌≤◌, Some, None, IsOk, [], length, IfOk, IfSome};
ghost use Rattle.std.specs.Io.KnownBytes.{WriteAppends};
ghost use Rattle.lsp_frames.specs.Devices.{CountsFailure};
ghost use Rattle.lsp_frames.specs.MemDevices.{at_most, room_for};

use crate::device::{IoFault, Sink};
use std::alloc::Global;
use std::marker::Model;

/// Keeps the bytes that it takes. It can be told to fail once it is full, and to take few at once; it fails too where
/// there is no memory for the bytes.
#[derive(Drop)]
pub struct MemSink {
    bytes: Vec<u8>,
    stop: Option<u64>,
    most: Option<u64>,
    failures: u64,
}

impl Model for MemSink {
    ghost use Rattle.std.specs.Prelude.{◌≤◌, IfSome, length};
    ghost use Rattle.lsp_frames.specs.MemDevices.{Taking};

    ghost Value = { Taking };

    ghost view = { λ sink. record {
      taken = sink.bytes.items;
      stop = sink.stop;
      most = sink.most;
      failures = sink.failures;
    } };

    ghost invariant = { λ sink. IfSome sink.stop (λ stop. length sink.bytes.items ≤ stop) };
}

/// As many as are wanted, where that isn't over the limit.
fn at_most(limit: Option<u64>, wanted: usize) -> usize
    ensures { result ≡ at_most limit wanted }
{
    match limit {
        Some(most) if most < wanted as u64 => most as usize,
        _ => wanted,
    }
}

impl MemSink {
    /// Takes `stop` bytes and then fails; without a number it takes all. Takes no memory.
    pub fn new(alloc: Global, stop: Option<u64>) -> Self
        ensures { result ≡ record { taken = []; stop = stop; most = None; failures = 0 } }
    {
        MemSink {
            bytes: Vec::new(alloc),
            stop,
            most: None,
            failures: 0,
        }
    }

    /// The same, of which a put takes at most `most` bytes. Takes no memory.
    pub fn short(alloc: Global, stop: Option<u64>, most: u32) -> Self
        requires { 1 ≤ most }
        ensures { result ≡ record { taken = []; stop = stop; most = Some most; failures = 0 } }
    {
        MemSink {
            bytes: Vec::new(alloc),
            stop,
            most: Some(u64::from(most)),
            failures: 0,
        }
    }

    /// All that it has taken.
    pub fn bytes(&self) -> &[u8]
        ensures taken { result.now ≡ self.now.taken }
        ensures stop { IfSome self.now.stop (λ stop. length result.now ≤ stop) }
    {
        self.bytes.as_slice()
    }

    /// All that it has taken. Takes no memory.
    pub fn into_vec(self) -> Vec<u8>
        ensures { result.items ≡ self.taken }
    {
        let MemSink { bytes, .. } = self;
        bytes
    }

    fn room_for(&self, wanted: usize) -> usize
        ensures { result ≡ room_for self.now wanted }
    {
        let left = self.stop.map(|stop| stop - self.bytes.len() as u64);
        at_most(self.most, at_most(left, wanted))
    }
}

impl Sink for MemSink {
    ghost bytes_taken = { λ sink. Some sink.taken };

    ghost handed_on = { λ sink. Some sink.taken };

    ghost failures = { λ sink. sink.failures };

    fn put(&mut self, bytes: &[u8]) -> Result<usize, IoFault>
        requires { 0 < length bytes.now }
        ensures count { IfOk result (λ n. (0 < n) × (n ≤ length bytes.now)) }
        ensures bytes { WriteAppends (Some self.old.taken) (Some self.new.taken) result bytes.now }
        ensures cause { CountsFailure self.old.failures self.new.failures result }
        ensures exact { IfOk result (λ n. n ≡ room_for self.old (length bytes.now)) }
        ensures limits { (self.new.stop ≡ self.old.stop) × (self.new.most ≡ self.old.most) }
    {
        let count = self.room_for(bytes.len());
        if count > 0 && self.bytes.extend_from_slice(&bytes[..count]).is_ok() {
            return Ok(count);
        }
        self.failures = self.failures.saturating_add(1);
        Err(IoFault)
    }

    /// Never fails.
    fn flush(&mut self) -> Result<(), IoFault>
        ensures bytes { self.new ≡ self.old }
        ensures done { IsOk result }
    {
        Ok(())
    }

    fn failures(&self) -> u64 {
        self.failures
    }
}
