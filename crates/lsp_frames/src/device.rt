//! Where bytes come from and where they go to.

ghost use Rattle.std.specs.Prelude.{◌≡◌, ◌<◌, ◌≤◌, ℕ, List, [], Option, None, length, take, IfOk, IfErr, OnOk};
ghost use Rattle.std.specs.Io.KnownBytes.{Keeps, Appends, WriteAppends};
ghost use Rattle.lsp_frames.specs.Devices.{CountsFailure, Ending, Unfinished, GivesNext, HandsOnAll};

/// A device failed; its count of failures tells so too.
#[derive(Clone, Copy, Debug, PartialEq, Eq)]
pub struct IoFault;

/// Where bytes come from, in whatever pieces.
pub trait Source {
    /// It gives these bytes, and then comes to this ending.
    ghost gave: { Self → List ℕ → Ending → Type 0 };

    /// How many of its calls have failed, up to u64's greatest value.
    ghost failures: { Self → ℕ };

    /// Puts the next bytes at the front of the room, and tells how many. 0 is the end.
    fn next(&mut self, room: &mut [u8]) -> Result<usize, IoFault>
        requires { 0 < length room.old }
        ensures count { IfOk result (λ n. n ≤ length room.new) }
        ensures gives { GivesNext (gave self.old) (gave self.new) result room.new }
        ensures cause { CountsFailure (failures self.old) (failures self.new) result };

    fn failures(&self) -> u64
        ensures { result ≡ failures self.now };

    /// Nothing is given before something was asked for.
    ghost nothing_at_first: { (source : Self) → gave source [] Unfinished };
}

/// Where bytes go to.
pub trait Sink {
    /// The bytes that it has taken, where they are known.
    ghost bytes_taken: { Self → Option (List ℕ) };

    /// The bytes that it has handed on, where they are known: those that it had taken by its last flush.
    ghost handed_on: { Self → Option (List ℕ) } = { λ _. None };

    /// How many of its calls have failed, up to u64's greatest value.
    ghost failures: { Self → ℕ };

    /// Takes some of the bytes, from their front, and tells how many.
    fn put(&mut self, bytes: &[u8]) -> Result<usize, IoFault>
        requires { 0 < length bytes.now }
        ensures count { IfOk result (λ n. (0 < n) × (n ≤ length bytes.now)) }
        ensures bytes { WriteAppends (bytes_taken self.old)
            (bytes_taken self.new) result bytes.now }
        ensures cause { CountsFailure (failures self.old) (failures self.new) result };

    /// Hands on what was taken and is still kept.
    fn flush(&mut self) -> Result<(), IoFault>
        ensures bytes { Keeps (bytes_taken self.old) (bytes_taken self.new) }
        ensures handed_on { OnOk result (HandsOnAll (handed_on self.new) (bytes_taken self.new)) }
        ensures cause { CountsFailure (failures self.old) (failures self.new) result };

    fn failures(&self) -> u64
        ensures { result ≡ failures self.now };
}

/// A sink failed before it had taken all.
#[derive(Clone, Copy, Debug, PartialEq, Eq)]
pub struct PutFault {
    /// So many of the bytes were taken, from their front.
    pub taken: usize,
}

/// Puts until all the bytes are taken, however few a put takes, or until the sink fails.
pub fn put_all<S: Sink>(sink: &mut S, bytes: &[u8]) -> Result<(), PutFault>
    ensures all { OnOk result (Appends (S.bytes_taken sink.old)
        (S.bytes_taken sink.new) bytes.now) }
    ensures part { IfErr result (λ fault.
        Appends (S.bytes_taken sink.old) (S.bytes_taken sink.new) (take fault.taken bytes.now)) }
    ensures short { IfErr result (λ fault. fault.taken < length bytes.now) }
    ensures cause { CountsFailure (S.failures sink.old) (S.failures sink.new) result }
{
    let mut taken = 0;
    while taken < bytes.len() {
        match sink.put(&bytes[taken..]) {
            Ok(n) => taken += n,
            Err(IoFault) => return Err(PutFault { taken }),
        }
    }
    Ok(())
}
