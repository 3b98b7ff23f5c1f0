//! What sources give and sinks take, byte for byte, and where they fail.

ghost use Rattle.std.specs.Prelude.{◌≤◌, length};

use crate::cuts;
use lsp_frames::{
    IoFault, MemSink, MemSource, PutFault, Sink, Source, StdSink, StdSource, put_all,
};
use std::alloc::{AllocError, Global};
use std::io::{self, Read, Write};
use std::process::Abort;
use std::test::Fail;

/// What a source's next call gives, or that it fails, and how many calls have failed then.
type Given = (Result<&'static str, IoFault>, u64);

/// Whether calls that have so much room, one after another, give these.
fn are_given<S: Source>(source: &mut S, most: usize, calls: &[Given]) -> bool {
    let mut bytes = [0; 16];
    for (given, failures) in calls {
        let Some(room) = bytes.get_mut(..most) else {
            return false;
        };
        if room.is_empty() {
            return false;
        }
        let is_given = match (source.next(room), given) {
            (Ok(count), Ok(text)) => count == text.len() && room.starts_with(text.as_bytes()),
            (Err(IoFault), Err(IoFault)) => true,
            _ => false,
        };
        if !is_given || source.failures() != *failures {
            return false;
        }
    }
    true
}

/// A call of a sink, and what it gives: of bytes that it may take some of, of bytes that are written whole, and of a flush.
enum Call {
    Put(&'static str, Result<usize, IoFault>),
    PutAll(&'static str, Result<(), PutFault>),
    Flush(Result<(), IoFault>),
}

/// A call of a sink, and how many calls have failed then.
type Taken = (Call, u64);

/// Whether the calls, one after another, give what they say.
fn are_taken<S: Sink>(sink: &mut S, calls: &[Taken]) -> bool {
    for (call, failures) in calls {
        let is_taken = match call {
            Call::Put(text, want) => !text.is_empty() && sink.put(text.as_bytes()) == *want,
            Call::PutAll(text, want) => put_all(sink, text.as_bytes()) == *want,
            Call::Flush(want) => sink.flush() == *want,
        };
        if !is_taken || sink.failures() != *failures {
            return false;
        }
    }
    true
}

/// A source's pieces, the call at which it fails, and what calls with room for three bytes give.
struct Pieces {
    name: &'static str,
    pieces: &'static [&'static [u8]],
    fault_at: Option<u32>,
    calls: &'static [Given],
}

const PIECES: &[Pieces] = &[
    Pieces {
        name: "pieces come in order, as room allows",
        pieces: &[b"", b"ab", b"", b"", b"cdefg", b""],
        fault_at: None,
        calls: &[
            (Ok("ab"), 0),
            (Ok("cde"), 0),
            (Ok("fg"), 0),
            (Ok(""), 0),
            (Ok(""), 0),
        ],
    },
    Pieces {
        name: "a fault at the second call, and at all later",
        pieces: &[b"1st", b"2nd"],
        fault_at: Some(2),
        calls: &[(Ok("1st"), 0), (Err(IoFault), 1), (Err(IoFault), 2)],
    },
    Pieces {
        name: "a fault behind the end",
        pieces: &[b"1st"],
        fault_at: Some(3),
        calls: &[(Ok("1st"), 0), (Ok(""), 0), (Err(IoFault), 1)],
    },
];

fn gives(alloc: Global, row: &Pieces) -> Result<bool, AllocError> {
    let mut source = MemSource::new(cuts::owned(alloc, row.pieces)?, row.fault_at);
    let are_given = are_given(&mut source, 3, row.calls);
    drop(source);
    Ok(are_given)
}

#[test]
fn pieces_come_in_order_and_calls_fail_from_a_fault_on(rt: HostRuntime) -> Result<(), Fail> {
    for row in PIECES {
        assert!(rt; gives(rt.alloc(), row)?, "{}", row.name);
    }
    Ok(())
}

/// Gives the bytes at its second call, and fails at each other.
#[derive(Drop)]
struct Interrupted<'a> {
    bytes: &'a [u8],
    calls: u32,
}

impl Read for Interrupted<'_> {
    fn read(&mut self, buf: &mut [u8]) -> io::Result<usize> {
        self.calls = self.calls.saturating_add(1);
        if self.calls != 2 {
            return Err(io::Error::from(io::ErrorKind::Interrupted));
        }
        self.bytes.read(buf)
    }
}

#[test]
fn a_reader_is_a_source_and_an_interrupted_read_a_failure(rt: HostRuntime) {
    let mut source = StdSource::new(Interrupted {
        bytes: b"abc",
        calls: 0,
    });
    let calls = &[(Err(IoFault), 1), (Ok("ab"), 1), (Err(IoFault), 2)];
    assert!(rt; are_given(&mut source, 2, calls));
    let mut source = StdSource::new(b"abc".as_slice());
    let calls = &[(Ok("ab"), 0), (Ok("c"), 0), (Ok(""), 0)];
    assert!(rt; are_given(&mut source, 2, calls));
}

/// Takes two bytes, then none, then fails; and counts its flushes, of which the second fails.
#[derive(Drop)]
struct Faint {
    writes: u32,
    flushes: u32,
}

impl Write for Faint {
    fn write(&mut self, buf: &[u8]) -> io::Result<usize> {
        self.writes = self.writes.saturating_add(1);
        match self.writes {
            1 => Ok(buf.len().min(2)),
            2 => Ok(0),
            _ => Err(io::Error::from(io::ErrorKind::Interrupted)),
        }
    }

    fn flush(&mut self) -> io::Result<()> {
        self.flushes = self.flushes.saturating_add(1);
        if self.flushes == 2 {
            return Err(io::Error::from(io::ErrorKind::Other));
        }
        Ok(())
    }
}

const FAINT: &[Taken] = &[
    (Call::PutAll("abc", Err(PutFault { taken: 2 })), 1),
    (Call::Put("c", Err(IoFault)), 2),
    (Call::Flush(Ok(())), 2),
    (Call::Flush(Err(IoFault)), 3),
];

const WHOLE: &[Taken] = &[(Call::PutAll("abc", Ok(())), 0), (Call::Flush(Ok(())), 0)];

#[test]
fn a_writer_is_a_sink_and_a_write_of_no_bytes_a_failure(rt: HostRuntime) {
    let mut writer = Faint {
        writes: 0,
        flushes: 0,
    };
    assert!(rt; are_taken(&mut StdSink::new(&mut writer), FAINT));
    assert!(rt; writer.writes == 3 && writer.flushes == 2);
    let mut bytes = Vec::new(rt.alloc());
    assert!(rt; are_taken(&mut StdSink::new(&mut bytes), WHOLE));
    assert!(rt; bytes.as_slice() == b"abc".as_slice());
}

const FRAME: &str =
    "Content-Length: 77\r\n\r\n{\"error\":{\"code\":-32601,\"message\":\"Method not found\"},\"id\":1,\"jsonrpc\":\"2.0\"}";

/// After how many bytes a sink stops, how many at most its puts take, its calls, and what it then holds.
struct Short {
    stop: Option<u64>,
    most: u32,
    calls: &'static [Taken],
    bytes: &'static [&'static str],
}

const SHORT: &[Short] = &[
    Short {
        stop: None,
        most: 7,
        calls: &[
            (Call::PutAll(FRAME, Ok(())), 0),
            (Call::PutAll("[]", Ok(())), 0),
        ],
        bytes: &[FRAME, "[]"],
    },
    Short {
        stop: Some(9),
        most: 7,
        calls: &[
            (Call::Put(FRAME, Ok(7)), 0),
            (Call::Put(FRAME, Ok(2)), 0),
            (Call::Put(FRAME, Err(IoFault)), 1),
            (Call::Flush(Ok(())), 1),
        ],
        bytes: &["ContentCo"],
    },
    Short {
        stop: Some(30),
        most: 1,
        calls: &[
            (Call::PutAll(FRAME, Err(PutFault { taken: 30 })), 1),
            (Call::PutAll(FRAME, Err(PutFault { taken: 0 })), 2),
            (Call::PutAll("", Ok(())), 2),
        ],
        bytes: &["Content-Length: 77\r\n\r\n{\"error\""],
    },
];

fn is_filled(alloc: Global, row: &Short) -> bool {
    let mut sink = MemSink::short(alloc, row.stop, row.most.max(1));
    let is_filled = are_taken(&mut sink, row.calls) && cuts::is_made_of(sink.bytes(), row.bytes);
    drop(sink);
    is_filled
}

#[test]
fn bytes_come_through_short_puts_up_to_a_stop(rt: HostRuntime) {
    for row in SHORT {
        assert!(rt; is_filled(rt.alloc(), row), "{:?}", row.stop);
    }
}

/// A put into a sink that has held so much and failed so often. Where it fails, the sink holds what it held.
fn takes_or_keeps(rt: &impl Abort, sink: &mut MemSink, rest: &[u8])
    requires { 1 ≤ length rest.now }
{
    let held = sink.bytes().len();
    let failed = sink.failures();
    let (taken, fault) = match sink.put(rest) {
        Ok(taken) => (taken, 0),
        Err(IoFault) => (0, 1),
    };
    assert!(rt; sink.bytes().len() == held.saturating_add(taken));
    assert!(rt; sink.failures() == failed.saturating_add(fault));
}

/// A growth that is refused is a failure of the sink, and leaves what it had. `bin/test` runs this test with each request for
/// memory refused in turn.
#[test]
fn a_refused_growth_is_a_failure_of_the_sink(rt: HostRuntime) {
    let mut sink = MemSink::short(rt.alloc(), None, 40);
    for _ in 0..4 {
        match FRAME.as_bytes().get(sink.bytes().len()..) {
            Some(rest) if !rest.is_empty() => takes_or_keeps(&rt, &mut sink, rest),
            _ => break,
        }
    }
    assert!(rt; sink.bytes() == FRAME.as_bytes());
}
