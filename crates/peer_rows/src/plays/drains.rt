//! What a drain hands on: the sink of a session is written to once and flushed once where a drain has something to
//! write, and else not at all. However much is due, one drain writes it.

use super::{METHODS, frame, table};
use job_slots::Turns;
use lsp_frames::{Frame, StdSink};
use method_steps::Table;
use peer_session::{Limits, Session};
use rpc_peer::Framing;
use std::alloc::{AllocError, Global};
use std::io::{self, Write};
use std::process::Abort;
use std::test::Fail;

/// Takes all bytes, and counts them, its writes and its flushes, and the bytes that stood before the last of these.
#[derive(PartialEq, Eq, Drop)]
struct Counter {
    bytes: usize,
    writes: u32,
    flushes: u32,
    handed_on: usize,
}

/// Before the first call.
const NO_CALL: Counter = Counter {
    bytes: 0,
    writes: 0,
    flushes: 0,
    handed_on: 0,
};

impl Write for Counter {
    fn write(&mut self, buf: &[u8]) -> io::Result<usize> {
        self.bytes = self.bytes.saturating_add(buf.len());
        self.writes = self.writes.saturating_add(1);
        Ok(buf.len())
    }

    fn flush(&mut self) -> io::Result<()> {
        self.flushes = self.flushes.saturating_add(1);
        self.handed_on = self.bytes;
        Ok(())
    }
}

/// A session's contents, and how many bytes and flushes its counter has after the drain behind each. It has as many
/// writes.
const DRAINS: &[(&str, usize, u32)] = &[
    (r#"{"jsonrpc":"2.0","method":"nope"}"#, 0, 0),
    (r#"{"jsonrpc":"2.0","method":"nope","id":1}"#, 99, 1),
    (r#"{"jsonrpc":"2.0","id":"1.1","result":true}"#, 99, 1),
    ("[1,2]", 283, 2),
];

/// Whether the counter has so many bytes, all handed on, and so many writes and flushes, once the session has written
/// what is due.
fn is_drained(session: &mut Session<'_>, to: &mut Counter, bytes: usize, times: u32) -> bool {
    let is_written = session.drain(&mut StdSink::new(&mut *to)).is_ok();
    is_written
        && (to.bytes, to.handed_on) == (bytes, bytes)
        && (to.writes, to.flushes) == (times, times)
}

/// Each content and its drain, and a drain behind the last.
fn each_is_drained(
    rt: &impl Abort,
    alloc: Global,
    session: &mut Session<'_>,
) -> Result<(), AllocError> {
    let mut counter = NO_CALL;
    for (content, bytes, times) in DRAINS {
        let frame = frame(alloc, content)?;
        if session.is_open() {
            session.take(&frame)?;
        }
        for _ in 0..2 {
            assert!(rt;
                is_drained(session, &mut counter, *bytes, *times),
                "{content}"
            );
        }
    }
    Ok(())
}

fn by_a_session(rt: &impl Abort, alloc: Global, table: &Table) -> Result<(), AllocError> {
    let mut session = Session::new(alloc, table, Limits::standard())?;
    let done = each_is_drained(rt, alloc, &mut session);
    drop(session);
    done
}

#[test]
fn a_drain_flushes_what_it_has_written(rt: HostRuntime) -> Result<(), Fail> {
    let table = table(rt.alloc(), METHODS)?;
    let done = by_a_session(&rt, rt.alloc(), &table);
    drop(table);
    Ok(done?)
}

/// So many answers and so many calls are due at once.
const DUE: u32 = 1_001;

/// Is answered at once, with 77 bytes.
const UNKNOWN: &str = r#"{"jsonrpc":"2.0","method":"nope","id":1}"#;

/// Its handler makes a call as it is turned, of 65 bytes where its number has four figures.
const ASK: &str = r#"{"jsonrpc":"2.0","method":"ask","params":["x"],"id":7}"#;

/// The bytes of all that is due, in each framing: in frames each text has a head of 22 bytes, in lines an LF.
const WHOLE: &[(Framing, usize)] = &[(Framing::Frames, 186_186), (Framing::Lines, 144_144)];

fn takes_all(session: &mut Session<'_>, frame: &Frame) -> Result<bool, AllocError> {
    for _ in 0..DUE {
        if !session.is_open() {
            return Ok(false);
        }
        session.take(frame)?;
    }
    Ok(true)
}

/// Turns so many handlers, the first of those that are ready each time.
fn turns_all(session: &mut Session<'_>) -> bool {
    for _ in 0..DUE {
        let Some(mut job) = session.next_job(0) else {
            return false;
        };
        job.turn();
        session.back(job);
    }
    true
}

/// Whether one drain writes all answers and calls in one piece, and flushes once.
fn is_drained_at_once(
    alloc: Global,
    session: &mut Session<'_>,
    framing: Framing,
    bytes: usize,
) -> Result<bool, AllocError> {
    let is_taken = takes_all(session, &frame(alloc, UNKNOWN)?)?
        && takes_all(session, &frame(alloc, ASK)?)?
        && turns_all(session);
    let mut counter = NO_CALL;
    let is_written = session
        .drain_in(framing, &mut StdSink::new(&mut counter))
        .is_ok();
    let report = session.report();
    Ok(
        is_taken
            && is_written
            && (counter.bytes, counter.handed_on) == (bytes, bytes)
            && (counter.writes, counter.flushes) == (1, 1)
            && (report.answers, report.messages) == (u64::from(DUE), u64::from(DUE)),
    )
}

fn by_a_new_session(
    alloc: Global,
    table: &Table,
    framing: Framing,
    bytes: usize,
) -> Result<bool, AllocError> {
    let mut session = Session::new(alloc, table, Limits::standard())?;
    let is_drained = is_drained_at_once(alloc, &mut session, framing, bytes);
    drop(session);
    is_drained
}

#[test]
fn a_drain_writes_all_that_is_due(rt: HostRuntime) -> Result<(), Fail> {
    let table = table(rt.alloc(), METHODS)?;
    for (framing, bytes) in WHOLE {
        let is_drained = by_a_new_session(rt.alloc(), &table, *framing, *bytes);
        assert!(rt; is_drained?, "{bytes}");
    }
    drop(table);
    Ok(())
}
