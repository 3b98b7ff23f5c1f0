//! Contents that are taken again, and bytes that are written again, after want of memory.

use super::{METHODS, frame, framed};
use handler_future::Outcome;
use job_slots::Turns;
use lsp_frames::{Frame, StdSink};
use method_steps::Table;
use peer_session::{Close, Limits, Session};
use std::alloc::Global;
use std::io::{self, Write};

/// So often a call is made that finds no memory.
const TRIES: u32 = 4;

/// More turns than the methods of the stream have.
const TURNS: u32 = 16;

/// A call and its reply, a batch, two calls at once, a cancel, and an error that is kept.
const STREAM: &str = r#"< {"jsonrpc":"2.0","method":"ask","params":["x"],"id":7}
> {"id":"1.1","jsonrpc":"2.0","method":"confirm","params":["x"]}
< {"jsonrpc":"2.0","id":"1.1","result":true}
> {"id":7,"jsonrpc":"2.0","result":true}
< [{"jsonrpc":"2.0","method":"add","params":[2,3],"id":1},{"jsonrpc":"2.0","method":"add","params":[4,5]},{"foo":"boo"},{"jsonrpc":"2.0","method":"nope","id":"x"}]
> [{"id":1,"jsonrpc":"2.0","result":5},{"error":{"code":-32600,"message":"Invalid Request"},"id":null,"jsonrpc":"2.0"},{"error":{"code":-32601,"message":"Method not found"},"id":"x","jsonrpc":"2.0"}]
< {"jsonrpc":"2.0","method":"two","id":1}
> [{"id":"5.1","jsonrpc":"2.0","method":"a"},{"id":"5.2","jsonrpc":"2.0","method":"b"}]
< [{"jsonrpc":"2.0","id":"5.2","result":"B"},{"jsonrpc":"2.0","id":"5.1","result":"A"}]
> {"id":1,"jsonrpc":"2.0","result":["A","B"]}
< {"jsonrpc":"2.0","method":"ask","params":["y"],"id":9}
> {"id":"6.1","jsonrpc":"2.0","method":"confirm","params":["y"]}
< {"jsonrpc":"2.0","method":"$/cancelRequest","params":{"id":9}}
> {"jsonrpc":"2.0","method":"$/cancelRequest","params":{"id":"6.1"}}
> {"error":{"code":-32800,"message":"Request cancelled"},"id":9,"jsonrpc":"2.0"}
< {"jsonrpc":"2.0","method":"keep","id":1}
> {"id":"8.1","jsonrpc":"2.0","method":"confirm"}
> {"id":1,"jsonrpc":"2.0","result":{"error":{"code":-32000,"message":"No reply"},"ok":false}}
"#;

/// Compares what is written with what is wanted, and takes no memory.
#[derive(Drop)]
struct Compared<'a> {
    /// What is still to come.
    wanted: &'a [u8],
    differs: bool,
}

impl Write for Compared<'_> {
    fn write(&mut self, buf: &[u8]) -> io::Result<usize> {
        match self.wanted.strip_prefix(buf) {
            Some(rest) => self.wanted = rest,
            None => self.differs = true,
        }
        Ok(buf.len())
    }

    fn flush(&mut self) -> io::Result<()> {
        Ok(())
    }
}

/// How a stream went.
#[derive(Clone, Copy, PartialEq, Eq)]
enum Went {
    Whole,
    /// Up to a handler that found no memory while it was turned.
    ToAFailedHandler,
    /// Up to a call that found no memory however often it was made.
    NoFurther,
}

/// What is made at the first try or at a later one.
fn at_last<T, E: Drop, F: FnOnce(Global) -> Result<T, E> + Copy>(
    alloc: Global,
    make: F,
) -> Option<T>
    requires { F.IsAlwaysCallable make }
{
    for _ in 0..TRIES {
        if let Ok(made) = make(alloc) {
            return Some(made);
        }
    }
    None
}

/// Whether the session takes the content, at the first try or at a later one.
fn is_taken(session: &mut Session<'_>, frame: &Frame) -> bool {
    for _ in 0..TRIES {
        if session.is_open() && session.take(frame).is_ok() {
            return true;
        }
    }
    false
}

/// Whether what is due is written, at the first try or at a later one.
fn is_drained(session: &mut Session<'_>, written: &mut Compared<'_>) -> bool {
    for _ in 0..TRIES {
        if session.drain(&mut StdSink::new(&mut *written)).is_ok() {
            return true;
        }
    }
    false
}

/// Turns the first handler that is ready. Whether one was, and whether it found memory.
fn turned(session: &mut Session<'_>) -> Option<bool> {
    let mut job = session.next_job(0)?;
    job.turn();
    let has_failed = matches!(job.outcome, Some(Outcome::Failed));
    session.back(job);
    Some(!has_failed)
}

/// Writes what is due, and turns handlers until none is ready.
fn settled(session: &mut Session<'_>, written: &mut Compared<'_>) -> Went {
    for _ in 0..TURNS {
        if !is_drained(session, written) {
            return Went::NoFurther;
        }
        match turned(session) {
            None => return Went::Whole,
            Some(false) => return Went::ToAFailedHandler,
            Some(true) => {}
        }
    }
    Went::NoFurther
}

fn content_went(
    alloc: Global,
    session: &mut Session<'_>,
    content: &str,
    written: &mut Compared<'_>,
) -> Went {
    let Some(frame) = at_last(alloc, |alloc| frame(alloc, content)) else {
        return Went::NoFurther;
    };
    let is_taken = is_taken(session, &frame);
    drop(frame);
    if is_taken {
        settled(session, written)
    } else {
        Went::NoFurther
    }
}

fn stream_went(alloc: Global, session: &mut Session<'_>, written: &mut Compared<'_>) -> Went {
    for line in STREAM.lines() {
        if let Some(content) = line.strip_prefix("< ") {
            let went = content_went(alloc, session, content, written);
            if went != Went::Whole {
                return went;
            }
        }
    }
    session.end(Close::Clean);
    settled(session, written)
}

/// Whether the stream goes as it should, so far as its handlers find memory.
fn is_written(alloc: Global, session: &mut Session<'_>, wanted: &[u8]) -> bool {
    let mut written = Compared {
        wanted,
        differs: false,
    };
    let went = stream_went(alloc, session, &mut written);
    !written.differs
        && match went {
            Went::Whole => written.wanted.is_empty() && session.is_done(),
            Went::ToAFailedHandler => true,
            Went::NoFurther => false,
        }
}

/// The same of a new session, where there is memory for one.
fn is_written_by_a_session(alloc: Global, table: &Table, wanted: &[u8]) -> Option<bool> {
    let mut session = at_last(
        alloc,
        |alloc| Session::new(alloc, table, Limits::standard()),
    )?;
    let is_written = is_written(alloc, &mut session, wanted);
    drop(session);
    Some(is_written)
}

/// A content that found no memory is taken again, and what found none to be written is written again: then all comes as if there
/// had been memory at once. `bin/test` runs this test with each request for memory refused in turn.
#[test]
fn contents_are_taken_and_written_again_after_memory(rt: HostRuntime) {
    let alloc = rt.alloc();
    let table = at_last(alloc, |alloc| Table::read(alloc, METHODS.as_bytes())).expect(
        &rt, "a table",
    );
    let wanted = at_last(alloc, |alloc| framed(alloc, STREAM, "> ")).expect(&rt, "what is wanted");
    let is_written = is_written_by_a_session(alloc, &table, wanted.as_slice());
    drop(wanted);
    drop(table);
    assert!(rt; is_written.expect(&rt, "a session"));
}
