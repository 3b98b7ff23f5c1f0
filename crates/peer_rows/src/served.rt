//! What no clause says: that a server ends where its devices fail, and that nothing waits for anything that it needn't wait for.
//! (`checks/test_serving.py` has the output of the program fail at each place.)

mod held;

use crate::cuts;
use crate::plays::{METHODS, table};
use lsp_frames::{MemSink, MemSource};
use method_steps::Table;
use peer_session::{Close, Limits};
use rpc_peer::{ServeFault, serve};
use std::alloc::{AllocError, AllocGlobal, Global};
use std::process::Abort;
use std::sync::Wait;
use std::test::Fail;
use std::thread::Threads;

const ASK: &str = concat!(
    "Content-Length: 54\r\n\r\n",
    r#"{"jsonrpc":"2.0","method":"ask","params":["x"],"id":7}"#
);

/// What `ask` calls, as the first of the stream.
const CONFIRM: &str = concat!(
    "Content-Length: 62\r\n\r\n",
    r#"{"id":"1.1","jsonrpc":"2.0","method":"confirm","params":["x"]}"#
);

const REPLY: &str = concat!(
    "Content-Length: 42\r\n\r\n",
    r#"{"jsonrpc":"2.0","id":"1.1","result":true}"#
);

const CONFIRMED: &str = concat!(
    "Content-Length: 38\r\n\r\n",
    r#"{"id":7,"jsonrpc":"2.0","result":true}"#
);

const NO_REPLY: &str = concat!(
    "Content-Length: 69\r\n\r\n",
    r#"{"error":{"code":-32000,"message":"No reply"},"id":7,"jsonrpc":"2.0"}"#
);

const UNKNOWN: &str = concat!(
    "Content-Length: 40\r\n\r\n",
    r#"{"jsonrpc":"2.0","method":"nope","id":1}"#
);

const NOT_FOUND: &str = concat!(
    "Content-Length: 77\r\n\r\n",
    r#"{"error":{"code":-32601,"message":"Method not found"},"id":1,"jsonrpc":"2.0"}"#
);

/// The call at which a server's source fails, how many bytes its sink takes, how it ends, and what it writes.
#[derive(Drop)]
struct Row {
    fault_at: Option<u32>,
    stop: Option<u64>,
    end: Result<Close, ServeFault>,
    output: &'static [&'static str],
}

impl Row {
    /// Whether a server of two workers, to which these pieces come, ends so.
    fn is_served<R: Threads + Wait + Sync>(
        &self,
        rt: &R,
        alloc: Global,
        table: &Table,
        pieces: Vec<Vec<u8>>,
    ) -> bool {
        let source = MemSource::new(pieces, self.fault_at);
        let sink = MemSink::new(alloc, self.stop);
        let (end, sink) = match serve(rt, alloc, table, Limits::standard(), 2, source, sink) {
            Ok((report, sink)) => (Ok(report.end), sink),
            Err((fault, sink)) => (Err(fault), sink),
        };
        let is_served = end == self.end && cuts::is_made_of(sink.bytes(), self.output);
        drop(sink);
        is_served
    }
}

/// What a server writes and tells whose source gives a byte a call, and fails at this one.
fn cut_off(fault_at: u32) -> Row {
    let (end, output): (Close, &[&str]) = match fault_at {
        1..=76 => (Close::Read, &[]),
        77..=140 => (Close::Read, &[CONFIRM, NO_REPLY]),
        141 => (Close::Read, &[CONFIRM, CONFIRMED]),
        _ => (Close::Clean, &[CONFIRM, CONFIRMED]),
    };
    Row {
        fault_at: Some(fault_at),
        stop: None,
        end: Ok(end),
        output,
    }
}

fn each_is_cut_off<R: Threads + Wait + Sync + Abort>(
    rt: &R,
    alloc: Global,
    table: &Table,
) -> Result<(), AllocError> {
    let stream = cuts::texts(alloc, &[ASK, REPLY])?;
    for fault_at in 1..=142 {
        let pieces = cuts::bytewise(alloc, stream.as_slice())?;
        assert!(rt;
            cut_off(fault_at).is_served(rt, alloc, table, pieces),
            "at call {fault_at}"
        );
    }
    Ok(())
}

#[test]
fn a_source_may_fail_at_each_byte(rt: HostRuntime) -> Result<(), Fail> {
    assert!(rt; ASK.len() + REPLY.len() == 140);
    let table = table(rt.alloc(), METHODS)?;
    let done = each_is_cut_off(&rt, rt.alloc(), &table);
    drop(table);
    Ok(done?)
}

const SHORT: &[Row] = &[
    Row {
        fault_at: None,
        stop: Some(30),
        end: Err(ServeFault::Write),
        output: &["Content-Length: 77\r\n\r\n{\"error\""],
    },
    Row {
        fault_at: Some(2),
        stop: None,
        end: Ok(Close::Read),
        output: &[NOT_FOUND],
    },
];

#[test]
fn a_short_answer_is_cut_and_a_failed_read_is_told(rt: HostRuntime) -> Result<(), Fail> {
    let table = Table::empty(rt.alloc());
    for row in SHORT {
        let pieces = cuts::owned(rt.alloc(), &[UNKNOWN.as_bytes()])?;
        assert!(rt; row.is_served(&rt, rt.alloc(), &table, pieces));
    }
    drop(table);
    Ok(())
}
