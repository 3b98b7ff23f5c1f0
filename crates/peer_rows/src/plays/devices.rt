//! Sinks that take few bytes at once, and sinks that stop.

use super::{METHODS, framed, table};
use crate::cuts;
use lsp_frames::MemSink;
use method_steps::Table;
use peer_player::{Picks, Schedule, play_to};
use peer_session::{DrainFault, Limits};
use std::alloc::Global;
use std::process::Abort;
use std::test::Fail;

const ROW: &str = r#"< {"jsonrpc":"2.0","method":"ask","params":["x"],"id":7}
< {"jsonrpc":"2.0","id":"1.1","result":true}
> {"id":"1.1","jsonrpc":"2.0","method":"confirm","params":["x"]}
> {"id":7,"jsonrpc":"2.0","result":true}
"#;

/// How a play of the pieces into a sink ends, and what the sink holds then.
fn played(
    alloc: Global,
    table: &Table,
    pieces: &[Vec<u8>],
    sink: MemSink,
) -> (Result<(), DrainFault>, Vec<u8>) {
    let schedule = Schedule {
        lazy: false,
        picks: Picks::First,
    };
    let played = play_to(alloc, table, Limits::standard(), pieces, &schedule, sink);
    drop(schedule);
    match played {
        Ok((_, sink)) => (Ok(()), sink.into_vec()),
        Err((fault, sink)) => (Err(fault), sink.into_vec()),
    }
}

/// Plays the row into a sink that takes one byte at once, and into sinks that stop, the last of them behind the last byte.
fn fills(rt: &impl Abort, alloc: Global, table: &Table, pieces: &[Vec<u8>], wanted: &[u8]) {
    let (end, written) = played(alloc, table, pieces, MemSink::short(alloc, None, 1));
    assert!(rt; end == Ok(()) && written.as_slice() == wanted && wanted.len() == 144);
    for stop in 0..=144 {
        let sink = MemSink::new(alloc, Some(stop as u64));
        let (end, written) = played(alloc, table, pieces, sink);
        assert!(rt;
            end.is_ok() == (stop == 144) && end != Err(DrainFault::Memory),
            "{stop}"
        );
        assert!(rt; wanted.get(..stop) == Some(written.as_slice()), "{stop}");
    }
}

#[test]
fn short_writes_and_stops_at_each_byte(rt: HostRuntime) -> Result<(), Fail> {
    let input = framed(rt.alloc(), ROW, "< ")?;
    let pieces = cuts::owned(rt.alloc(), &[input.as_slice()])?;
    let wanted = framed(rt.alloc(), ROW, "> ")?;
    let table = table(rt.alloc(), METHODS)?;
    fills(
        &rt,
        rt.alloc(),
        &table,
        pieces.as_slice(),
        wanted.as_slice(),
    );
    drop(table);
    Ok(())
}
