//! The frame of a content, and what a decoder gives where it finds no memory.

use lsp_frames::{Decoder, End, FeedFault, Frame, FrameFault, LARGEST_CONTENT, encode};
use std::alloc::{AllocError, AllocGlobal, Global};
use std::process::Abort;
use std::test::Fail;

/// Contents and their frames.
const WRITTEN: &[(&str, &str)] = &[
    ("", "Content-Length: 0\r\n\r\n"),
    (
        r#"{"jsonrpc":"2.0","method":"nope","id":1}"#,
        "Content-Length: 40\r\n\r\n{\"jsonrpc\":\"2.0\",\"method\":\"nope\",\"id\":1}",
    ),
];

fn are_written(alloc: Global) -> Result<bool, AllocError> {
    for (content, frame) in WRITTEN {
        if encode(alloc, content.as_bytes())?.as_slice() != frame.as_bytes() {
            return Ok(false);
        }
    }
    Ok(true)
}

#[test]
fn a_frame_is_written_with_its_length(rt: HostRuntime) -> Result<(), Fail> {
    assert!(rt; are_written(rt.alloc())?);
    Ok(())
}

const CONTENTS: &[&[u8]] = &[b"[]", br#"{"jsonrpc":"2.0","method":"nope","id":1}"#, b"1"];

const STREAM: &[u8] =
    b"Content-Length: 2\r\n\r\n[]content-length: 40\r\nX: y\r\n\r\n{\"jsonrpc\":\"2.0\",\"method\":\"nope\",\"id\":1}Content-Length: 1\r\n\r\n1x\r\n";

/// Compares the contents of frames, and tells how many have come with those before.
fn compared(rt: &impl Abort, frames: &[Frame], before: usize) -> usize {
    let mut seen = before;
    for frame in frames {
        if let Some(content) = CONTENTS.get(seen) {
            assert!(rt; frame.content.as_slice() == *content);
        }
        seen = seen.saturating_add(1);
    }
    seen
}

/// Feeds a piece until it is taken, and tells how many contents have come then.
fn fed_until_taken(rt: &impl Abort, decoder: &mut Decoder, piece: &[u8], before: usize) -> usize {
    for _ in 0..4 {
        match decoder.feed(piece) {
            Ok(frames) => return compared(rt, frames.as_slice(), before),
            Err(FeedFault::Ended(_, frames)) => return compared(rt, frames.as_slice(), before),
            Err(FeedFault::Memory) => {}
        }
    }
    before
}

/// Whether the stream in pieces of this size, which may be fed again, gives its contents up to its bad head.
fn is_taken_in_pieces(rt: &impl Abort, alloc: Global, size: usize) -> bool {
    let mut decoder = Decoder::new(alloc, LARGEST_CONTENT);
    let mut seen = 0;
    for piece in STREAM.chunks(size.max(1)) {
        seen = fed_until_taken(rt, &mut decoder, piece, seen);
    }
    seen == 3 && decoder.end() == End::Fault(FrameFault::BadHead)
}

/// A piece that was refused for memory is fed again. `bin/test` runs this test with each request for memory refused in turn.
#[test]
fn a_piece_is_taken_again_after_memory(rt: HostRuntime) {
    for size in [1, 7, 30, 200] {
        assert!(rt;
            is_taken_in_pieces(&rt, rt.alloc(), size),
            "in pieces of {size}"
        );
    }
}
