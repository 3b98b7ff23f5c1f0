//! The smallest host: it serves standard input, a content a line, and answers each request with its params.
#![tactic(auto)]

use connection::{Answer, Call, Connection, Event, Framing, HowEnded, Order, Refused, Settings};
use json_texts::JsonText;
use message_ids::Standard;
use std::alloc::{AllocError, Global};
use std::io::{self, ErrorKind, Read, Write};

fn main(rt: HostRuntime) -> io::Result<()> {
    let settings = Settings::new(Framing::Lines, Order::AsAnswered, None, 100_000, u64::MAX);
    let Some(settings) = settings else {
        return Err(ErrorKind::InvalidInput.into());
    };
    let mut connection = movable(Connection::new(rt.alloc(), settings));
    serve(
        rt.alloc(),
        &mut connection,
        &mut rt.stdin(),
        &mut rt.stdout(),
    )
}

/// A connection may go to another thread, and be lent to several.
fn movable<T: Send + Sync>(connection: T) -> T {
    connection
}

fn serve<I: Read, W: Write>(
    alloc: Global,
    connection: &mut Connection,
    input: &mut I,
    output: &mut W,
) -> io::Result<()> {
    let mut room = [0u8; 4096];
    let mut block = Vec::new(alloc);
    for _ in 0..u64::MAX {
        let count = input.read(&mut room)?;
        feed(connection, &room[..count]).or(Err(ErrorKind::OutOfMemory))?;
        hear(alloc, connection).or(Err(ErrorKind::OutOfMemory))?;
        put(connection, &mut block, output)?;
        if count == 0 {
            break;
        }
    }
    Ok(())
}

/// Feeds what was read, or says that the input is closed.
fn feed(connection: &mut Connection, bytes: &[u8]) -> Result<(), Refused> {
    if bytes.is_empty() {
        return connection.end(HowEnded::Closed);
    }
    connection.feed(bytes)
}

/// Takes the events that there are.
fn hear(alloc: Global, connection: &mut Connection) -> Result<(), Refused> {
    for _ in 0..u64::MAX {
        let Some(event) = next(connection)? else {
            break;
        };
        handle(alloc, connection, event)?;
    }
    Ok(())
}

// (what is done with an event needs nothing of what `next_event` promises, and this keeps that out of the loop)
fn next(connection: &mut Connection) -> Result<Option<Event>, AllocError> {
    connection.next_event()
}

/// Answers a call.
fn handle(alloc: Global, connection: &mut Connection, event: Event) -> Result<(), Refused> {
    match event {
        Event::Call { number, call } => connection.answer(number, &answer_to(alloc, &call)?),
        _other => Ok(()),
    }
}

/// Its params are a call's result.
fn answer_to(alloc: Global, call: &Call) -> Result<Answer, AllocError> {
    let Some(params) = &call.params else {
        return Ok(Answer::Standard(Standard::MethodNotFound));
    };
    match JsonText::parse(alloc, params.as_bytes())? {
        Some(text) => Ok(Answer::Result(text)),
        None => Ok(Answer::Standard(Standard::InvalidParams)),
    }
}

/// Writes what is to be written, block by block.
fn put<W: Write>(
    connection: &mut Connection,
    block: &mut Vec<u8>,
    output: &mut W,
) -> io::Result<()> {
    for _ in 0..u64::MAX {
        take(connection, block);
        if block.is_empty() {
            break;
        }
        output.write_all(block.as_slice())?;
    }
    output.flush()
}

fn take(connection: &mut Connection, block: &mut Vec<u8>) {
    connection.take(block);
}
