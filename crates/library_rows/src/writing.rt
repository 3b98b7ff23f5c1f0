//! Texts that are written where the writer itself is called, and keys that are read.

use crate::rows::{each_row, json};
use json_values::Text;
use rpc_messages::{
    Id, Outgoing, Reply, Standard, answer_text, batch_text, call_key, call_text, calls_text,
    notice_text, read_key, withdraw_text,
};
use std::alloc::{AllocError, Global};
use std::test::Fail;

/// What a text is of.
enum Of {
    /// The answer to the request 1 that there is no such method.
    Answer,
    /// A batch of the answer to one invalid request.
    Batch,
    /// Call `1.1` of `confirm`, with the params `["x"]`.
    Call,
    /// A batch of the calls `1.1` of `a` and `1.2` of `b`.
    Calls,
    /// A notification `log`, with the params `["x"]`.
    Notice,
    /// The withdrawal of call `1.1`.
    Withdrawal,
}

/// Texts, their lengths, and what each is of.
const TEXTS: &[(&str, (usize, Of))] = &[
    (
        r#"{"error":{"code":-32601,"message":"Method not found"},"id":1,"jsonrpc":"2.0"}"#,
        (77, Of::Answer),
    ),
    (
        r#"[{"error":{"code":-32600,"message":"Invalid Request"},"id":null,"jsonrpc":"2.0"}]"#,
        (81, Of::Batch),
    ),
    (
        r#"{"id":"1.1","jsonrpc":"2.0","method":"confirm","params":["x"]}"#,
        (62, Of::Call),
    ),
    (
        r#"[{"id":"1.1","jsonrpc":"2.0","method":"a"},{"id":"1.2","jsonrpc":"2.0","method":"b"}]"#,
        (85, Of::Calls),
    ),
    (
        r#"{"jsonrpc":"2.0","method":"log","params":["x"]}"#,
        (47, Of::Notice),
    ),
    (
        r#"{"jsonrpc":"2.0","method":"$/cancelRequest","params":{"id":"1.1"}}"#,
        (66, Of::Withdrawal),
    ),
];

fn answer(alloc: Global, id: &Id, standard: Standard) -> Result<Vec<u8>, AllocError> {
    let reply = Reply::Standard(standard);
    let text = answer_text(alloc, id, &reply);
    drop(reply);
    text
}

fn batch(alloc: Global) -> Result<Vec<u8>, AllocError> {
    let invalid = answer(alloc, &Id::Null, Standard::InvalidRequest)?;
    batch_text(alloc, &[invalid])
}

fn bare(alloc: Global, method: &str) -> Result<Outgoing, AllocError> {
    Ok(Outgoing {
        method: Text::copy_of(alloc, method)?,
        params: None,
    })
}

/// A message with the params `["x"]`.
fn message(alloc: Global, method: &str) -> Result<Outgoing, Fail> {
    let mut message = bare(alloc, method)?;
    message.params = Some(json(alloc, r#"["x"]"#)?);
    Ok(message)
}

fn call(alloc: Global) -> Result<Vec<u8>, Fail> {
    let message = message(alloc, "confirm")?;
    let text = call_text(alloc, 1, 1, &message);
    drop(message);
    Ok(text?)
}

fn notice(alloc: Global) -> Result<Vec<u8>, Fail> {
    let message = message(alloc, "log")?;
    let text = notice_text(alloc, &message);
    drop(message);
    Ok(text?)
}

fn calls(alloc: Global) -> Result<Vec<u8>, AllocError> {
    let calls = [bare(alloc, "a")?, bare(alloc, "b")?];
    let text = calls_text(alloc, 1, 1, &calls);
    drop(calls);
    text
}

fn written(alloc: Global, of: &Of) -> Result<Vec<u8>, Fail> {
    match of {
        Of::Answer => Ok(answer(alloc, &Id::Unsigned(1), Standard::MethodNotFound)?),
        Of::Batch => Ok(batch(alloc)?),
        Of::Call => call(alloc),
        Of::Calls => Ok(calls(alloc)?),
        Of::Notice => notice(alloc),
        Of::Withdrawal => Ok(withdraw_text(alloc, 1, 1)?),
    }
}

fn is_written(alloc: Global, text: &str, row: &(usize, Of)) -> Result<bool, Fail> {
    let written = written(alloc, &row.1)?;
    Ok(written.len() == row.0 && written.as_slice() == text.as_bytes())
}

#[test]
fn each_text_is_of_what_stands_beside_it(rt: HostRuntime) -> Result<(), Fail> {
    each_row(&rt, rt.alloc(), TEXTS, is_written)
}

/// Texts, and the number and the turn of the call that each is the key of.
const KEYS: &[(&str, Option<(u32, u32)>)] = &[
    ("1.1", Some((1, 1))),
    ("0.1", Some((0, 1))),
    ("1000000.1024", Some((1_000_000, 1_024))),
    ("01.1", None),
    ("1.0", None),
    ("1.1025", None),
    ("1000001.1", None),
    ("1", None),
];

fn is_key(alloc: Global, text: &str, key: &Option<(u32, u32)>) -> Result<bool, AllocError> {
    let is_written = match key {
        Some((number, turn)) => call_key(alloc, *number, *turn)?.as_str() == text,
        None => true,
    };
    Ok(is_written && read_key(text) == *key)
}

#[test]
fn keys_are_two_decimals_with_a_dot_between(rt: HostRuntime) -> Result<(), Fail> {
    each_row(&rt, rt.alloc(), KEYS, is_key)
}
