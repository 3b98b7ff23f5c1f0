//! What a unit is answered with.

ghost use Rattle.std.specs.Prelude.{◌≡◌, ◌++◌, [], IfOk, OnOk, OnErr, is_some, map, unwrap_or};
ghost use Rattle.rpc_messages.specs.Dues.{answer_seen, text_of, unit_text};

use crate::answer::put_answer;
use crate::kind::Kind;
use crate::reply::Reply;
use crate::rows::AnswerRow;
use message_ids::{Id, Standard};
use message_texts::write_array;
use std::alloc::{AllocError, Global};

/// What an entry is answered with.
#[derive(Clone, Copy)]
pub enum Answer<'a> {
    /// The reply to a request, under its id.
    Reply(&'a Id, &'a Reply),
    /// What is no request is answered with a fixed error under the id null.
    Error(Standard),
}

/// Puts the one text behind the bytes that a unit is answered with, of the answers that its entries have (JSON-RPC 2.0,
/// section 6), and tells whether there is one: where no entry has an answer the unit isn't answered. A single entry has
/// at most one.
pub fn put_unit_answer(
    alloc: Global,
    bytes: &mut Vec<u8>,
    kind: Kind,
    answers: &[Answer<'_>],
) -> Result<bool, AllocError>
    ensures text { IfOk result (λ some. bytes.new.items
        ≡ bytes.old.items ++ unwrap_or (unit_text kind (map answer_seen answers.now)) []) }
    ensures some { IfOk result (λ some.
        some ≡ is_some (unit_text kind (map answer_seen answers.now))) }
    ensures err { OnErr result (bytes.new.items ≡ bytes.old.items) }
{
    if answers.is_empty() {
        return Ok(false);
    }
    match kind {
        Kind::Single => put_one_answer(alloc, bytes, &answers[0])?,
        Kind::Batch => write_array(alloc, bytes, &AnswerRow { answers })?,
    }
    Ok(true)
}

pub(crate) fn put_one_answer(
    alloc: Global,
    bytes: &mut Vec<u8>,
    answer: &Answer<'_>,
) -> Result<(), AllocError>
    ensures text { OnOk result (bytes.new.items ≡
        bytes.old.items ++ text_of (answer_seen answer.now)) }
    ensures err { OnErr result (bytes.new.items ≡ bytes.old.items) }
{
    match answer {
        Answer::Reply(id, reply) => put_answer(alloc, bytes, id, reply),
        Answer::Error(standard) => {
            let reply = Reply::Standard(*standard);
            let id = Id::Null;
            let put = put_answer(alloc, bytes, &id, &reply);
            drop(id);
            drop(reply);
            put
        }
    }
}
