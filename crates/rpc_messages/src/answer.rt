//! The texts of answers to requests of the other side.

ghost use Rattle.std.specs.Prelude.{◌≡◌, ◌≤◌, ◌<◌, ◌++◌, Some, List, IfOk, OnOk, OnErr, decimal, length, map, option_map};
ghost use Rattle.serde_json.specs.Data.{Data, boolean, depth, array};
ghost use Rattle.serde_json.specs.Read.{read, max_depth};
ghost use Rattle.serde_json.specs.View.{items_of};
ghost use Rattle.serde_json.specs.Written.{compact_text};
ghost use Rattle.message_texts.specs.Texts.{IdFits, CodeFits, error_answer_text, error_text, result_text};
ghost use Rattle.rpc_messages.specs.Parts.{IsReadBack, AreReadBack};
ghost use Rattle.rpc_messages.specs.Texts.{answer_of, answer_text_of, batch_text_of, AreTextsOf};

use crate::error_value::ErrorValue;
use crate::parts::{lent, optional_text};
use crate::reply::Reply;
use crate::rows::TextRow;
use itoa::Buffer;
use json_values::Json;
use message_ids::Id;
use message_texts::{write_array, write_error, write_fixed_error, write_result};
use std::alloc::{AllocError, Global};

/// The text of a response (JSON-RPC 2.0, section 5), with no space.
pub fn answer_text(alloc: Global, id: &Id, reply: &Reply) -> Result<Vec<u8>, AllocError>
    ensures text { IfOk result (λ bytes. bytes.items ≡ answer_text_of id.now reply.now) }
    ensures reads_back { IfOk result (λ bytes. depth (answer_of id.now reply.now) ≤ max_depth
        → read bytes.items ≡ Some (answer_of id.now reply.now)) }
{
    let mut bytes = Vec::new(alloc);
    put_answer(alloc, &mut bytes, id, reply)?;
    Ok(bytes)
}

/// Puts the text of a response (JSON-RPC 2.0, section 5) behind the bytes, with no space.
pub fn put_answer(
    alloc: Global,
    bytes: &mut Vec<u8>,
    id: &Id,
    reply: &Reply,
) -> Result<(), AllocError>
    ensures text { OnOk result (bytes.new.items ≡
        bytes.old.items ++ answer_text_of id.now reply.now) }
    ensures reads_back { OnOk result (depth (answer_of id.now reply.now) ≤ max_depth
        → read (answer_text_of id.now reply.now) ≡ Some (answer_of id.now reply.now)) }
    ensures err { OnErr result (bytes.new.items ≡ bytes.old.items) }
{
    match reply {
        Reply::Done(value) => put_done(alloc, bytes, id, value),
        Reply::Error(error) => put_error(alloc, bytes, id, error),
        Reply::Standard(standard) => write_fixed_error(alloc, bytes, id, *standard),
    }
}

/// Puts a response with that result. A whole number and a truth value are put without memory for their text.
fn put_done(alloc: Global, bytes: &mut Vec<u8>, id: &Id, value: &Json) -> Result<(), AllocError>
    ensures text { OnOk result (bytes.new.items ≡
        bytes.old.items ++ result_text id.now (compact_text value.now)) }
    ensures fits { OnOk result (IdFits id.now) }
    ensures reads_back { OnOk result (IsReadBack value.now) }
    ensures err { OnErr result (bytes.new.items ≡ bytes.old.items) }
{
    if let Some(number) = value.as_value().as_u64() {
        return put_number(alloc, bytes, id, number);
    }
    if let Some(truth) = value.as_value().as_bool() {
        return write_result(alloc, bytes, id, truth_text(truth).as_bytes());
    }
    let text = value.to_bytes(alloc)?;
    write_result(alloc, bytes, id, text.as_slice())
}

fn truth_text(truth: bool) -> &'static str
    ensures { result.now ≡ compact_text (boolean truth) }
{
    if truth { "true" } else { "false" }
}

fn put_number(alloc: Global, bytes: &mut Vec<u8>, id: &Id, number: u64) -> Result<(), AllocError>
    ensures text { OnOk result (bytes.new.items ≡
        bytes.old.items ++ result_text id.now (decimal number)) }
    ensures fits { OnOk result (IdFits id.now) }
    ensures err { OnErr result (bytes.new.items ≡ bytes.old.items) }
{
    let mut digits = Buffer::new();
    write_result(alloc, bytes, id, digits.format(number).as_bytes())
}

/// Puts a response with that error.
fn put_error(
    alloc: Global,
    bytes: &mut Vec<u8>,
    id: &Id,
    error: &ErrorValue,
) -> Result<(), AllocError>
    ensures text { OnOk result (bytes.new.items ≡
        bytes.old.items ++ error_answer_text id.now (error_text error.now.code error.now.message
        (option_map compact_text error.now.extra))) }
    ensures fits { OnOk result (IdFits id.now × CodeFits error.now.code) }
    ensures reads_back { OnOk result (AreReadBack error.now.extra) }
    ensures err { OnErr result (bytes.new.items ≡ bytes.old.items) }
{
    let extra = optional_text(alloc, &error.extra)?;
    let message = error.message.as_str();
    write_error(alloc, bytes, id, error.code, message, lent(&extra))
}

/// The text of a batch of answers (JSON-RPC 2.0, section 6).
pub fn batch_text(alloc: Global, texts: &[Vec<u8>]) -> Result<Vec<u8>, AllocError>
    requires { 0 < length texts.now }
    ensures text { IfOk result (λ bytes. bytes.items
        ≡ batch_text_of (map (λ text. text.items) texts.now)) }
    ensures reads_back { IfOk result (λ bytes.
        (answers : List Data) → AreTextsOf (map (λ text. text.items) texts.now) answers
        → depth (array (items_of answers)) ≤ max_depth
        → read bytes.items ≡ Some (array (items_of answers))) }
{
    let mut bytes = Vec::new(alloc);
    write_array(alloc, &mut bytes, &TextRow { texts })?;
    Ok(bytes)
}
