//! Responses (JSON-RPC 2.0, section 5).

ghost use Rattle.std.specs.Prelude.{◌≡◌, ◌++◌, OnOk, OnErr, codes};
ghost use Rattle.std.specs.Option.{option_copied};
ghost use Rattle.std.specs.Io.{StartsWith};
ghost use Rattle.message_texts.specs.Texts.{CodeFits, IdFits, result_text, code_text, data_member, error_rest, error_text, error_head, error_end, error_answer_text, fixed_error_text};

use crate::parts::{put_decimal, put_id, put_quoted};
use crate::room::{id_len, make_room, text_len, whole_or_unchanged};
use message_ids::{Id, Standard};
use std::alloc::{AllocError, Global};

/// Writes a response with a result of this text.
pub fn write_result(
    alloc: Global,
    bytes: &mut Vec<u8>,
    id: &Id,
    text: &[u8],
) -> Result<(), AllocError>
    ensures text { OnOk result (bytes.new.items ≡ bytes.old.items ++ result_text id.now text.now) }
    ensures fits { OnOk result (IdFits id.now) }
    ensures err { OnErr result (bytes.new.items ≡ bytes.old.items) }
{
    make_room(bytes, id_len(id), text.len())?;
    let before = bytes.len();
    let put = put_result(alloc, bytes, id, text);
    whole_or_unchanged(bytes, before, put)
}

fn put_result(alloc: Global, bytes: &mut Vec<u8>, id: &Id, text: &[u8]) -> Result<(), AllocError>
    ensures text { OnOk result (bytes.new.items ≡ bytes.old.items ++ result_text id.now text.now) }
    ensures fits { OnOk result (IdFits id.now) }
    ensures front { OnErr result (StartsWith bytes.new.items bytes.old.items) }
{
    bytes.extend_from_slice(b"{\"id\":")?;
    put_id(alloc, bytes, id)?;
    bytes.extend_from_slice(b",\"jsonrpc\":\"2.0\",\"result\":")?;
    bytes.extend_from_slice(text)?;
    bytes.extend_from_slice(b"}")
}

/// Writes a response with an error: its code, its message, and the text of its data, where there is some.
pub fn write_error(
    alloc: Global,
    bytes: &mut Vec<u8>,
    id: &Id,
    code: i64,
    message: &str,
    extra: Option<&[u8]>,
) -> Result<(), AllocError>
    ensures text { OnOk result (bytes.new.items ≡
        bytes.old.items ++ error_answer_text id.now (error_text code message.now (option_copied extra.entry))) }
    ensures fits { OnOk result (IdFits id.now × CodeFits code) }
    ensures err { OnErr result (bytes.new.items ≡ bytes.old.items) }
{
    let texts = message.as_bytes().len().saturating_add(text_len(extra));
    make_room(bytes, id_len(id), texts)?;
    let before = bytes.len();
    let put = put_error(alloc, bytes, id, code, message, extra);
    whole_or_unchanged(bytes, before, put)
}

fn put_error(
    alloc: Global,
    bytes: &mut Vec<u8>,
    id: &Id,
    code: i64,
    message: &str,
    extra: Option<&[u8]>,
) -> Result<(), AllocError>
    ensures text { OnOk result (bytes.new.items ≡
        bytes.old.items ++ error_answer_text id.now (error_text code message.now (option_copied extra.entry))) }
    ensures fits { OnOk result (IdFits id.now) }
    ensures front { OnErr result (StartsWith bytes.new.items bytes.old.items) }
{
    put_error_head(bytes)?;
    put_error_object(alloc, bytes, code, message, extra)?;
    put_error_end(alloc, bytes, id)
}

fn put_error_object(
    alloc: Global,
    bytes: &mut Vec<u8>,
    code: i64,
    message: &str,
    extra: Option<&[u8]>,
) -> Result<(), AllocError>
    ensures text { OnOk result (bytes.new.items ≡
        bytes.old.items ++ error_text code message.now (option_copied extra.entry)) }
    ensures front { OnErr result (StartsWith bytes.new.items bytes.old.items) }
{
    put_code(bytes, code)?;
    put_error_rest(alloc, bytes, message, extra)
}

/// Writes a response with a fixed error.
pub fn write_fixed_error(
    alloc: Global,
    bytes: &mut Vec<u8>,
    id: &Id,
    standard: Standard,
) -> Result<(), AllocError>
    ensures text { OnOk result (bytes.new.items ≡
        bytes.old.items ++ error_answer_text id.now (fixed_error_text standard)) }
    ensures fits { OnOk result (IdFits id.now) }
    ensures err { OnErr result (bytes.new.items ≡ bytes.old.items) }
{
    let text = fixed_error_text(standard);
    make_room(bytes, id_len(id), text.len())?;
    let before = bytes.len();
    let put = put_fixed_error(alloc, bytes, id, text);
    whole_or_unchanged(bytes, before, put)
}

fn put_fixed_error(
    alloc: Global,
    bytes: &mut Vec<u8>,
    id: &Id,
    error: &str,
) -> Result<(), AllocError>
    ensures text { OnOk result (bytes.new.items ≡
        bytes.old.items ++ error_answer_text id.now error.now) }
    ensures fits { OnOk result (IdFits id.now) }
    ensures front { OnErr result (StartsWith bytes.new.items bytes.old.items) }
{
    put_error_head(bytes)?;
    bytes.extend_from_slice(error.as_bytes())?;
    put_error_end(alloc, bytes, id)
}

/// The error object of a fixed error (JSON-RPC 2.0, section 5.1).
fn fixed_error_text(standard: Standard) -> &'static str
    ensures { result.now ≡ fixed_error_text standard }
{
    match standard {
        Standard::ParseError => r#"{"code":-32700,"message":"Parse error"}"#,
        Standard::InvalidRequest => r#"{"code":-32600,"message":"Invalid Request"}"#,
        Standard::MethodNotFound => r#"{"code":-32601,"message":"Method not found"}"#,
        Standard::InvalidParams => r#"{"code":-32602,"message":"Invalid params"}"#,
        Standard::InternalError => r#"{"code":-32603,"message":"Internal error"}"#,
        Standard::Cancelled => r#"{"code":-32800,"message":"Request cancelled"}"#,
        Standard::NoReply => r#"{"code":-32000,"message":"No reply"}"#,
        Standard::InvalidReply => r#"{"code":-32603,"message":"Invalid reply"}"#,
    }
}

fn put_error_head(bytes: &mut Vec<u8>) -> Result<(), AllocError>
    ensures text { OnOk result (bytes.new.items ≡ bytes.old.items ++ error_head) }
    ensures front { OnErr result (StartsWith bytes.new.items bytes.old.items) }
{
    bytes.extend_from_slice(b"{\"error\":")
}

/// Puts the beginning of an error object, with the comma after its code.
fn put_code(bytes: &mut Vec<u8>, code: i64) -> Result<(), AllocError>
    ensures text { OnOk result (bytes.new.items ≡ bytes.old.items ++ code_text code) }
    ensures front { OnErr result (StartsWith bytes.new.items bytes.old.items) }
{
    bytes.extend_from_slice(b"{\"code\":")?;
    put_decimal(bytes, code)?;
    bytes.extend_from_slice(b",")
}

/// Puts what stands after the code of an error object.
fn put_error_rest(
    alloc: Global,
    bytes: &mut Vec<u8>,
    message: &str,
    extra: Option<&[u8]>,
) -> Result<(), AllocError>
    ensures text { OnOk result (bytes.new.items ≡
        bytes.old.items ++ error_rest message.now (option_copied extra.entry)) }
    ensures front { OnErr result (StartsWith bytes.new.items bytes.old.items) }
{
    put_data(bytes, extra)?;
    bytes.extend_from_slice(b"\"message\":")?;
    put_quoted(alloc, bytes, message)?;
    bytes.extend_from_slice(b"}")
}

/// Puts the member `data` of an error, with the comma after it.
fn put_data(bytes: &mut Vec<u8>, extra: Option<&[u8]>) -> Result<(), AllocError>
    ensures text { OnOk result (bytes.new.items ≡ bytes.old.items ++ data_member (option_copied extra.entry)) }
    ensures front { OnErr result (StartsWith bytes.new.items bytes.old.items) }
{
    match extra {
        Some(extra) => put_data_text(bytes, extra),
        None => Ok(()),
    }
}

fn put_data_text(bytes: &mut Vec<u8>, text: &[u8]) -> Result<(), AllocError>
    ensures text { OnOk result (bytes.new.items ≡
        bytes.old.items ++ (codes "\"data\":" ++ text.now ++ codes ",")) }
    ensures front { OnErr result (StartsWith bytes.new.items bytes.old.items) }
{
    bytes.extend_from_slice(b"\"data\":")?;
    bytes.extend_from_slice(text)?;
    bytes.extend_from_slice(b",")
}

/// Puts what stands after the error of a response.
fn put_error_end(alloc: Global, bytes: &mut Vec<u8>, id: &Id) -> Result<(), AllocError>
    ensures text { OnOk result (bytes.new.items ≡ bytes.old.items ++ error_end id.now) }
    ensures fits { OnOk result (IdFits id.now) }
    ensures front { OnErr result (StartsWith bytes.new.items bytes.old.items) }
{
    bytes.extend_from_slice(b",\"id\":")?;
    put_id(alloc, bytes, id)?;
    bytes.extend_from_slice(b",\"jsonrpc\":\"2.0\"}")
}
