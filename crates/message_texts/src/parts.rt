//! The parts that messages are made of. Where a part can't be put whole, what was there still stands in front.

ghost use Rattle.std.specs.Prelude.{◌≡◌, ◌++◌, OnOk, OnErr, codes};
ghost use Rattle.std.specs.Option.{option_copied};
ghost use Rattle.std.specs.Io.{StartsWith};
ghost use Rattle.json.specs.Print.{quoted};
ghost use Rattle.message_texts.specs.declared.keys.CallKey.TheVariants.{Pair};
ghost use Rattle.message_texts.specs.Texts.{IdFits, id_text, key_text, method_text, params_member};

use crate::keys::CallKey;
use itoa::{Buffer, Integer};
use json::Writer;
use message_ids::Id;
use std::alloc::{AllocError, Global};
use std::mem;

pub(crate) fn put_id(alloc: Global, bytes: &mut Vec<u8>, id: &Id) -> Result<(), AllocError>
    ensures text { OnOk result (bytes.new.items ≡ bytes.old.items ++ id_text id.now) }
    ensures fits { IdFits id.now }
    ensures front { OnErr result (StartsWith bytes.new.items bytes.old.items) }
{
    match id {
        Id::Null => bytes.extend_from_slice(b"null"),
        Id::Text(text) => put_quoted(alloc, bytes, text.as_str()),
        Id::Signed(number) => put_decimal(bytes, number.get()),
        Id::Unsigned(number) => put_decimal(bytes, *number),
    }
}

pub(crate) fn put_key(bytes: &mut Vec<u8>, key: CallKey) -> Result<(), AllocError>
    ensures text { OnOk result (bytes.new.items ≡ bytes.old.items ++ key_text key) }
    ensures front { OnErr result (StartsWith bytes.new.items bytes.old.items) }
{
    match key {
        CallKey::Number(number) => put_decimal(bytes, number),
        CallKey::Pair(one, other) => put_pair(bytes, one, other),
    }
}

/// Puts the string of two numbers with a point between.
fn put_pair(bytes: &mut Vec<u8>, one: u32, other: u32) -> Result<(), AllocError>
    ensures text { OnOk result (bytes.new.items ≡ bytes.old.items ++ key_text (Pair one other)) }
    ensures front { OnErr result (StartsWith bytes.new.items bytes.old.items) }
{
    bytes.push(b'"')?;
    put_decimal(bytes, one)?;
    bytes.push(b'.')?;
    put_decimal(bytes, other)?;
    bytes.extend_from_slice(b"\"")
}

pub(crate) fn put_decimal<I: Integer>(bytes: &mut Vec<u8>, number: I) -> Result<(), AllocError>
    ensures text { OnOk result (bytes.new.items ≡ bytes.old.items ++ I.text number) }
    ensures front { OnErr result (bytes.new.items ≡ bytes.old.items) }
{
    let mut digits = Buffer::new();
    bytes.extend_from_slice(digits.format(number).as_bytes())
}

/// Puts a text as a JSON string.
pub(crate) fn put_quoted(alloc: Global, bytes: &mut Vec<u8>, text: &str) -> Result<(), AllocError>
    ensures text { OnOk result (bytes.new.items ≡ bytes.old.items ++ quoted text.now) }
    ensures front { OnErr result (StartsWith bytes.new.items bytes.old.items) }
{
    let before = mem::replace(bytes, Vec::new(alloc));
    let mut writer = Writer::new(before);
    let put = writer.string(text);
    *bytes = writer.into_inner();
    put
}

/// Puts what a call and a notification share: the method, the params and the end.
pub(crate) fn put_method(
    alloc: Global,
    bytes: &mut Vec<u8>,
    method: &str,
    params: Option<&[u8]>,
) -> Result<(), AllocError>
    ensures text { OnOk result (bytes.new.items ≡
        bytes.old.items ++ method_text method.now (option_copied params.entry)) }
    ensures front { OnErr result (StartsWith bytes.new.items bytes.old.items) }
{
    bytes.extend_from_slice(b",\"method\":")?;
    put_quoted(alloc, bytes, method)?;
    put_params(bytes, params)?;
    bytes.extend_from_slice(b"}")
}

fn put_params(bytes: &mut Vec<u8>, params: Option<&[u8]>) -> Result<(), AllocError>
    ensures text { OnOk result (bytes.new.items ≡ bytes.old.items ++ params_member (option_copied params.entry)) }
    ensures front { OnErr result (StartsWith bytes.new.items bytes.old.items) }
{
    match params {
        Some(params) => put_params_text(bytes, params),
        None => Ok(()),
    }
}

fn put_params_text(bytes: &mut Vec<u8>, text: &[u8]) -> Result<(), AllocError>
    ensures text { OnOk result (bytes.new.items ≡
        bytes.old.items ++ (codes ",\"params\":" ++ text.now)) }
    ensures front { OnErr result (StartsWith bytes.new.items bytes.old.items) }
{
    bytes.extend_from_slice(b",\"params\":")?;
    bytes.extend_from_slice(text)
}
