//! What the host passes as bytes.

ghost use Rattle.std.specs.Prelude.{◌≡◌, IfOk, IfErr, IfSome};
ghost use Rattle.json_texts.specs.Texts.{IsJsonText};
ghost use Rattle.host_calls.specs.Passed.{IsText, IsntText, IsJson, IsntJson, IsData, IsntData, IsParams, AreNoParams, IsOutgoing, IsNoOutgoing, IsFailure, IsNoFailure};

use crate::code::Why;
use connection::{Answer, AnswerError, Outgoing, OutgoingParams};
use json_texts::{JsonText, MOST_DEPTH_OUT, TextReader, utf8_text, value_end};
use json_values::Text;
use std::alloc::Global;

/// A method's name, or an error's message.
fn text_of(alloc: Global, bytes: &[u8]) -> Result<Text, Why>
    ensures ok { IfOk result (λ text. IsText bytes.now text) }
    ensures err { IfErr result (λ why. IsntText bytes.now why) }
{
    let Ok(text) = simdutf8::compat::from_utf8(bytes) else {
        return Err(Why::NotText);
    };
    Ok(Text::copy_of(alloc, text)?)
}

/// The text of bytes that are seen to be the compact text of a value. It may be one also where this isn't seen.
pub(crate) fn compact_text(bytes: &[u8]) -> Option<&str>
    ensures { IfSome result (λ text. (text.now ≡ bytes.now) × IsJsonText text.now) }
{
    let text = utf8_text(bytes)?;
    let end = value_end(bytes, 0, MOST_DEPTH_OUT)?;
    if end == bytes.len() { Some(text) } else { None }
}

/// A result.
pub(crate) fn json_of(reader: &mut TextReader, bytes: &[u8]) -> Result<JsonText, Why>
    ensures ok { IfOk result (λ text. IsJson bytes.now text) }
    ensures err { IfErr result (λ why. IsntJson bytes.now why) }
{
    match reader.read(bytes)? {
        Some(text) => Ok(text),
        None => Err(Why::NotJson),
    }
}

/// An error's data.
fn data_of(reader: &mut TextReader, bytes: &[u8]) -> Result<Option<JsonText>, Why>
    ensures ok { IfOk result (λ text. IsData bytes.now text) }
    ensures err { IfErr result (λ why. IsntData bytes.now why) }
{
    if bytes.is_empty() {
        return Ok(None);
    }
    Ok(Some(json_of(reader, bytes)?))
}

fn params_of(reader: &mut TextReader, bytes: &[u8]) -> Result<Option<OutgoingParams>, Why>
    ensures ok { IfOk result (λ params. IsParams bytes.now params) }
    ensures err { IfErr result (λ why. AreNoParams bytes.now why) }
{
    if bytes.is_empty() {
        return Ok(None);
    }
    match OutgoingParams::new(json_of(reader, bytes)?) {
        Some(params) => Ok(Some(params)),
        None => Err(Why::NotJson),
    }
}

/// A call or a notification.
pub(crate) fn outgoing_of(
    alloc: Global,
    reader: &mut TextReader,
    method: &[u8],
    params: &[u8],
) -> Result<Outgoing, Why>
    ensures ok { IfOk result (λ outgoing. IsOutgoing method.now params.now outgoing) }
    ensures err { IfErr result (λ why. IsNoOutgoing method.now params.now why) }
{
    let method = text_of(alloc, method)?;
    let params = params_of(reader, params)?;
    Ok(Outgoing { method, params })
}

/// An answer that is an error.
pub(crate) fn failure_of(
    alloc: Global,
    reader: &mut TextReader,
    code: i64,
    message: &[u8],
    extra: &[u8],
) -> Result<Answer, Why>
    ensures ok { IfOk result (λ answer. IsFailure code message.now extra.now answer) }
    ensures err { IfErr result (λ why. IsNoFailure message.now extra.now why) }
{
    let message = text_of(alloc, message)?;
    let data = data_of(reader, extra)?;
    Ok(Answer::Error(AnswerError {
        code,
        message,
        data,
    }))
}
