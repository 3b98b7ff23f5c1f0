//! The texts of messages that go out (JSON-RPC 2.0, sections 4 to 6), written behind other bytes. Where memory is refused, the
//! bytes are as before.

ghost use Rattle.std.specs.Prelude.{◌≡◌, ◌++◌, ◌+◌, ◌^◌, ◌<◌, OnOk, OnErr, length, option_copied};
ghost use Rattle.connection_messages.specs.declared.answer.Answer.TheVariants.{Result};
ghost use Rattle.connection_messages.specs.declared.answer.AnswerError.{AnswerError};
ghost use Rattle.connection_messages.specs.Texts.{error_answer_text, answer_text, call_text, calls_text, notice_text, withdrawal_text};

use crate::answer::{Answer, AnswerError};
use crate::call_row::CallRow;
use crate::cancels::Cancels;
use crate::outgoing::Outgoing;
use crate::params::OutgoingParams;
use json_texts::JsonText;
use message_ids::Id;
use message_texts::CallKey;
use std::alloc::{AllocError, Global};

/// Writes the text of a response with this result.
pub fn write_result(
    alloc: Global,
    bytes: &mut Vec<u8>,
    id: &Id,
    text: &str,
) -> Result<(), AllocError>
    ensures text { OnOk result (bytes.new.items ≡
        bytes.old.items ++ answer_text id.now (Result text.now)) }
    ensures err { OnErr result (bytes.new.items ≡ bytes.old.items) }
{
    message_texts::write_result(alloc, bytes, id, text.as_bytes())
}

/// Writes the text of a response.
pub fn write_answer(
    alloc: Global,
    bytes: &mut Vec<u8>,
    id: &Id,
    answer: &Answer,
) -> Result<(), AllocError>
    ensures text { OnOk result (bytes.new.items ≡
        bytes.old.items ++ answer_text id.now answer.now) }
    ensures err { OnErr result (bytes.new.items ≡ bytes.old.items) }
{
    match answer {
        Answer::Result(text) => write_result(alloc, bytes, id, text.as_str()),
        Answer::Error(error) => write_error_answer(alloc, bytes, id, error),
        Answer::Standard(standard) => {
            message_texts::write_fixed_error(alloc, bytes, id, *standard)
        }
    }
}

fn write_error_answer(
    alloc: Global,
    bytes: &mut Vec<u8>,
    id: &Id,
    error: &AnswerError,
) -> Result<(), AllocError>
    ensures text { OnOk result (bytes.new.items ≡
        bytes.old.items ++ error_answer_text id.now error.now) }
    ensures err { OnErr result (bytes.new.items ≡ bytes.old.items) }
{
    message_texts::write_error(
        alloc,
        bytes,
        id,
        error.code,
        error.message.as_str(),
        data_of(error),
    )
}

/// The text of an error's data, where there is some.
fn data_of(error: &AnswerError) -> Option<&[u8]>
    ensures { option_copied result ≡ error.now.«data» }
{
    match &error.data {
        Some(text) => Some(text.as_bytes()),
        None => None,
    }
}

/// The text of the params, where there are some.
fn params_of(outgoing: &Outgoing) -> Option<&[u8]>
    ensures { option_copied result ≡ outgoing.now.params }
{
    match &outgoing.params {
        Some(params) => Some(params.as_str().as_bytes()),
        None => None,
    }
}

/// Writes the text of our call with this key.
pub fn write_call(
    alloc: Global,
    bytes: &mut Vec<u8>,
    key: u64,
    outgoing: &Outgoing,
) -> Result<(), AllocError>
    ensures text { OnOk result (bytes.new.items ≡ bytes.old.items ++ call_text key outgoing.now) }
    ensures err { OnErr result (bytes.new.items ≡ bytes.old.items) }
{
    let method = outgoing.method.as_str();
    let params = params_of(outgoing);
    message_texts::write_call(alloc, bytes, CallKey::Number(key), method, params)
}

/// Writes the text of a batch of calls, whose keys count up from the first.
pub fn write_calls(
    alloc: Global,
    bytes: &mut Vec<u8>,
    first: u64,
    calls: &[Outgoing],
) -> Result<(), AllocError>
    requires { first + length calls.now < 2 ^ 64 }
    ensures text { OnOk result (bytes.new.items ≡ bytes.old.items ++ calls_text first calls.now) }
    ensures err { OnErr result (bytes.new.items ≡ bytes.old.items) }
{
    message_texts::write_array(alloc, bytes, &CallRow { first, calls })
}

/// Writes the text of a notification.
pub fn write_notice(
    alloc: Global,
    bytes: &mut Vec<u8>,
    outgoing: &Outgoing,
) -> Result<(), AllocError>
    ensures text { OnOk result (bytes.new.items ≡ bytes.old.items ++ notice_text outgoing.now) }
    ensures err { OnErr result (bytes.new.items ≡ bytes.old.items) }
{
    let method = outgoing.method.as_str();
    message_texts::write_notice(alloc, bytes, method, params_of(outgoing))
}

/// Writes the text of the notification that withdraws our call with this key, as these cancels have it.
pub fn write_withdrawal(bytes: &mut Vec<u8>, by: Cancels, key: u64) -> Result<(), AllocError>
    ensures text { OnOk result (bytes.new.items ≡ bytes.old.items ++ withdrawal_text by key) }
    ensures err { OnErr result (bytes.new.items ≡ bytes.old.items) }
{
    message_texts::write_withdrawal(bytes, by.method(), by.member(), CallKey::Number(key))
}
