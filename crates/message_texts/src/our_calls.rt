//! What we send without being asked: calls, notifications, and the withdrawals of calls (JSON-RPC 2.0, section 4).

ghost use Rattle.std.specs.Prelude.{◌≡◌, ◌++◌, OnOk, OnErr};
ghost use Rattle.std.specs.Option.{option_copied};
ghost use Rattle.std.specs.Io.{StartsWith};
ghost use Rattle.message_texts.specs.Texts.{call_text, notice_text, withdrawal_head, withdrawal_text};

use crate::keys::CallKey;
use crate::parts::{put_key, put_method};
use crate::room::{make_room, text_len, whole_or_unchanged};
use std::alloc::{AllocError, Global};

/// Writes a call: its method, and the text of its params, where there are some.
pub fn write_call(
    alloc: Global,
    bytes: &mut Vec<u8>,
    key: CallKey,
    method: &str,
    params: Option<&[u8]>,
) -> Result<(), AllocError>
    ensures text { OnOk result (bytes.new.items ≡
        bytes.old.items ++ call_text key method.now (option_copied params.entry)) }
    ensures err { OnErr result (bytes.new.items ≡ bytes.old.items) }
{
    make_room(bytes, method.as_bytes().len(), text_len(params))?;
    let before = bytes.len();
    let put = put_call(alloc, bytes, key, method, params);
    whole_or_unchanged(bytes, before, put)
}

fn put_call(
    alloc: Global,
    bytes: &mut Vec<u8>,
    key: CallKey,
    method: &str,
    params: Option<&[u8]>,
) -> Result<(), AllocError>
    ensures text { OnOk result (bytes.new.items ≡
        bytes.old.items ++ call_text key method.now (option_copied params.entry)) }
    ensures front { OnErr result (StartsWith bytes.new.items bytes.old.items) }
{
    bytes.extend_from_slice(b"{\"id\":")?;
    put_key(bytes, key)?;
    bytes.extend_from_slice(b",\"jsonrpc\":\"2.0\"")?;
    put_method(alloc, bytes, method, params)
}

/// Writes a notification (JSON-RPC 2.0, section 4.1).
pub fn write_notice(
    alloc: Global,
    bytes: &mut Vec<u8>,
    method: &str,
    params: Option<&[u8]>,
) -> Result<(), AllocError>
    ensures text { OnOk result (bytes.new.items ≡
        bytes.old.items ++ notice_text method.now (option_copied params.entry)) }
    ensures err { OnErr result (bytes.new.items ≡ bytes.old.items) }
{
    make_room(bytes, method.as_bytes().len(), text_len(params))?;
    let before = bytes.len();
    let put = put_notice(alloc, bytes, method, params);
    whole_or_unchanged(bytes, before, put)
}

fn put_notice(
    alloc: Global,
    bytes: &mut Vec<u8>,
    method: &str,
    params: Option<&[u8]>,
) -> Result<(), AllocError>
    ensures text { OnOk result (bytes.new.items ≡
        bytes.old.items ++ notice_text method.now (option_copied params.entry)) }
    ensures front { OnErr result (StartsWith bytes.new.items bytes.old.items) }
{
    bytes.extend_from_slice(b"{\"jsonrpc\":\"2.0\"")?;
    put_method(alloc, bytes, method, params)
}

/// Writes the notification that withdraws a call: of this method, whose params name the call by this member. Neither name
/// needs escapes.
pub fn write_withdrawal(
    bytes: &mut Vec<u8>,
    method: &str,
    member: &str,
    key: CallKey,
) -> Result<(), AllocError>
    ensures text { OnOk result (bytes.new.items ≡
        bytes.old.items ++ withdrawal_text method.now member.now key) }
    ensures err { OnErr result (bytes.new.items ≡ bytes.old.items) }
{
    make_room(bytes, method.as_bytes().len(), member.as_bytes().len())?;
    let before = bytes.len();
    let put = put_withdrawal(bytes, method, member, key);
    whole_or_unchanged(bytes, before, put)
}

fn put_withdrawal(
    bytes: &mut Vec<u8>,
    method: &str,
    member: &str,
    key: CallKey,
) -> Result<(), AllocError>
    ensures text { OnOk result (bytes.new.items ≡
        bytes.old.items ++ withdrawal_text method.now member.now key) }
    ensures front { OnErr result (StartsWith bytes.new.items bytes.old.items) }
{
    put_withdrawal_head(bytes, method, member)?;
    put_key(bytes, key)?;
    bytes.extend_from_slice(b"}}")
}

/// Puts what stands before the key in a withdrawal.
fn put_withdrawal_head(bytes: &mut Vec<u8>, method: &str, member: &str) -> Result<(), AllocError>
    ensures text { OnOk result (bytes.new.items ≡
        bytes.old.items ++ withdrawal_head method.now member.now) }
    ensures front { OnErr result (StartsWith bytes.new.items bytes.old.items) }
{
    bytes.extend_from_slice(b"{\"jsonrpc\":\"2.0\",\"method\":\"")?;
    bytes.extend_from_slice(method.as_bytes())?;
    bytes.extend_from_slice(b"\",\"params\":{\"")?;
    bytes.extend_from_slice(member.as_bytes())?;
    bytes.extend_from_slice(b"\":")
}
