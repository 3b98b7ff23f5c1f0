//! The texts of our calls, of our notifications and of the withdrawals of our calls.

ghost use Rattle.std.specs.Prelude.{◌≡◌, ◌≤◌, ◌<◌, ◌+◌, ◌++◌, Some, IfOk, OnOk, OnErr, length};
ghost use Rattle.serde_json.specs.Data.{depth, array};
ghost use Rattle.serde_json.specs.Read.{read, max_depth};
ghost use Rattle.serde_json.specs.View.{items_of};
ghost use Rattle.rpc_messages.specs.declared.key.TheConstants.{MOST_TURNS};
ghost use Rattle.rpc_messages.specs.Parts.{AreReadBack};
ghost use Rattle.rpc_messages.specs.Texts.{call_of, call_text_of, calls_of, calls_text_of, notice_of, notice_text_of, withdrawal_of, withdraw_text_of};

use crate::outgoing::Outgoing;
use crate::parts::{lent, optional_text};
use crate::rows::CallRow;
use message_texts::{CallKey, write_array, write_call, write_notice, write_withdrawal};
use std::alloc::{AllocError, Global};

/// The room that is made for a text at first, in bytes. Long params take more.
const ROOM: usize = 128;

/// The text of call `turn` of the handler `number` (JSON-RPC 2.0, section 4), with no space.
pub fn call_text(
    alloc: Global,
    number: u32,
    turn: u32,
    outgoing: &Outgoing,
) -> Result<Vec<u8>, AllocError>
    ensures text { IfOk result (λ bytes. bytes.items ≡ call_text_of number turn outgoing.now) }
    ensures reads_back { IfOk result (λ bytes. depth (call_of number turn outgoing.now) ≤ max_depth
        → read bytes.items ≡ Some (call_of number turn outgoing.now)) }
{
    let mut bytes = Vec::with_capacity(alloc, ROOM)?;
    put_call(alloc, &mut bytes, number, turn, outgoing)?;
    Ok(bytes)
}

/// Puts the text of call `turn` of the handler `number` (JSON-RPC 2.0, section 4) behind the bytes, with no space.
pub fn put_call(
    alloc: Global,
    bytes: &mut Vec<u8>,
    number: u32,
    turn: u32,
    outgoing: &Outgoing,
) -> Result<(), AllocError>
    ensures text { OnOk result (bytes.new.items ≡
        bytes.old.items ++ call_text_of number turn outgoing.now) }
    ensures reads_back { OnOk result (depth (call_of number turn outgoing.now) ≤ max_depth
        → read (call_text_of number turn outgoing.now) ≡ Some (call_of number turn outgoing.now)) }
    ensures err { OnErr result (bytes.new.items ≡ bytes.old.items) }
{
    put_one_call(alloc, bytes, number, turn, outgoing)
}

/// The text of a batch of calls of the handler `number` (JSON-RPC 2.0, section 6), with no space. Their turns count up
/// from `first`.
pub fn calls_text(
    alloc: Global,
    number: u32,
    first: u32,
    calls: &[Outgoing],
) -> Result<Vec<u8>, AllocError>
    requires some { 0 < length calls.now }
    requires turns { first + length calls.now ≤ MOST_TURNS + 1 }
    ensures text { IfOk result (λ bytes. bytes.items ≡ calls_text_of number first calls.now) }
    ensures reads_back { IfOk result (λ bytes.
        depth (array (items_of (calls_of number first calls.now))) ≤ max_depth
        → read bytes.items ≡ Some (array (items_of (calls_of number first calls.now)))) }
{
    let mut bytes = Vec::with_capacity(alloc, ROOM)?;
    put_calls(alloc, &mut bytes, number, first, calls)?;
    Ok(bytes)
}

/// Puts the text of a batch of calls of the handler `number` (JSON-RPC 2.0, section 6) behind the bytes, with no space.
/// Their turns count up from `first`.
pub fn put_calls(
    alloc: Global,
    bytes: &mut Vec<u8>,
    number: u32,
    first: u32,
    calls: &[Outgoing],
) -> Result<(), AllocError>
    requires some { 0 < length calls.now }
    requires turns { first + length calls.now ≤ MOST_TURNS + 1 }
    ensures text { OnOk result (bytes.new.items ≡
        bytes.old.items ++ calls_text_of number first calls.now) }
    ensures reads_back { OnOk result (
        depth (array (items_of (calls_of number first calls.now))) ≤ max_depth
        → read (calls_text_of number first calls.now) ≡
        Some (array (items_of (calls_of number first calls.now)))) }
    ensures err { OnErr result (bytes.new.items ≡ bytes.old.items) }
{
    let row = CallRow {
        number,
        first,
        calls,
    };
    write_array(alloc, bytes, &row)
}

/// The text of a notification (JSON-RPC 2.0, section 4.1), with no space.
pub fn notice_text(alloc: Global, outgoing: &Outgoing) -> Result<Vec<u8>, AllocError>
    ensures text { IfOk result (λ bytes. bytes.items ≡ notice_text_of outgoing.now) }
    ensures reads_back { IfOk result (λ bytes. depth (notice_of outgoing.now) ≤ max_depth
        → read bytes.items ≡ Some (notice_of outgoing.now)) }
{
    let mut bytes = Vec::with_capacity(alloc, ROOM)?;
    put_notice(alloc, &mut bytes, outgoing)?;
    Ok(bytes)
}

/// Puts the text of a notification (JSON-RPC 2.0, section 4.1) behind the bytes, with no space.
pub fn put_notice(alloc: Global, bytes: &mut Vec<u8>, outgoing: &Outgoing) -> Result<(), AllocError>
    ensures text { OnOk result (bytes.new.items ≡ bytes.old.items ++ notice_text_of outgoing.now) }
    ensures reads_back { OnOk result (depth (notice_of outgoing.now) ≤ max_depth
        → read (notice_text_of outgoing.now) ≡ Some (notice_of outgoing.now)) }
    ensures err { OnErr result (bytes.new.items ≡ bytes.old.items) }
{
    let params = optional_text(alloc, &outgoing.params)?;
    write_notice(alloc, bytes, outgoing.method.as_str(), lent(&params))
}

/// The text of the notification that withdraws call `turn` of the handler `number` (LSP 3.17, "Cancellation Support"),
/// with no space.
pub fn withdraw_text(alloc: Global, number: u32, turn: u32) -> Result<Vec<u8>, AllocError>
    ensures text { IfOk result (λ bytes. bytes.items ≡ withdraw_text_of number turn) }
    ensures reads_back { IfOk result (λ bytes.
        read bytes.items ≡ Some (withdrawal_of number turn)) }
{
    let mut bytes = Vec::with_capacity(alloc, ROOM)?;
    put_withdrawal(&mut bytes, number, turn)?;
    Ok(bytes)
}

/// Puts the text of the notification that withdraws call `turn` of the handler `number` (LSP 3.17, "Cancellation
/// Support") behind the bytes, with no space.
pub fn put_withdrawal(bytes: &mut Vec<u8>, number: u32, turn: u32) -> Result<(), AllocError>
    ensures text { OnOk result (bytes.new.items ≡ bytes.old.items ++ withdraw_text_of number turn) }
    ensures reads_back { read (withdraw_text_of number turn) ≡ Some (withdrawal_of number turn) }
    ensures err { OnErr result (bytes.new.items ≡ bytes.old.items) }
{
    let key = CallKey::Pair(number, turn);
    write_withdrawal(bytes, "$/cancelRequest", "id", key)
}

/// Puts a call, and tells that its params are read back.
pub(crate) fn put_one_call(
    alloc: Global,
    bytes: &mut Vec<u8>,
    number: u32,
    turn: u32,
    outgoing: &Outgoing,
) -> Result<(), AllocError>
    ensures text { OnOk result (bytes.new.items ≡
        bytes.old.items ++ call_text_of number turn outgoing.now) }
    ensures params { OnOk result (AreReadBack outgoing.now.params) }
    ensures err { OnErr result (bytes.new.items ≡ bytes.old.items) }
{
    let params = optional_text(alloc, &outgoing.params)?;
    let key = CallKey::Pair(number, turn);
    write_call(alloc, bytes, key, outgoing.method.as_str(), lent(&params))
}
