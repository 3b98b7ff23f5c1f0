//! What an entry breaks by itself.

ghost use Rattle.std.specs.Prelude.{◌≡◌, ◌++◌, OnOk, Some, false};
ghost use Rattle.std.specs.Option.{option_map_or};
ghost use Rattle.conversation_entries.specs.Said.{said};
ghost use Rattle.conversation_rules.specs.Entries as rules;
ghost use Rattle.conversation_rules.specs.Entries.{fault_findings, both_findings, twice_findings, has_first_method, is_first_cancel, code_of, code_findings, name_findings, object_findings, is_cancel, may_lack_id, cancel_params_level, named_findings, cancel_findings, unknown_level};
ghost use Rattle.conversation_rules.specs.Protocols as protocols;
ghost use Rattle.conversation_rules.specs.Speakers.{found, found_if};

use crate::protocols::{is_lsp, is_mcp, may_leave_ids_out};
use crate::speaker::Speaker;
use conversation_reading::{Entry, First, Kind, There, Whole, WrittenId, whole_of};
use conversation_rules::{Finding, Level, Message, Protocol, Rule};
use std::alloc::AllocError;

/// Adds a finding, where something holds.
pub fn put_if(
    holds: bool,
    findings: &mut Vec<Finding>,
    message: Message,
    at: u64,
    rule: Rule,
    level: Level,
) -> Result<(), AllocError>
    ensures { OnOk result (findings.new.items
        ≡ findings.old.items ++ found_if holds (found message at rule level)) }
{
    if !holds {
        return Ok(());
    }
    findings.push(Finding {
        side: message.side,
        rule,
        level,
        number: message.number,
        offset: message.offset,
        entry: at,
    })?;
    Ok(())
}

/// Whether it is an error that needs no id.
pub fn may_lack_id(protocol: Protocol, there: There) -> bool
    ensures { result ≡ may_lack_id protocol there }
{
    may_leave_ids_out(protocol) && there.error && !(there.id || there.result)
}

/// Each rule by which it is no message.
pub(crate) fn put_faults(
    protocol: Protocol,
    findings: &mut Vec<Finding>,
    message: Message,
    at: u64,
    entry: &Entry,
) -> Result<(), AllocError>
    ensures { OnOk result (findings.new.items
        ≡ findings.old.items ++ fault_findings protocol message at entry.now.there entry.now.faults) }
{
    let faults = entry.faults;
    put_if(
        faults.object,
        findings,
        message,
        at,
        Rule::Object,
        Level::Must,
    )?;
    put_if(
        faults.version,
        findings,
        message,
        at,
        Rule::Version,
        Level::Must,
    )?;
    put_if(
        faults.method,
        findings,
        message,
        at,
        Rule::Method,
        Level::Must,
    )?;
    put_if(
        faults.params,
        findings,
        message,
        at,
        Rule::Params,
        Level::Must,
    )?;
    let lacks_id = faults.id && !may_lack_id(protocol, entry.there);
    put_if(lacks_id, findings, message, at, Rule::Id, Level::Must)?;
    put_if(
        faults.outcome,
        findings,
        message,
        at,
        Rule::Outcome,
        Level::Must,
    )?;
    put_if(
        faults.error,
        findings,
        message,
        at,
        Rule::Error,
        Level::Must,
    )
}

/// Whether it is a request by its method, and an answer by what stands beside (JSON-RPC 2.0, sections 4 and 5).
pub(crate) fn put_both(
    findings: &mut Vec<Finding>,
    message: Message,
    at: u64,
    entry: &Entry,
) -> Result<(), AllocError>
    ensures { OnOk result (findings.new.items
        ≡ findings.old.items ++ both_findings message at entry.now) }
{
    let there = entry.there;
    let is_both = there.method && there.id && (there.result || there.error);
    put_if(is_both, findings, message, at, Rule::BothKinds, Level::Must)
}

/// A member that stands twice (RFC 8259, section 4).
pub(crate) fn put_twice(
    findings: &mut Vec<Finding>,
    message: Message,
    at: u64,
    entry: &Entry,
) -> Result<(), AllocError>
    ensures { OnOk result (findings.new.items
        ≡ findings.old.items ++ twice_findings message at entry.now) }
{
    let has_twice = entry.first.is_some();
    put_if(has_twice, findings, message, at, Rule::Twice, Level::Should)
}

pub(crate) fn is_request(kind: Kind) -> bool
    ensures { result ≡ rules.is_request kind }
{
    match kind {
        Kind::Request => true,
        Kind::Notification | Kind::Answer | Kind::BrokenAnswer | Kind::Invalid => false,
    }
}

pub(crate) fn is_notification(kind: Kind) -> bool
    ensures { result ≡ rules.is_notification kind }
{
    match kind {
        Kind::Notification => true,
        Kind::Request | Kind::Answer | Kind::BrokenAnswer | Kind::Invalid => false,
    }
}

pub fn is_well(kind: Kind) -> bool
    ensures { result ≡ rules.is_well kind }
{
    match kind {
        Kind::Answer => true,
        Kind::Request | Kind::Notification | Kind::BrokenAnswer | Kind::Invalid => false,
    }
}

pub fn is_answer(kind: Kind) -> bool
    ensures { result ≡ rules.is_answer kind }
{
    match kind {
        Kind::Answer | Kind::BrokenAnswer => true,
        Kind::Request | Kind::Notification | Kind::Invalid => false,
    }
}

/// A whole number from `-most` to `-least`.
pub fn is_between(least: u64, most: u64, whole: Whole) -> bool
    ensures { result ≡ rules.is_between least most whole }
{
    whole.minus && least <= whole.size && whole.size <= most
}

fn is_reserved(protocol: Protocol, code: Whole) -> bool
    ensures { result ≡ rules.is_reserved protocol code }
{
    is_between(32000, 32768, code) || (is_lsp(protocol) && is_between(32800, 32899, code))
}

fn is_defined(protocol: Protocol, code: Whole) -> bool
    ensures { result ≡ rules.is_defined protocol code }
{
    is_between(32700, 32700, code)
        || is_between(32600, 32603, code)
        || is_between(32000, 32099, code)
        || (is_lsp(protocol) && is_between(32800, 32803, code))
}

pub fn code_of(entry: &Entry) -> Option<Whole>
    ensures { result ≡ code_of entry.now }
{
    match &entry.code {
        Some(code) => whole_of(code.as_str()),
        None => None,
    }
}

/// An error code that the rules keep and don't define (JSON-RPC 2.0, section 5.1; LSP 3.17, ErrorCodes).
pub(crate) fn put_code(
    protocol: Protocol,
    findings: &mut Vec<Finding>,
    message: Message,
    at: u64,
    entry: &Entry,
) -> Result<(), AllocError>
    ensures { OnOk result (findings.new.items
        ≡ findings.old.items ++ code_findings protocol message at entry.now) }
{
    let is_undefined = match code_of(entry) {
        Some(code) => is_reserved(protocol, code) && !is_defined(protocol, code),
        None => false,
    };
    put_if(
        is_well(entry.kind) && is_undefined,
        findings,
        message,
        at,
        Rule::Code,
        Level::Must,
    )
}

fn has_kept_name(entry: &Entry) -> bool
    ensures { result ≡ option_map_or rules.is_kept_name entry.now.method false }
{
    match &entry.method {
        Some(method) => is_kept_name(method.as_str()),
        None => false,
    }
}

fn is_kept_name(method: &str) -> bool
    ensures { result ≡ rules.is_kept_name method.now }
{
    let method = method.as_bytes();
    if method.len() <= 4 {
        return method == b"rpc.".as_slice();
    }
    let front = &method[..4];
    front == b"rpc.".as_slice()
}

/// A method that begins with `rpc.` (JSON-RPC 2.0, section 4).
pub(crate) fn put_name(
    findings: &mut Vec<Finding>,
    message: Message,
    at: u64,
    entry: &Entry,
) -> Result<(), AllocError>
    ensures { OnOk result (findings.new.items
        ≡ findings.old.items ++ name_findings message at entry.now) }
{
    let is_kept = (is_request(entry.kind) || is_notification(entry.kind)) && has_kept_name(entry);
    put_if(is_kept, findings, message, at, Rule::RpcName, Level::Note)
}

/// Whether its params are an array, and no rule on cancels says so.
fn has_array_params(protocol: Protocol, entry: &Entry) -> bool
    ensures { result ≡ rules.has_array_params protocol entry.now }
{
    let has_params = is_request(entry.kind) || is_notification(entry.kind);
    has_params && entry.array_params && !is_cancel(protocol, entry)
}

/// Params or a result that is no object (MCP, messages).
pub(crate) fn put_objects(
    protocol: Protocol,
    findings: &mut Vec<Finding>,
    message: Message,
    at: u64,
    entry: &Entry,
) -> Result<(), AllocError>
    ensures { OnOk result (findings.new.items
        ≡ findings.old.items ++ object_findings protocol message at entry.now) }
{
    let has_array = is_mcp(protocol) && has_array_params(protocol, entry);
    put_if(
        has_array,
        findings,
        message,
        at,
        Rule::ParamsObject,
        Level::Must,
    )?;
    let has_other = is_mcp(protocol) && is_well(entry.kind) && entry.bare_result;
    put_if(
        has_other,
        findings,
        message,
        at,
        Rule::ResultObject,
        Level::Must,
    )
}

pub(crate) fn has_method(method: &str, entry: &Entry) -> bool
    ensures { result ≡ rules.has_method method.now entry.now }
{
    match &entry.method {
        Some(its) => method == its.as_str(),
        None => false,
    }
}

/// Whether it is a cancel, by its method (LSP 3.17 and MCP, cancellation).
pub(crate) fn is_cancel(protocol: Protocol, entry: &Entry) -> bool
    ensures { result ≡ is_cancel protocol entry.now }
{
    is_notification(entry.kind) && has_cancel_method(protocol, entry)
}

fn has_cancel_method(protocol: Protocol, entry: &Entry) -> bool
    ensures { result ≡ option_map_or (λ method. rules.has_method method entry.now) (protocols.cancel_method protocol) false }
{
    match protocol {
        Protocol::JsonRpc => false,
        Protocol::Lsp => has_method("$/cancelRequest", entry),
        Protocol::Mcp | Protocol::Mcp20250618 | Protocol::Mcp20250326 | Protocol::Mcp20241105 =>
            has_method("notifications/cancelled", entry),
    }
}

/// Whether it is one by the members that stand first.
pub(crate) fn is_first_cancel(protocol: Protocol, first: &First) -> bool
    ensures { result ≡ is_first_cancel protocol first.now }
{
    match protocol {
        Protocol::JsonRpc => false,
        Protocol::Lsp => has_first_method("$/cancelRequest", first),
        Protocol::Mcp | Protocol::Mcp20250618 | Protocol::Mcp20250326 | Protocol::Mcp20241105 =>
            has_first_method("notifications/cancelled", first),
    }
}

pub(crate) fn has_first_method(method: &str, first: &First) -> bool
    ensures { result ≡ has_first_method method.now first.now }
{
    match first.method() {
        Some(its) => method == its.as_str(),
        None => false,
    }
}

fn unknown_level(protocol: Protocol, own: &Speaker) -> Level
    ensures { result ≡ unknown_level protocol (said own.now) }
{
    if is_mcp(protocol) && !own.has_unreadable {
        Level::Must
    } else {
        Level::Note
    }
}

fn cancel_params_level(protocol: Protocol, entry: &Entry) -> Level
    ensures { result ≡ cancel_params_level protocol entry.now }
{
    if may_leave_ids_out(protocol) && entry.cancels_none {
        Level::Note
    } else {
        Level::Must
    }
}

/// What a cancel breaks.
pub(crate) fn put_cancel(
    protocol: Protocol,
    findings: &mut Vec<Finding>,
    message: Message,
    at: u64,
    own: &Speaker,
    entry: &Entry,
) -> Result<(), AllocError>
    ensures { OnOk result (findings.new.items
        ≡ findings.old.items ++ cancel_findings protocol message at (said own.now) entry.now) }
{
    if !is_cancel(protocol, entry) {
        return Ok(());
    }
    match &entry.target {
        Some(id) => put_target(protocol, findings, message, at, own, id),
        None => {
            let level = cancel_params_level(protocol, entry);
            put_if(true, findings, message, at, Rule::CancelParams, level)
        }
    }
}

fn put_target(
    protocol: Protocol,
    findings: &mut Vec<Finding>,
    message: Message,
    at: u64,
    own: &Speaker,
    id: &WrittenId,
) -> Result<(), AllocError>
    ensures { OnOk result (findings.new.items
        ≡ findings.old.items ++ named_findings protocol message at (said own.now) id.now) }
{
    let is_unknown = !own.used.contains(id) && !own.used.is_full();
    let level = unknown_level(protocol, own);
    put_if(
        is_unknown,
        findings,
        message,
        at,
        Rule::CancelUnknown,
        level,
    )?;
    let is_initialize = is_mcp(protocol) && own.initialize.contains(id);
    put_if(
        is_initialize,
        findings,
        message,
        at,
        Rule::CancelInitialize,
        Level::Must,
    )
}
