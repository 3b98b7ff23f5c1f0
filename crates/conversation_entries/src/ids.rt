//! What the id of a request breaks, and what is kept of an entry.

ghost use Rattle.std.specs.Option.{option_map_or};
ghost use Rattle.std.specs.Prelude.{◌≡◌, ◌++◌, OnOk, IfOk, codes, false};
ghost use Rattle.conversation_entries.specs.Said.{said};
ghost use Rattle.conversation_rules.specs.Entries as rules;
ghost use Rattle.conversation_rules.specs.Entries.{cancelled_by, may_leave, owed_after_first, is_exit, number_findings, form_findings, again_findings, request_findings, id_findings, part_findings, plain_findings, fills_id, with_id_of, with_notification, with_owed, entry_findings, behind_entry};
ghost use Rattle.conversation_rules.specs.Protocols as protocols;
ghost use Rattle.conversation_rules.specs.Speakers.{found, found_if};

use crate::entries::{
    has_first_method, has_method, is_answer, is_cancel, is_first_cancel, is_notification,
    is_request, put_both, put_cancel, put_code, put_faults, put_if, put_name, put_objects,
    put_twice,
};
use crate::protocols::{is_lsp, is_mcp};
use crate::speaker::Speaker;
use conversation_ids::{Owed, is_null, is_plain};
use conversation_reading::{Entry, First, WrittenId, is_whole};
use conversation_rules::{Finding, Level, Message, Protocol, Rule};
use std::alloc::AllocError;

fn odd_id_level(protocol: Protocol) -> Level
    ensures { result ≡ protocols.odd_id_level protocol }
{
    match protocol {
        Protocol::Lsp
        | Protocol::Mcp
        | Protocol::Mcp20250618
        | Protocol::Mcp20250326
        | Protocol::Mcp20241105 => Level::Must,
        Protocol::JsonRpc => Level::Should,
    }
}

fn put_number(
    protocol: Protocol,
    findings: &mut Vec<Finding>,
    message: Message,
    at: u64,
    number: &str,
) -> Result<(), AllocError>
    ensures { OnOk result (findings.new.items
        ≡ findings.old.items ++ number_findings protocol message at number.now) }
{
    if is_whole(number) {
        let is_odd = !is_plain(number);
        put_if(is_odd, findings, message, at, Rule::IdForm, Level::Note)
    } else {
        put_if(
            true,
            findings,
            message,
            at,
            Rule::IdFraction,
            odd_id_level(protocol),
        )
    }
}

/// How it is written (JSON-RPC 2.0, section 4; LSP, Request Message; MCP, messages).
fn put_form(
    protocol: Protocol,
    findings: &mut Vec<Finding>,
    message: Message,
    at: u64,
    id: &WrittenId,
) -> Result<(), AllocError>
    ensures { OnOk result (findings.new.items
        ≡ findings.old.items ++ form_findings protocol message at id.now) }
{
    match id {
        WrittenId::Null => {
            put_if(
                true,
                findings,
                message,
                at,
                Rule::IdNull,
                odd_id_level(protocol),
            )
        }
        WrittenId::Text(_) => Ok(()),
        WrittenId::Number(number) => put_number(protocol, findings, message, at, number.as_str()),
    }
}

/// That it was there before (JSON-RPC 2.0, section 6; MCP, messages).
fn put_again(
    protocol: Protocol,
    findings: &mut Vec<Finding>,
    message: Message,
    at: u64,
    in_batch: bool,
    own: &Speaker,
    id: &WrittenId,
) -> Result<(), AllocError>
    ensures { OnOk result (findings.new.items
        ≡ findings.old.items ++ again_findings protocol message at in_batch (said own.now) id.now) }
{
    if is_null(id) {
        return Ok(());
    }
    if is_mcp(protocol) {
        let is_used = own.used.contains(id);
        return put_if(is_used, findings, message, at, Rule::IdAgain, Level::Must);
    }
    let is_open = !in_batch && own.owed.is_asked(id);
    put_if(is_open, findings, message, at, Rule::IdAgain, Level::Note)
}

fn put_id(
    protocol: Protocol,
    findings: &mut Vec<Finding>,
    message: Message,
    at: u64,
    in_batch: bool,
    own: &Speaker,
    entry: &Entry,
) -> Result<(), AllocError>
    ensures { OnOk result (findings.new.items
        ≡ findings.old.items ++ id_findings protocol message at in_batch (said own.now) entry.now) }
{
    if !is_request(entry.kind) {
        return Ok(());
    }
    match &entry.id {
        Some(id) => {
            put_form(protocol, findings, message, at, id)?;
            put_again(protocol, findings, message, at, in_batch, own, id)
        }
        None => Ok(()),
    }
}

/// The first id for which there is no room.
fn put_full(
    findings: &mut Vec<Finding>,
    message: Message,
    at: u64,
    is_first: bool,
) -> Result<(), AllocError>
    ensures { OnOk result (findings.new.items
        ≡ findings.old.items ++ found_if is_first (found message at Rule.NotJudged Level.Note)) }
{
    put_if(
        is_first,
        findings,
        message,
        at,
        Rule::NotJudged,
        Level::Note,
    )
}

/// What is wrong with its members.
fn put_parts(
    protocol: Protocol,
    findings: &mut Vec<Finding>,
    message: Message,
    at: u64,
    entry: &Entry,
) -> Result<(), AllocError>
    ensures { OnOk result (findings.new.items
        ≡ findings.old.items ++ part_findings protocol message at entry.now) }
{
    put_faults(protocol, findings, message, at, entry)?;
    put_both(findings, message, at, entry)?;
    put_twice(findings, message, at, entry)?;
    put_code(protocol, findings, message, at, entry)?;
    put_name(findings, message, at, entry)?;
    put_objects(protocol, findings, message, at, entry)
}

/// What an entry breaks by itself, but for the room for its id.
fn put_entry(
    protocol: Protocol,
    findings: &mut Vec<Finding>,
    message: Message,
    in_batch: bool,
    at: u64,
    own: &Speaker,
    entry: &Entry,
) -> Result<(), AllocError>
    ensures { OnOk result (findings.new.items
        ≡ findings.old.items ++ plain_findings protocol message in_batch at entry.now (said own.now)) }
{
    put_parts(protocol, findings, message, at, entry)?;
    put_cancel(protocol, findings, message, at, own, entry)?;
    put_id(protocol, findings, message, at, in_batch, own, entry)
}

/// Keeps the id of an entry. Answers whether it is the first for which there is no room.
fn keep_id(protocol: Protocol, own: &mut Speaker, entry: &Entry) -> Result<bool, AllocError>
    ensures first { IfOk result (λ is_first. is_first ≡ fills_id entry.now (said own.old)) }
    ensures ok { OnOk result (said own.new ≡ with_id_of protocol entry.now (said own.old)) }
{
    if is_answer(entry.kind) {
        return Ok(false);
    }
    match &entry.id {
        Some(id) => {
            if is_mcp(protocol) && has_method("initialize", entry) {
                own.initialize.insert(id)?;
            }
            own.used.insert(id)
        }
        None => Ok(false),
    }
}

/// What a notification says beside: a cancel, or that the side exits.
fn take_notification(protocol: Protocol, own: &mut Speaker, entry: &Entry)
    ensures { said own.new ≡ with_notification protocol entry.now (said own.old) }
{
    if is_exit(protocol, entry) {
        own.has_exited = true;
    }
    if may_leave(protocol, entry) {
        own.has_cancelled = true;
    }
    if is_cancel(protocol, entry) {
        take_cancel(protocol, own, &entry.target);
    }
    take_first_cancel(protocol, own, &entry.first);
}

/// Whether it is a cancel by rules where its request may be left without an answer.
fn may_leave(protocol: Protocol, entry: &Entry) -> bool
    ensures { result ≡ may_leave protocol entry.now }
{
    is_mcp(protocol) && (is_cancel(protocol, entry) || is_cancel_by_first(protocol, &entry.first))
}

fn is_cancel_by_first(protocol: Protocol, first: &Option<First>) -> bool
    ensures { result ≡ option_map_or (rules.is_first_cancel protocol) first.now false }
{
    match first {
        Some(first) => is_first_cancel(protocol, first),
        None => false,
    }
}

/// By the members that stand first it may be a cancel too.
fn take_first_cancel(protocol: Protocol, own: &mut Speaker, first: &Option<First>)
    ensures { said own.new ≡ (let was = said own.old in record was { owed = owed_after_first protocol first.now was.owed }) }
{
    if let Some(first) = first {
        if is_first_cancel(protocol, first) {
            take_cancel(protocol, own, first.target());
        }
    }
}

fn is_exit(protocol: Protocol, entry: &Entry) -> bool
    ensures { result ≡ is_exit protocol entry.now }
{
    let is_one = is_notification(entry.kind) && has_method("exit", entry);
    is_lsp(protocol) && (is_one || is_first_exit(&entry.first))
}

fn is_first_exit(first: &Option<First>) -> bool
    ensures { result ≡ option_map_or (rules.has_first_method (codes "exit")) first.now false }
{
    match first {
        Some(first) => has_first_method("exit", first),
        None => false,
    }
}

/// A cancel reaches the requests that it names.
fn take_cancel(protocol: Protocol, own: &mut Speaker, target: &Option<WrittenId>)
    ensures { said own.new ≡ (let was = said own.old in record was { owed = cancelled_by protocol target.now was.owed }) }
{
    if let Some(id) = target {
        own.owed.cancel(id, is_mcp(protocol));
    }
}

/// What the other side owes on an entry.
pub fn owe(protocol: Protocol, own: &mut Speaker, at: u64, entry: Entry) -> Result<(), AllocError>
    ensures { OnOk result (said own.new ≡ with_owed protocol at entry (said own.old)) }
{
    match Owed::on(protocol, at, entry) {
        Some(owed) => own.owed.owe(owed),
        None => Ok(()),
    }
}

/// An entry: what it breaks by itself, and what is kept of it but for what is owed.
pub fn say_entry(
    protocol: Protocol,
    findings: &mut Vec<Finding>,
    message: Message,
    in_batch: bool,
    at: u64,
    own: &mut Speaker,
    entry: &Entry,
) -> Result<(), AllocError>
    ensures findings { OnOk result (findings.new.items
        ≡ findings.old.items ++ entry_findings protocol message in_batch at entry.now (said own.old)) }
    ensures own { OnOk result (said own.new ≡ with_notification protocol entry.now (with_id_of protocol entry.now (said own.old))) }
{
    put_entry(protocol, findings, message, in_batch, at, own, entry)?;
    let is_first = keep_id(protocol, own, entry)?;
    put_full(findings, message, at, is_first)?;
    take_notification(protocol, own, entry);
    Ok(())
}

/// An entry, and what is owed on it.
pub fn take_entry(
    protocol: Protocol,
    findings: &mut Vec<Finding>,
    message: Message,
    in_batch: bool,
    at: u64,
    own: &mut Speaker,
    entry: Entry,
) -> Result<(), AllocError>
    ensures findings { OnOk result (findings.new.items
        ≡ findings.old.items ++ entry_findings protocol message in_batch at entry (said own.old)) }
    ensures own { OnOk result (said own.new ≡ behind_entry protocol at entry (said own.old)) }
{
    say_entry(protocol, findings, message, in_batch, at, own, &entry)?;
    owe(protocol, own, at, entry)
}
