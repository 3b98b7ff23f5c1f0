//! What a single answer breaks by what is owed, and what it settles.

ghost use Rattle.std.specs.Prelude.{◌≡◌, ◌<◌, ◌+◌, ◌^◌, ◌++◌, ◌∷◌, [], OnOk, IfOk, false, true};
ghost use Rattle.std.specs.Option.{option_map_or};
ghost use Rattle.conversation_rules.specs.Amounts.{is_null};
ghost use Rattle.conversation_rules.specs.Answers as rules;
ghost use Rattle.conversation_rules.specs.Answers.{says_cancelled, is_uncalled, reply_of, cancelled_code_level, fit_findings, stray_of, not_owed_level, not_owed_findings, behind_not_owed, may_refuse, refuses_open, refuses, unfit_findings, one_refused, refused_by, behind_unfit, is_unsure, target_of_null, target_of_id, target_of, single_fit_findings, single_findings, behind_single, refused_behind_single, target_in_array, target_in_array_of_id};
ghost use Rattle.conversation_rules.specs.Dues as dues;
ghost use Rattle.conversation_rules.specs.Dues.{settled};
ghost use Rattle.conversation_rules.specs.Speakers.{one_less};

use conversation_dues::Dues;
use conversation_entries::{code_of, is_between, is_lsp, is_mcp, is_well, may_lack_id, put_if};
use conversation_ids::is_null;
use conversation_reading::{Entry, WrittenId};
use conversation_rules::{
    Finding, Fit, Found, Level, Message, Protocol, Refusals, Reply, Rule, Sight, Stray,
};
use std::alloc::AllocError;

fn says_cancelled(entry: &Entry) -> bool
    ensures { result ≡ says_cancelled entry.now }
{
    match code_of(entry) {
        Some(code) => is_between(32800, 32800, code),
        None => false,
    }
}

fn has_cancelled(owed: &Dues, id: &Option<WrittenId>) -> bool
    ensures { result ≡ option_map_or (λ id. dues.has_cancelled id owed.now) id.now false }
{
    match id {
        Some(id) => owed.has_cancelled(id),
        None => false,
    }
}

fn is_uncalled(protocol: Protocol, owed: &Dues, entry: &Entry) -> bool
    ensures { result ≡ is_uncalled protocol owed.now entry.now }
{
    is_lsp(protocol) && says_cancelled(entry) && !has_cancelled(owed, &entry.id)
}

fn has_null(id: &Option<WrittenId>) -> bool
    ensures { result ≡ option_map_or is_null id.now false }
{
    match id {
        Some(id) => is_null(id),
        None => false,
    }
}

fn may_refuse(protocol: Protocol, entry: &Entry) -> bool
    ensures { result ≡ may_refuse protocol entry.now }
{
    (is_well(entry.kind) && has_null(&entry.id)) || may_lack_id(protocol, entry.there)
}

/// What is looked at of an answer, beside its id. `owed` is what its side owes.
pub(crate) fn reply_of(protocol: Protocol, owed: &Dues, at: u64, entry: &Entry) -> Reply
    ensures { result ≡ reply_of protocol owed.now at entry.now }
{
    Reply {
        at,
        is_well: is_well(entry.kind),
        may_refuse: may_refuse(protocol, entry),
        code: code_of(entry),
        is_uncalled: is_uncalled(protocol, owed, entry),
    }
}

fn has_code(size: u64, reply: Reply) -> bool
    ensures { result ≡ rules.has_code size reply }
{
    match reply.code {
        Some(code) => is_between(size, size, code),
        None => false,
    }
}

/// Where the judge couldn't read, it accuses nobody.
pub(crate) fn or_note(is_broken: bool, level: Level) -> Level
    ensures { result ≡ rules.or_note is_broken level }
{
    if is_broken { Level::Note } else { level }
}

fn cancelled_code_level(sight: Sight) -> Level
    ensures { result ≡ cancelled_code_level sight }
{
    if sight.has_unreadable {
        Level::Note
    } else {
        or_note(sight.is_broken, Level::Should)
    }
}

/// What an answer breaks by the entry that it is for.
pub(crate) fn put_fit(
    protocol: Protocol,
    sight: Sight,
    findings: &mut Vec<Finding>,
    message: Message,
    reply: Reply,
    fit: Fit,
) -> Result<(), AllocError>
    ensures { OnOk result (findings.new.items
        ≡ findings.old.items ++ fit_findings protocol sight message reply fit) }
{
    if !(fit.is_request && reply.is_well) {
        return Ok(());
    }
    let level = cancelled_code_level(sight);
    put_if(
        reply.is_uncalled,
        findings,
        message,
        reply.at,
        Rule::CancelledCode,
        level,
    )?;
    let is_late = is_mcp(protocol) && fit.is_cancelled;
    put_if(
        is_late,
        findings,
        message,
        reply.at,
        Rule::AfterCancel,
        Level::Note,
    )
}

pub(crate) fn not_owed_level(sight: Sight, may_be_read: bool) -> Level
    ensures { result ≡ not_owed_level sight may_be_read }
{
    if may_be_read {
        Level::Note
    } else {
        or_note(sight.is_broken, Level::Must)
    }
}

pub(crate) fn stray_of(reply: Reply) -> Stray
    ensures { result ≡ stray_of reply }
{
    Stray {
        at: reply.at,
        is_well: reply.is_well,
    }
}

/// An answer that fits nothing. Where an unreadable content is left, the peer may have read it.
pub(crate) fn put_stray(
    sight: Sight,
    findings: &mut Vec<Finding>,
    message: Message,
    owed: &mut Dues,
    stray: Stray,
) -> Result<(), AllocError>
    ensures findings { OnOk result (findings.new.items
        ≡ findings.old.items ++ not_owed_findings sight message (stray ∷ []) owed.old) }
    ensures owed { owed.new ≡ behind_not_owed (stray ∷ []) owed.old }
{
    if !stray.is_well {
        return Ok(());
    }
    let may_be_read = owed.answer_unreadable();
    let level = not_owed_level(sight, may_be_read);
    put_if(true, findings, message, stray.at, Rule::NotOwed, level)
}

/// Whether one more of the contents that are open may be refused.
fn refuses_open(refusals: Refusals, owed: &Dues) -> bool
    ensures refuses { result ≡ refuses_open refusals owed.now }
    ensures fewer { result ≡ true → refusals.refused + 1 < 2 ^ 64 }
{
    owed.may_be_refused() && refusals.refused < owed.len()
}

/// Whether an answer that fits nothing counts for a content that was refused.
fn refuses(sight: Sight, reply: Reply, owed: &Dues) -> bool
    ensures { result ≡ refuses sight reply owed.now }
{
    reply.may_refuse && (refuses_open(sight.refusals, owed) || sight.refusals.unowed != 0)
}

fn one_less(count: u64) -> u64
    ensures { result ≡ one_less count }
{
    if count == u64::MAX {
        count
    } else {
        count.saturating_sub(1)
    }
}

fn one_refused(refusals: Refusals, owed: &Dues) -> Refusals
    ensures { result ≡ one_refused refusals owed.now }
{
    if refuses_open(refusals, owed) {
        Refusals {
            refused: refusals.refused + 1,
            unowed: refusals.unowed,
        }
    } else {
        Refusals {
            refused: refusals.refused,
            unowed: one_less(refusals.unowed),
        }
    }
}

/// An answer that stands alone and fits nothing. Answers what its side may have refused by then.
fn put_unfit(
    sight: Sight,
    findings: &mut Vec<Finding>,
    message: Message,
    owed: &mut Dues,
    reply: Reply,
) -> Result<Refusals, AllocError>
    ensures findings { OnOk result (findings.new.items
        ≡ findings.old.items ++ unfit_findings sight message reply owed.old) }
    ensures owed { owed.new ≡ behind_unfit sight reply owed.old }
    ensures refused { IfOk result (λ refusals. refusals ≡ refused_by sight reply owed.old) }
{
    if refuses(sight, reply, owed) {
        put_if(
            reply.is_well,
            findings,
            message,
            reply.at,
            Rule::NotOwed,
            Level::Note,
        )?;
        return Ok(one_refused(sight.refusals, owed));
    }
    put_stray(sight, findings, message, owed, stray_of(reply))?;
    Ok(sight.refusals)
}

/// What a single answer is for: that is settled, and told.
fn settle_single(
    sight: Sight,
    owed: &mut Dues,
    reply: Reply,
    id: &Option<WrittenId>,
) -> Option<Found>
    ensures found { result ≡ dues.found (target_of sight reply id.now owed.old) owed.old }
    ensures owed { owed.new ≡ settled (target_of sight reply id.now owed.old) owed.old }
{
    match id {
        Some(id) => settle_id(sight, owed, reply, id),
        None => None,
    }
}

fn settle_id(sight: Sight, owed: &mut Dues, reply: Reply, id: &WrittenId) -> Option<Found>
    ensures found { result ≡ dues.found (target_of_id sight reply owed.old id.now) owed.old }
    ensures owed { owed.new ≡ settled (target_of_id sight reply owed.old id.now) owed.old }
{
    if is_null(id) {
        settle_null(sight, owed, reply)
    } else {
        owed.answer_named(id)
    }
}

/// Whether it may be for a content that is refused whole, or that couldn't be read.
fn is_unsure(sight: Sight, reply: Reply, owed: &Dues) -> bool
    ensures { result ≡ is_unsure sight reply owed.now }
{
    refuses(sight, reply, owed) || (reply.may_refuse && owed.has_unreadable())
}

fn settle_null(sight: Sight, owed: &mut Dues, reply: Reply) -> Option<Found>
    ensures found { result ≡ dues.found (target_of_null sight reply owed.old) owed.old }
    ensures owed { owed.new ≡ settled (target_of_null sight reply owed.old) owed.old }
{
    let is_unsure = is_unsure(sight, reply, owed);
    if has_code(32700, reply) {
        owed.answer_parse_error(is_unsure)
    } else {
        owed.answer_null(has_code(32600, reply), is_unsure)
    }
}

/// The same of an answer in an array that is no batch's.
pub(crate) fn settle_in_array(
    owed: &mut Dues,
    reply: Reply,
    id: &Option<WrittenId>,
) -> Option<Found>
    ensures found { result ≡ dues.found (target_in_array reply id.now owed.old) owed.old }
    ensures owed { owed.new ≡ settled (target_in_array reply id.now owed.old) owed.old }
{
    match id {
        Some(id) => settle_id_in_array(owed, reply, id),
        None => None,
    }
}

fn settle_id_in_array(owed: &mut Dues, reply: Reply, id: &WrittenId) -> Option<Found>
    ensures found { result ≡ dues.found (target_in_array_of_id reply owed.old id.now) owed.old }
    ensures owed { owed.new ≡ settled (target_in_array_of_id reply owed.old id.now) owed.old }
{
    if is_null(id) {
        owed.answer_null(has_code(32600, reply), false)
    } else {
        owed.answer_named(id)
    }
}

/// An answer that stands alone. Answers what its side may have refused by then.
pub(crate) fn put_single(
    protocol: Protocol,
    sight: Sight,
    findings: &mut Vec<Finding>,
    message: Message,
    owed: &mut Dues,
    reply: Reply,
    id: &Option<WrittenId>,
) -> Result<Refusals, AllocError>
    ensures findings { OnOk result (findings.new.items
        ≡ findings.old.items ++ single_findings protocol sight message reply id.now owed.old) }
    ensures owed { owed.new ≡ behind_single sight reply id.now owed.old }
    ensures refused { IfOk result (λ refusals. refusals ≡ refused_behind_single sight reply id.now owed.old) }
{
    match settle_single(sight, owed, reply, id) {
        None => return put_unfit(sight, findings, message, owed, reply),
        Some(Found::Whole) => {}
        Some(Found::Entry(fit)) => put_single_fit(protocol, sight, findings, message, reply, fit)?,
    }
    Ok(sight.refusals)
}

fn put_single_fit(
    protocol: Protocol,
    sight: Sight,
    findings: &mut Vec<Finding>,
    message: Message,
    reply: Reply,
    fit: Fit,
) -> Result<(), AllocError>
    ensures { OnOk result (findings.new.items
        ≡ findings.old.items ++ single_fit_findings protocol sight message reply fit) }
{
    let is_apart = fit.in_batch && reply.is_well;
    let level = or_note(sight.is_broken, Level::Should);
    put_if(
        is_apart,
        findings,
        message,
        reply.at,
        Rule::NotAsArray,
        level,
    )?;
    put_fit(protocol, sight, findings, message, reply, fit)
}
