//! What the answers of an array break by what is owed, and what they settle.

ghost use Rattle.std.specs.Prelude.{◌≡◌, ◌++◌, ◌∷◌, [], OnOk, IfOk, false};
ghost use Rattle.conversation_judge.specs.Said.{each, array_found, found_with};
ghost use Rattle.conversation_rules.specs.Answers as rules;
ghost use Rattle.conversation_rules.specs.Answers.{each_not_owed, not_owed_findings, behind_not_owed, array_findings, among_findings, apart_findings, each_of, new_each, strays_findings, behind_strays, rest_findings, behind_rest, each_findings, behind_each, answers_findings, behind_answers};

use crate::answers::{not_owed_level, or_note, put_fit, put_stray, settle_in_array, stray_of};
use conversation_dues::Dues;
use conversation_entries::put_if;
use conversation_reading::WrittenId;
use conversation_rules::{
    Finding, Fit, Found, Level, Message, Protocol, Reply, Rule, Sight, Stray,
};
use std::alloc::{AllocError, Global};

/// Each of these fits nothing.
fn put_each_stray(
    findings: &mut Vec<Finding>,
    message: Message,
    level: Level,
    strays: &[Stray],
) -> Result<(), AllocError>
    ensures { OnOk result (findings.new.items
        ≡ findings.old.items ++ each_not_owed message level strays.now) }
{
    for stray in strays {
        put_if(
            stray.is_well,
            findings,
            message,
            stray.at,
            Rule::NotOwed,
            level,
        )?;
    }
    Ok(())
}

fn are_told(strays: &[Stray]) -> bool
    ensures { result ≡ rules.are_told strays.now }
{
    strays.iter().any(|stray| stray.is_well)
}

/// An array that fits nothing.
fn put_array_of_strays(
    sight: Sight,
    findings: &mut Vec<Finding>,
    message: Message,
    owed: &mut Dues,
    strays: &[Stray],
) -> Result<(), AllocError>
    ensures findings { OnOk result (findings.new.items
        ≡ findings.old.items ++ not_owed_findings sight message strays.now owed.old) }
    ensures owed { owed.new ≡ behind_not_owed strays.now owed.old }
{
    if !are_told(strays) {
        return Ok(());
    }
    let may_be_read = owed.answer_unreadable();
    put_each_stray(
        findings,
        message,
        not_owed_level(sight, may_be_read),
        strays,
    )
}

/// Those of an array that fit nothing, one by one.
fn put_strays(
    sight: Sight,
    findings: &mut Vec<Finding>,
    message: Message,
    owed: &mut Dues,
    strays: &[Stray],
) -> Result<(), AllocError>
    ensures findings { OnOk result (findings.new.items
        ≡ findings.old.items ++ strays_findings sight message strays.now owed.old) }
    ensures owed { OnOk result (owed.new ≡ behind_strays strays.now owed.old) }
{
    for stray in strays {
        put_stray(sight, findings, message, owed, *stray)?;
    }
    Ok(())
}

fn put_rest(
    sight: Sight,
    findings: &mut Vec<Finding>,
    message: Message,
    owed: &mut Dues,
    none_fits: bool,
    strays: &[Stray],
) -> Result<(), AllocError>
    ensures findings { OnOk result (findings.new.items
        ≡ findings.old.items ++ rest_findings sight message none_fits strays.now owed.old) }
    ensures owed { OnOk result (owed.new ≡ behind_rest none_fits strays.now owed.old) }
{
    if none_fits {
        put_array_of_strays(sight, findings, message, owed, strays)
    } else {
        put_strays(sight, findings, message, owed, strays)
    }
}

#[tactic(auto, unfolding(crate::specs::Said::found_with))]
fn put_taken(
    protocol: Protocol,
    sight: Sight,
    findings: &mut Vec<Finding>,
    message: Message,
    reply: Reply,
    fit: &Option<Fit>,
) -> Result<(), AllocError>
    ensures { OnOk result (findings.new.items
        ≡ found_with protocol sight message reply fit.now findings.old.items) }
{
    match fit {
        Some(fit) => put_fit(protocol, sight, findings, message, reply, *fit),
        None => Ok(()),
    }
}

/// The answers of a batch, each with the entry that it takes.
fn put_fits(
    protocol: Protocol,
    sight: Sight,
    findings: &mut Vec<Finding>,
    message: Message,
    replies: &[Reply],
    fits: &[Option<Fit>],
) -> Result<(), AllocError>
    ensures { OnOk result (findings.new.items
        ≡ array_found protocol sight message replies.now fits.now findings.old.items) }
{
    for at in 0..replies.len().min(fits.len()) {
        put_taken(protocol, sight, findings, message, replies[at], &fits[at])?;
    }
    Ok(())
}

fn are_well(replies: &[Reply]) -> bool
    ensures { result ≡ rules.are_well replies.now }
{
    replies.iter().any(|reply| reply.is_well)
}

fn put_apart(
    protocol: Protocol,
    sight: Sight,
    findings: &mut Vec<Finding>,
    message: Message,
    reply: Reply,
    is_told: bool,
    fit: Fit,
) -> Result<(), AllocError>
    ensures { OnOk result (findings.new.items
        ≡ findings.old.items ++ apart_findings protocol sight message reply is_told fit) }
{
    let is_first = reply.is_well && !is_told;
    let level = or_note(sight.is_broken, Level::Should);
    put_if(is_first, findings, message, 0, Rule::NotAsArray, level)?;
    put_fit(protocol, sight, findings, message, reply, fit)
}

/// What has come of the answers so far, beside what is still owed.
#[derive(Drop)]
struct Looked {
    findings: Vec<Finding>,
    strays: Vec<Stray>,
    is_told: bool,
}

/// An answer of an array that is no batch's.
fn look_at(
    protocol: Protocol,
    sight: Sight,
    message: Message,
    owed: &mut Dues,
    looked: &mut Looked,
    reply: Reply,
    id: &Option<WrittenId>,
) -> Result<(), AllocError>
    ensures { OnOk result (each owed.new looked.new ≡ rules.with_reply protocol sight message reply id.now (each owed.old looked.old)) }
{
    match settle_in_array(owed, reply, id) {
        None => looked.strays.push(stray_of(reply))?,
        Some(Found::Whole) => {}
        Some(Found::Entry(fit)) => {
            let is_told = looked.is_told;
            put_apart(
                protocol,
                sight,
                &mut looked.findings,
                message,
                reply,
                is_told,
                fit,
            )?;
            looked.is_told = is_told || reply.is_well;
        }
    }
    Ok(())
}

/// All of them.
fn look_at_each(
    protocol: Protocol,
    sight: Sight,
    message: Message,
    owed: &mut Dues,
    looked: &mut Looked,
    replies: &[Reply],
    ids: &[Option<WrittenId>],
) -> Result<(), AllocError>
    ensures { OnOk result (each owed.new looked.new ≡ each_of protocol sight message replies.now ids.now (each owed.old looked.old)) }
{
    for at in 0..replies.len().min(ids.len()) {
        look_at(
            protocol,
            sight,
            message,
            owed,
            looked,
            replies[at],
            &ids[at],
        )?;
    }
    Ok(())
}

/// An array of answers that is no batch's.
fn put_each(
    alloc: Global,
    protocol: Protocol,
    sight: Sight,
    findings: &mut Vec<Finding>,
    message: Message,
    owed: &mut Dues,
    replies: &[Reply],
    ids: &[Option<WrittenId>],
) -> Result<(), AllocError>
    ensures findings { OnOk result (findings.new.items ≡ findings.old.items
        ++ each_findings sight message replies.now (each_of protocol sight message replies.now ids.now (new_each owed.old))) }
    ensures owed { OnOk result (owed.new
        ≡ behind_each replies.now (each_of protocol sight message replies.now ids.now (new_each owed.old))) }
{
    let mut looked = Looked {
        findings: Vec::new(alloc),
        strays: Vec::new(alloc),
        is_told: false,
    };
    look_at_each(protocol, sight, message, owed, &mut looked, replies, ids)?;
    findings.extend_from_slice(looked.findings.as_slice())?;
    let none_fits = looked.strays.len() == replies.len();
    put_rest(
        sight,
        findings,
        message,
        owed,
        none_fits,
        looked.strays.as_slice(),
    )
}

/// The answers of an array; they are alone where nothing but answers stands in it.
pub(crate) fn put_answers(
    alloc: Global,
    protocol: Protocol,
    sight: Sight,
    findings: &mut Vec<Finding>,
    message: Message,
    owed: &mut Dues,
    are_alone: bool,
    replies: &[Reply],
    ids: &[Option<WrittenId>],
) -> Result<(), AllocError>
    ensures findings { OnOk result (findings.new.items ≡ findings.old.items
        ++ answers_findings protocol sight message are_alone replies.now ids.now owed.old) }
    ensures owed { OnOk result (owed.new
        ≡ behind_answers protocol sight message replies.now ids.now owed.old) }
{
    match owed.answer_batch(ids)? {
        Some(fits) => {
            put_batch(
                protocol,
                sight,
                findings,
                message,
                are_alone,
                replies,
                fits.as_slice(),
            )
        }
        None => put_each(
            alloc, protocol, sight, findings, message, owed, replies, ids,
        ),
    }
}

fn put_among(
    sight: Sight,
    findings: &mut Vec<Finding>,
    message: Message,
    are_alone: bool,
    replies: &[Reply],
) -> Result<(), AllocError>
    ensures { OnOk result (findings.new.items
        ≡ findings.old.items ++ among_findings sight message are_alone replies.now) }
{
    let is_mixed = !are_alone && are_well(replies);
    let level = or_note(sight.is_broken, Level::Should);
    put_if(is_mixed, findings, message, 0, Rule::NotAsArray, level)
}

fn put_batch(
    protocol: Protocol,
    sight: Sight,
    findings: &mut Vec<Finding>,
    message: Message,
    are_alone: bool,
    replies: &[Reply],
    fits: &[Option<Fit>],
) -> Result<(), AllocError>
    ensures { OnOk result (findings.new.items ≡ findings.old.items
        ++ (among_findings sight message are_alone replies.now ++ array_findings protocol sight message replies.now fits.now)) }
{
    put_among(sight, findings, message, are_alone, replies)?;
    put_fits(protocol, sight, findings, message, replies, fits)
}
