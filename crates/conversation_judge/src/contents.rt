//! A content: what it breaks, and what is kept of it.

ghost use Rattle.std.specs.Prelude.{◌≡◌, ◌++◌, ℕ, List, Option, length, Some, OnOk, IfOk, true};
ghost use Rattle.content_streams.specs.Streams.{capped};
ghost use Rattle.conversation_entries.specs.Said.{said};
ghost use Rattle.conversation_judge.specs.Said.{pair};
ghost use Rattle.conversation_reading.specs.declared.entry.WrittenId.{WrittenId as WrittenIdValue};
ghost use Rattle.conversation_reading.specs.declared.entry.WrittenId.TheVariants.{Null};
ghost use Rattle.conversation_rules.specs.Contents as rules;
ghost use Rattle.conversation_rules.specs.Contents.{sight_of, array_sight, guesses, opened, shut, not_json_rule, unreadable, single_outcome, empty_outcome, batch_findings, entries_findings, behind_entries, counted_array, replies_in, reply_ids, array_outcome, behind_line_end, reading_outcome, content_outcome};
ghost use Rattle.conversation_rules.specs.Entries.{answer_id};
ghost use Rattle.conversation_rules.specs.Protocols as protocols;
ghost use Rattle.conversation_rules.specs.Speakers.{Speaker as SpeakerValue, is_broken};
ghost use Rattle.lsp_frames.specs.Gathered.{frame_of_content};

use crate::answers::{put_single, reply_of};
use crate::arrays::put_answers;
use conversation_dues::Dues;
use conversation_entries::{Speaker, is_answer, may_lack_id, owe, put_if, say_entry, take_entry};
use conversation_ids::Owed;
use conversation_reading::{Entry, Reading, StrictReader, WrittenId};
use conversation_rules::{Finding, Level, Message, Protocol, Reply, Rule, Side, Sight};
use json_values::{Items, Text};
use lsp_frames::Content;
use std::alloc::{AllocError, Global};
use std::collections::VecDeque;

/// Whether what is owed can't be known: the judge reads the stream of either side no further, or had to guess.
pub(crate) fn is_broken(own: &Speaker, other: &Speaker) -> bool
    ensures { result ≡ is_broken (pair own.now other.now) }
{
    own.is_over || other.is_over || other.is_guessed
}

fn sight_of(own: &Speaker, other: &Speaker) -> Sight
    ensures { result ≡ sight_of (pair own.now other.now) }
{
    Sight {
        is_broken: is_broken(own, other),
        has_unreadable: other.has_unreadable,
        refusals: other.refusals,
    }
}

/// With what an array is judged, where it may have to be guessed for which batch it is.
fn array_sight(own: &Speaker, other: &Speaker, is_guess: bool) -> Sight
    ensures { (ids : List (Option WrittenIdValue)) → is_guess ≡ guesses (said other.now) ids →
        result ≡ array_sight (pair own.now other.now) ids }
{
    let sight = sight_of(own, other);
    Sight {
        is_broken: sight.is_broken || is_guess,
        has_unreadable: sight.has_unreadable,
        refusals: sight.refusals,
    }
}

/// Whether it has to be guessed for which batch an array of answers with these ids is. Where no request may be left without an
/// answer, an array is judged by what it fits.
fn guesses(asker: &Speaker, ids: &[Option<WrittenId>]) -> Result<bool, AllocError>
    ensures { IfOk result (λ b. b ≡ guesses (said asker.now) ids.now) }
{
    if asker.has_cancelled {
        asker.owed.is_guess(ids)
    } else {
        Ok(false)
    }
}

/// A content that isn't read: it may have been an answer, a request or a cancel.
fn take_unreadable(
    findings: &mut Vec<Finding>,
    message: Message,
    own: &mut Speaker,
    other: &mut Speaker,
    rule: Rule,
    level: Level,
) -> Result<(), AllocError>
    ensures findings { OnOk result (findings.new.items ≡ findings.old.items
        ++ (unreadable message (pair own.old other.old) rule level).findings) }
    ensures pair { OnOk result (pair own.new other.new
        ≡ (unreadable message (pair own.old other.old) rule level).pair) }
{
    put_if(true, findings, message, 0, rule, level)?;
    own.owed.open_unreadable(message.number, message.offset)?;
    own.has_unreadable = true;
    other.unsure_up_to = other.count;
    Ok(())
}

/// A content that is one entry.
fn take_single(
    protocol: Protocol,
    findings: &mut Vec<Finding>,
    message: Message,
    own: &mut Speaker,
    other: &mut Speaker,
    entry: Entry,
) -> Result<(), AllocError>
    ensures findings { OnOk result (findings.new.items ≡ findings.old.items
        ++ (single_outcome protocol message entry (pair own.old other.old)).findings) }
    ensures pair { OnOk result (pair own.new other.new
        ≡ (single_outcome protocol message entry (pair own.old other.old)).pair) }
{
    let sight = sight_of(own, other);
    own.owed
        .open(message.number, message.offset, false, entry.has_huge)?;
    say_entry(protocol, findings, message, false, 0, own, &entry)?;
    put_if_answer(protocol, sight, findings, message, other, &entry)?;
    owe(protocol, own, 0, entry)?;
    own.owed.close();
    Ok(())
}

fn put_if_answer(
    protocol: Protocol,
    sight: Sight,
    findings: &mut Vec<Finding>,
    message: Message,
    other: &mut Speaker,
    entry: &Entry,
) -> Result<(), AllocError>
    ensures findings { OnOk result (findings.new.items ≡ findings.old.items
        ++ rules.single_answer_findings protocol sight message entry.now (said other.old)) }
    ensures other { OnOk result (said other.new ≡ rules.single_other protocol sight entry.now (said other.old)) }
{
    if !is_answer(entry.kind) {
        return Ok(());
    }
    let reply = reply_of(protocol, &other.owed, 0, entry);
    let null = Some(WrittenId::Null);
    let id = id_sought(protocol, entry, &null);
    let owed = &mut other.owed;
    other.refusals = put_single(protocol, sight, findings, message, owed, reply, id)?;
    Ok(())
}

/// The id by which a single answer is looked for: null, where an error may be without one.
fn id_sought<'e>(
    protocol: Protocol,
    entry: &'e Entry,
    null: &'e Option<WrittenId>,
) -> &'e Option<WrittenId>
    requires { null.now ≡ Some Null }
    ensures { result.now ≡ answer_id protocol entry.now }
{
    match &entry.id {
        Some(_) => &entry.id,
        None => {
            if may_lack_id(protocol, entry.there) {
                null
            } else {
                &entry.id
            }
        }
    }
}

/// `[]`.
fn take_empty(
    findings: &mut Vec<Finding>,
    message: Message,
    own: &mut Speaker,
) -> Result<(), AllocError>
    ensures findings { OnOk result (findings.new.items ≡ findings.old.items
        ++ rules.empty_findings message) }
    ensures own { OnOk result (said own.new ≡ rules.empty_own message (said own.old)) }
{
    put_if(true, findings, message, 0, Rule::EmptyArray, Level::Must)?;
    own.owed.open(message.number, message.offset, false, false)?;
    own.owed.owe(Owed::on_empty_array())
}

fn are_answers(entries: &[Entry]) -> bool
    ensures { result ≡ rules.are_answers entries.now }
{
    entries.iter().all(|entry| is_answer(entry.kind))
}

fn have_huge(entries: &[Entry]) -> bool
    ensures { result ≡ rules.have_huge entries.now }
{
    entries.iter().any(|entry| entry.has_huge)
}

/// A batch where the rules have none.
fn put_batch(
    protocol: Protocol,
    findings: &mut Vec<Finding>,
    message: Message,
    entries: &[Entry],
) -> Result<(), AllocError>
    ensures { OnOk result (findings.new.items
        ≡ findings.old.items ++ batch_findings protocol message entries.now) }
{
    if are_answers(entries) {
        return Ok(());
    }
    match batch_level(protocol) {
        Some(level) => put_if(true, findings, message, 0, Rule::Batch, level),
        None => Ok(()),
    }
}

fn batch_level(protocol: Protocol) -> Option<Level>
    ensures { result ≡ protocols.batch_level protocol }
{
    match protocol {
        Protocol::Lsp | Protocol::Mcp20241105 => Some(Level::Note),
        Protocol::Mcp | Protocol::Mcp20250618 => Some(Level::Must),
        Protocol::JsonRpc | Protocol::Mcp20250326 => None,
    }
}

fn replies_of(
    alloc: Global,
    protocol: Protocol,
    owed: &Dues,
    entries: &[Entry],
) -> Result<Vec<Reply>, AllocError>
    ensures { IfOk result (λ replies. replies.items ≡ replies_in protocol owed.now 1 entries.now) }
{
    let mut replies = Vec::new(alloc);
    for at in 0..entries.len() {
        if is_answer(entries[at].kind) {
            replies.push(reply_of(protocol, owed, at as u64 + 1, &entries[at]))?;
        }
    }
    Ok(replies)
}

fn copy_of(alloc: Global, id: &Option<WrittenId>) -> Result<Option<WrittenId>, AllocError>
    ensures { IfOk result (λ copy. copy ≡ id.now) }
{
    match id {
        Some(WrittenId::Null) => Ok(Some(WrittenId::Null)),
        Some(WrittenId::Text(text)) => Ok(Some(WrittenId::Text(Text::copy_of(
            alloc,
            text.as_str(),
        )?))),
        Some(WrittenId::Number(text)) => Ok(Some(WrittenId::Number(Text::copy_of(
            alloc,
            text.as_str(),
        )?))),
        None => Ok(None),
    }
}

fn ids_of(alloc: Global, entries: &[Entry]) -> Result<Vec<Option<WrittenId>>, AllocError>
    ensures { IfOk result (λ ids. ids.items ≡ reply_ids entries.now) }
{
    let mut ids = Vec::new(alloc);
    for entry in entries {
        if is_answer(entry.kind) {
            ids.push(copy_of(alloc, &entry.id)?)?;
        }
    }
    Ok(ids)
}

/// The entries of an array, one behind another.
fn take_entries(
    protocol: Protocol,
    findings: &mut Vec<Finding>,
    message: Message,
    own: &mut Speaker,
    entries: Vec<Entry>,
) -> Result<(), AllocError>
    ensures findings { OnOk result (findings.new.items ≡ findings.old.items
        ++ entries_findings protocol message 1 entries.items (said own.old)) }
    ensures own { OnOk result (said own.new ≡ behind_entries protocol 1 entries.items (said own.old)) }
{
    let mut entries = VecDeque::from_vec(entries);
    let mut at = 0;
    while let Some(entry) = entries.pop_front() {
        at += 1;
        take_entry(protocol, findings, message, true, at, own, entry)?;
    }
    Ok(())
}

/// An array on which nothing is open may be refused whole all the same. So many contents were open before it.
fn count_array(own: &mut Speaker, before: u64)
    ensures { (first : SpeakerValue) → before ≡ length first.owed → said own.new ≡ counted_array first (said own.old) }
{
    if own.owed.len() == before {
        own.refusals.unowed = own.refusals.unowed.saturating_add(1);
    }
}

/// What is kept of an array with entries, and what they break by themselves.
fn take_batch(
    protocol: Protocol,
    findings: &mut Vec<Finding>,
    message: Message,
    own: &mut Speaker,
    has_huge: bool,
    entries: Vec<Entry>,
) -> Result<(), AllocError>
    ensures findings { OnOk result (findings.new.items ≡ findings.old.items
        ++ entries_findings protocol message 1 entries.items (opened message true has_huge (said own.old))) }
    ensures own { OnOk result (said own.new
        ≡ counted_array (said own.old) (shut (behind_entries protocol 1 entries.items (opened message true has_huge (said own.old))))) }
{
    let before = own.owed.len();
    own.owed
        .open(message.number, message.offset, true, has_huge)?;
    take_entries(protocol, findings, message, own, entries)?;
    own.owed.close();
    count_array(own, before);
    Ok(())
}

/// A content that is an array with entries.
fn take_array(
    alloc: Global,
    protocol: Protocol,
    findings: &mut Vec<Finding>,
    message: Message,
    own: &mut Speaker,
    other: &mut Speaker,
    entries: Items<Entry>,
) -> Result<(), AllocError>
    ensures findings { OnOk result (findings.new.items ≡ findings.old.items
        ++ (array_outcome protocol message entries (pair own.old other.old)).findings) }
    ensures pair { OnOk result (pair own.new other.new
        ≡ (array_outcome protocol message entries (pair own.old other.old)).pair) }
{
    let are_alone = are_answers(entries.as_slice());
    let replies = replies_of(alloc, protocol, &other.owed, entries.as_slice())?;
    let ids = ids_of(alloc, entries.as_slice())?;
    let is_guess = guesses(other, ids.as_slice())?;
    let sight = array_sight(own, other, is_guess);
    put_batch(protocol, findings, message, entries.as_slice())?;
    let has_huge = have_huge(entries.as_slice());
    take_batch(
        protocol,
        findings,
        message,
        own,
        has_huge,
        entries.into_vec(),
    )?;
    let owed = &mut other.owed;
    put_answers(
        alloc,
        protocol,
        sight,
        findings,
        message,
        owed,
        are_alone,
        replies.as_slice(),
        ids.as_slice(),
    )?;
    other.is_guessed = other.is_guessed || is_guess;
    Ok(())
}

fn not_json_rule(is_unfinished: bool) -> Rule
    ensures { result ≡ not_json_rule is_unfinished }
{
    if is_unfinished {
        Rule::CutOff
    } else {
        Rule::NotJson
    }
}

/// A content, as it was read.
fn take_reading(
    alloc: Global,
    protocol: Protocol,
    is_unfinished: bool,
    findings: &mut Vec<Finding>,
    message: Message,
    own: &mut Speaker,
    other: &mut Speaker,
    reading: Reading,
) -> Result<(), AllocError>
    ensures findings { OnOk result (findings.new.items ≡ findings.old.items
        ++ (reading_outcome protocol is_unfinished message (pair own.old other.old) reading).findings) }
    ensures pair { OnOk result (pair own.new other.new
        ≡ (reading_outcome protocol is_unfinished message (pair own.old other.old) reading).pair) }
{
    match reading {
        Reading::Foreign => take_unreadable(
            findings,
            message,
            own,
            other,
            Rule::Charset,
            Level::Must,
        ),
        Reading::NotText | Reading::NotJson => {
            take_unreadable(
                findings,
                message,
                own,
                other,
                not_json_rule(is_unfinished),
                Level::Must,
            )
        }
        Reading::OverLimits | Reading::HalfPair => {
            take_unreadable(findings, message, own, other, Rule::NotJudged, Level::Note)
        }
        Reading::Single(entry) => {
            put_if(
                is_unfinished,
                findings,
                message,
                0,
                Rule::LineEnd,
                Level::Note,
            )?;
            take_single(protocol, findings, message, own, other, entry)
        }
        Reading::Array(entries) => {
            put_if(
                is_unfinished,
                findings,
                message,
                0,
                Rule::LineEnd,
                Level::Note,
            )?;
            take_items(alloc, protocol, findings, message, own, other, entries)
        }
    }
}

fn take_items(
    alloc: Global,
    protocol: Protocol,
    findings: &mut Vec<Finding>,
    message: Message,
    own: &mut Speaker,
    other: &mut Speaker,
    entries: Items<Entry>,
) -> Result<(), AllocError>
    ensures findings { OnOk result (findings.new.items ≡ findings.old.items
        ++ (rules.items_outcome protocol message (pair own.old other.old) entries).findings) }
    ensures pair { OnOk result (pair own.new other.new
        ≡ (rules.items_outcome protocol message (pair own.old other.old) entries).pair) }
{
    if entries.is_empty() {
        take_empty(findings, message, own)
    } else {
        take_array(alloc, protocol, findings, message, own, other, entries)
    }
}

/// The next content of a side's stream, which begins at this offset.
pub(crate) fn take_content(
    alloc: Global,
    protocol: Protocol,
    reader: &mut StrictReader,
    side: Side,
    is_unfinished: bool,
    findings: &mut Vec<Finding>,
    own: &mut Speaker,
    other: &mut Speaker,
    offset: u64,
    content: &Content<'_>,
) -> Result<(), AllocError>
    ensures findings { (place : ℕ) → offset ≡ capped place → OnOk result (findings.new.items ≡ findings.old.items
        ++ (content_outcome protocol side is_unfinished (place, frame_of_content content.now) (pair own.old other.old)).findings) }
    ensures pair { (place : ℕ) → offset ≡ capped place → OnOk result (pair own.new other.new
        ≡ (content_outcome protocol side is_unfinished (place, frame_of_content content.now) (pair own.old other.old)).pair) }
{
    let reading = reader.read(content.foreign, content.bytes)?;
    own.count = own.count.saturating_add(1);
    own.refusals.refused = own.refusals.refused.min(own.owed.len());
    let message = Message {
        side,
        number: own.count,
        offset,
    };
    take_reading(
        alloc,
        protocol,
        is_unfinished,
        findings,
        message,
        own,
        other,
        reading,
    )
}
