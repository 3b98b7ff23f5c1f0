//! What a side wrote, and how it ended.

ghost use Rattle.std.specs.Prelude.{◌≡◌, ◌++◌, OnOk, IfOk, None, Some, is_some, map};
ghost use Rattle.content_streams.specs.Streams.{next_placed, close_of};
ghost use Rattle.conversation_entries.specs.Said.{said};
ghost use Rattle.conversation_judge.specs.Said.{pair, next_findings, behind_next, stream_behind_next, ended_as, state};
ghost use Rattle.conversation_rules.specs.Judging as rules;
ghost use Rattle.conversation_rules.specs.Judging.{contents_findings, behind_contents, new_contents, all_taken, fault_findings, fed, wrote_findings, behind_wrote, ended_stream, unanswered_findings, maybe_answered, counted_as_refused, when_refused, ended_findings, behind_ended};

use crate::answers::or_note;
use crate::contents::{is_broken, take_content};
use content_streams::{ContentStream, HowEnded, StreamEnd, placed_contents_are_the_contents};
use conversation_entries::{Speaker, is_mcp, put_if};
use conversation_reading::StrictReader;
use conversation_rules::{Finding, Level, Message, Protocol, Refusals, Rule, Side, Unanswered};
use lsp_frames::FrameFault;
use std::alloc::{AllocError, Global};

/// The next content of a side's stream, if there is one: it is judged, and taken.
fn take_next(
    alloc: Global,
    protocol: Protocol,
    reader: &mut StrictReader,
    side: Side,
    is_unfinished: bool,
    findings: &mut Vec<Finding>,
    stream: &mut ContentStream,
    own: &mut Speaker,
    other: &mut Speaker,
) -> Result<bool, AllocError>
    ensures is_there { IfOk result (λ is_there. is_there ≡ is_some (next_placed stream.old)) }
    ensures findings { OnOk result (findings.new.items ≡ findings.old.items
        ++ next_findings protocol side is_unfinished (pair own.old other.old) (next_placed stream.old)) }
    ensures pair { OnOk result (pair own.new other.new
        ≡ behind_next protocol side is_unfinished (pair own.old other.old) (next_placed stream.old)) }
    ensures stream { OnOk result (stream.new ≡ stream_behind_next stream.old) }
{
    placed_contents_are_the_contents();
    let place = stream.front_place().unwrap_or(0);
    match stream.front() {
        Some(content) => {
            take_content(
                alloc,
                protocol,
                reader,
                side,
                is_unfinished,
                findings,
                own,
                other,
                place,
                &content,
            )?;
            stream.pop();
            Ok(true)
        }
        None => Ok(false),
    }
}

/// The contents that weren't judged yet.
fn take_contents(
    alloc: Global,
    protocol: Protocol,
    reader: &mut StrictReader,
    side: Side,
    is_unfinished: bool,
    findings: &mut Vec<Finding>,
    stream: &mut ContentStream,
    own: &mut Speaker,
    other: &mut Speaker,
) -> Result<(), AllocError>
    ensures findings { OnOk result (findings.new.items ≡ findings.old.items
        ++ contents_findings protocol side is_unfinished (new_contents stream.old) (pair own.old other.old)) }
    ensures pair { OnOk result (pair own.new other.new
        ≡ behind_contents protocol side is_unfinished (new_contents stream.old) (pair own.old other.old)) }
    ensures stream { OnOk result (stream.new ≡ all_taken stream.old) }
{
    while take_next(
        alloc,
        protocol,
        reader,
        side,
        is_unfinished,
        findings,
        stream,
        own,
        other,
    )? {}
    Ok(())
}

fn fault_rule(fault: FrameFault) -> Rule
    ensures { result ≡ rules.fault_rule fault }
{
    match fault {
        FrameFault::BadHead
        | FrameFault::BadLength
        | FrameFault::TwoLengths
        | FrameFault::NoLength => Rule::Head,
        FrameFault::LongLength | FrameFault::TooLarge | FrameFault::HeadTooLong => Rule::NotJudged,
        FrameFault::Truncated => Rule::CutOff,
    }
}

fn fault_level(fault: FrameFault) -> Level
    ensures { result ≡ rules.fault_level fault }
{
    match fault {
        FrameFault::BadHead
        | FrameFault::BadLength
        | FrameFault::TwoLengths
        | FrameFault::NoLength
        | FrameFault::Truncated => Level::Must,
        FrameFault::LongLength | FrameFault::TooLarge | FrameFault::HeadTooLong => Level::Note,
    }
}

/// A fault of a stream is told once.
fn put_fault(
    side: Side,
    findings: &mut Vec<Finding>,
    stream: &ContentStream,
    own: &Speaker,
    other: &Speaker,
) -> Result<(), AllocError>
    ensures { OnOk result (findings.new.items
        ≡ findings.old.items ++ fault_findings side stream.now (pair own.now other.now)) }
{
    if own.is_over {
        return Ok(());
    }
    match (stream.close(), stream.fault_place()) {
        (Some(StreamEnd::Fault(fault)), Some(offset)) => {
            let message = Message {
                side,
                number: own.count.saturating_add(1),
                offset,
            };
            put_if(
                true,
                findings,
                message,
                0,
                fault_rule(fault),
                fault_level(fault),
            )
        }
        _ => Ok(()),
    }
}

fn has_fault(stream: &ContentStream) -> bool
    ensures { result ≡ rules.is_fault (close_of stream.now) }
{
    match stream.close() {
        Some(StreamEnd::Fault(_)) => true,
        Some(StreamEnd::Clean | StreamEnd::ReadFailed) | None => false,
    }
}

/// A side that hasn't ended wrote these bytes.
fn take_bytes(
    alloc: Global,
    protocol: Protocol,
    reader: &mut StrictReader,
    side: Side,
    findings: &mut Vec<Finding>,
    stream: &mut ContentStream,
    own: &mut Speaker,
    other: &mut Speaker,
    bytes: &[u8],
) -> Result<(), AllocError>
    requires { stream.old.ended ≡ None }
    ensures findings { OnOk result (findings.new.items ≡ findings.old.items
        ++ wrote_findings protocol side (fed bytes.now stream.old) (pair own.old other.old)) }
    ensures pair { OnOk result (pair own.new other.new
        ≡ behind_wrote protocol side (fed bytes.now stream.old) (pair own.old other.old)) }
    ensures stream { OnOk result (stream.new ≡ all_taken (fed bytes.now stream.old)) }
{
    stream.feed(bytes)?;
    take_contents(
        alloc, protocol, reader, side, false, findings, stream, own, other,
    )?;
    put_fault(side, findings, stream, own, other)?;
    own.is_over = own.is_over || has_fault(stream);
    Ok(())
}

fn unanswered_level(how: HowEnded, is_broken: bool, request: Unanswered) -> Level
    ensures { result ≡ rules.unanswered_level how is_broken request }
{
    match how {
        HowEnded::ReadFailed => Level::Note,
        HowEnded::Closed => {
            if request.may_be_answered {
                Level::Note
            } else {
                or_note(is_broken, Level::Must)
            }
        }
    }
}

fn unanswered_finding(side: Side, how: HowEnded, is_broken: bool, request: Unanswered) -> Finding
    ensures { result ≡ rules.unanswered_finding side how is_broken request }
{
    Finding {
        side,
        rule: Rule::Unanswered,
        level: unanswered_level(how, is_broken, request),
        number: request.number,
        offset: request.offset,
        entry: request.entry,
    }
}

/// As many contents as `asker` says may have been refused: of those that may be, the oldest count as such.
fn put_each_unanswered(
    side: Side,
    how: HowEnded,
    is_broken: bool,
    findings: &mut Vec<Finding>,
    asker: &Speaker,
    requests: &[Unanswered],
) -> Result<(), AllocError>
    ensures { OnOk result (findings.new.items ≡ findings.old.items
        ++ map (rules.unanswered_finding side how is_broken) (counted_as_refused asker.now.refusals.refused 0
        (map (maybe_answered asker.now.unsure_up_to) requests.now))) }
{
    let mut refused = asker.refusals.refused;
    let mut number = 0;
    for request in requests {
        if counts_as_refused(*request, refused, number) {
            refused -= 1;
            number = request.number;
        }
        let request = maybe_answered(*request, asker.unsure_up_to);
        let request = when_refused(request, number);
        findings.push(unanswered_finding(side, how, is_broken, request))?;
    }
    Ok(())
}

/// What couldn't be read may have been the answer to what came up to a content.
fn maybe_answered(request: Unanswered, unsure_up_to: u64) -> Unanswered
    ensures { result ≡ maybe_answered unsure_up_to request }
{
    Unanswered {
        may_be_answered: request.number <= unsure_up_to,
        ..request
    }
}

/// One of so many errors may have refused its content, which isn't the last that counts as refused.
fn counts_as_refused(request: Unanswered, refused: u64, number: u64) -> bool
    ensures { result ≡ rules.counts_as_refused refused number request }
{
    request.may_be_refused && refused > 0 && request.number != number
}

/// A request of the content with this number may have been refused.
fn when_refused(request: Unanswered, number: u64) -> Unanswered
    ensures { result ≡ when_refused number request }
{
    Unanswered {
        may_be_answered: request.may_be_answered || request.number == number,
        ..request
    }
}

/// Whether it is the client, and ends the session: in LSP it sent `exit`, and in MCP it does so by its end.
fn ends_session(protocol: Protocol, side: Side, own: &Speaker) -> bool
    ensures { result ≡ rules.ends_session protocol side (said own.now) }
{
    match side {
        Side::Client => own.has_exited || is_mcp(protocol),
        Side::Server => false,
    }
}

/// What a side still owes when it ends.
fn put_unanswered(
    protocol: Protocol,
    side: Side,
    how: HowEnded,
    findings: &mut Vec<Finding>,
    own: &Speaker,
    other: &Speaker,
) -> Result<(), AllocError>
    ensures { OnOk result (findings.new.items ≡ findings.old.items
        ++ unanswered_findings protocol side how (pair own.now other.now)) }
{
    if other.has_ended || other.has_exited || ends_session(protocol, side, own) {
        return Ok(());
    }
    let requests = other.owed.unanswered()?;
    let is_broken = is_broken(own, other);
    put_each_unanswered(side, how, is_broken, findings, other, requests.as_slice())
}

/// A side that hasn't ended does.
fn take_end(
    alloc: Global,
    protocol: Protocol,
    reader: &mut StrictReader,
    side: Side,
    findings: &mut Vec<Finding>,
    stream: &mut ContentStream,
    own: &mut Speaker,
    other: &mut Speaker,
    how: HowEnded,
) -> Result<(), AllocError>
    requires { stream.old.ended ≡ None }
    ensures findings { OnOk result (findings.new.items ≡ findings.old.items
        ++ ended_findings protocol side how (ended_stream how stream.old) (pair own.old other.old)) }
    ensures pair { OnOk result (pair own.new other.new
        ≡ behind_ended protocol side (ended_stream how stream.old) (pair own.old other.old)) }
    ensures stream { OnOk result (stream.new ≡ all_taken (ended_stream how stream.old)) }
{
    stream.end(how);
    take_contents(
        alloc, protocol, reader, side, true, findings, stream, own, other,
    )?;
    put_fault(side, findings, stream, own, other)?;
    put_unanswered(protocol, side, how, findings, own, other)?;
    own.has_ended = true;
    other.owed.clear();
    other.refusals = Refusals {
        refused: 0,
        unowed: 0,
    };
    Ok(())
}

/// A side wrote these bytes. Behind its end they don't count.
fn see_bytes(
    alloc: Global,
    protocol: Protocol,
    reader: &mut StrictReader,
    side: Side,
    findings: &mut Vec<Finding>,
    stream: &mut ContentStream,
    own: &mut Speaker,
    other: &mut Speaker,
    bytes: &[u8],
) -> Result<(), AllocError>
    ensures findings { OnOk result (findings.new.items ≡ findings.old.items
        ++ rules.event_findings protocol side None stream.old (fed bytes.now stream.old) (pair own.old other.old)) }
    ensures pair { OnOk result (pair own.new other.new
        ≡ rules.event_pair protocol side None stream.old (fed bytes.now stream.old) (pair own.old other.old)) }
    ensures stream { OnOk result (stream.new ≡ rules.event_stream stream.old (fed bytes.now stream.old)) }
{
    if stream.has_ended() {
        return Ok(());
    }
    take_bytes(
        alloc, protocol, reader, side, findings, stream, own, other, bytes,
    )
}

/// A side ended. Behind its end another one doesn't count.
fn see_end(
    alloc: Global,
    protocol: Protocol,
    reader: &mut StrictReader,
    side: Side,
    findings: &mut Vec<Finding>,
    stream: &mut ContentStream,
    own: &mut Speaker,
    other: &mut Speaker,
    how: HowEnded,
) -> Result<(), AllocError>
    ensures findings { OnOk result (findings.new.items ≡ findings.old.items
        ++ rules.event_findings protocol side (Some how) stream.old (ended_stream how stream.old) (pair own.old other.old)) }
    ensures pair { OnOk result (pair own.new other.new
        ≡ rules.event_pair protocol side (Some how) stream.old (ended_stream how stream.old) (pair own.old other.old)) }
    ensures stream { OnOk result (stream.new ≡ rules.event_stream stream.old (ended_stream how stream.old)) }
{
    if stream.has_ended() {
        return Ok(());
    }
    take_end(
        alloc, protocol, reader, side, findings, stream, own, other, how,
    )
}

/// Either side wrote these bytes.
pub(crate) fn see_bytes_of(
    alloc: Global,
    protocol: Protocol,
    reader: &mut StrictReader,
    side: Side,
    findings: &mut Vec<Finding>,
    client_stream: &mut ContentStream,
    server_stream: &mut ContentStream,
    client: &mut Speaker,
    server: &mut Speaker,
    bytes: &[u8],
) -> Result<(), AllocError>
    ensures findings { OnOk result (findings.new.items ≡ findings.old.items ++ rules.step_findings protocol (rules.Wrote side bytes.now)
        (state client_stream.old server_stream.old client.old server.old)) }
    ensures state { OnOk result (state client_stream.new server_stream.new client.new server.new
        ≡ rules.step protocol (rules.Wrote side bytes.now) (state client_stream.old server_stream.old client.old server.old)) }
{
    match side {
        Side::Client => see_bytes(
            alloc,
            protocol,
            reader,
            side,
            findings,
            client_stream,
            client,
            server,
            bytes,
        ),
        Side::Server => see_bytes(
            alloc,
            protocol,
            reader,
            side,
            findings,
            server_stream,
            server,
            client,
            bytes,
        ),
    }
}

/// Either side ended.
pub(crate) fn see_end_of(
    alloc: Global,
    protocol: Protocol,
    reader: &mut StrictReader,
    side: Side,
    findings: &mut Vec<Finding>,
    client_stream: &mut ContentStream,
    server_stream: &mut ContentStream,
    client: &mut Speaker,
    server: &mut Speaker,
    how: HowEnded,
) -> Result<(), AllocError>
    ensures findings { OnOk result (findings.new.items ≡ findings.old.items ++ rules.step_findings protocol (ended_as side how)
        (state client_stream.old server_stream.old client.old server.old)) }
    ensures state { OnOk result (state client_stream.new server_stream.new client.new server.new
        ≡ rules.step protocol (ended_as side how) (state client_stream.old server_stream.old client.old server.old)) }
{
    match side {
        Side::Client => see_end(
            alloc,
            protocol,
            reader,
            side,
            findings,
            client_stream,
            client,
            server,
            how,
        ),
        Side::Server => see_end(
            alloc,
            protocol,
            reader,
            side,
            findings,
            server_stream,
            server,
            client,
            how,
        ),
    }
}
