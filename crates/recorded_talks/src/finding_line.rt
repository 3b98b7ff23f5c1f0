//! A finding as a line.

ghost use Rattle.std.specs.Prelude.{◌≡◌, IfOk, string_bytes};
ghost use Rattle.recorded_talks.specs.Told.{finding_text, who_text, message_text, rule_text, entry_place, whose, asked_by, side_name, level_name, rule_name, rule_place};

use conversation_rules::{Finding, Level, Rule, Side};
use std::alloc::{AllocError, Global};

/// The line of a finding, without its LF.
pub(crate) fn finding_text(alloc: Global, finding: Finding) -> Result<String, AllocError>
    ensures { IfOk result (λ text. string_bytes text ≡ finding_text finding) }
{
    let who = who_text(alloc, finding)?;
    let message = message_text(alloc, finding.number, finding.offset)?;
    let entry = entry_place(alloc, finding.entry)?;
    let rule = rule_text(alloc, finding.rule)?;
    format!(in alloc; "{who}{message}{entry}{rule}")
}

/// How bad it is, and whose message it is about.
#[tactic(auto, unfolding(crate::specs::Told::who_text))]
fn who_text(alloc: Global, finding: Finding) -> Result<String, AllocError>
    ensures { IfOk result (λ text. string_bytes text ≡ who_text finding) }
{
    let level = level_name(finding.level);
    let side = side_name(finding.side);
    let whose = whose(finding.rule, finding.side);
    format!(in alloc; "{level}: {side}, {whose}")
}

#[tactic(auto, unfolding(crate::specs::Told::message_text))]
fn message_text(alloc: Global, number: u64, offset: u64) -> Result<String, AllocError>
    ensures { IfOk result (λ text. string_bytes text ≡ message_text number offset) }
{
    format!(in alloc; "message {number} at byte {offset}")
}

/// The rule, and where it stands.
#[tactic(auto, unfolding(crate::specs::Told::rule_text))]
fn rule_text(alloc: Global, rule: Rule) -> Result<String, AllocError>
    ensures { IfOk result (λ text. string_bytes text ≡ rule_text rule) }
{
    let name = rule_name(rule);
    let place = rule_place(rule);
    format!(in alloc; ": {name}{place}")
}

/// The entry's place in its array, where it has one.
#[tactic(auto, unfolding(crate::specs::Told::entry_place))]
fn entry_place(alloc: Global, entry: u64) -> Result<String, AllocError>
    ensures { IfOk result (λ text. string_bytes text ≡ entry_place entry) }
{
    if entry == 0 {
        return Ok(String::new(alloc));
    }
    format!(in alloc; ", entry {entry}")
}

/// Whose message it is, where it isn't the side's own.
fn whose(rule: Rule, side: Side) -> &'static str
    ensures { result.now ≡ whose rule side }
{
    match rule {
        Rule::Unanswered => asked_by(side),
        _ => "",
    }
}

/// A request without an answer is that of the side that asked.
fn asked_by(side: Side) -> &'static str
    ensures { result.now ≡ asked_by side }
{
    match side {
        Side::Client => "server's ",
        Side::Server => "client's ",
    }
}

fn side_name(side: Side) -> &'static str
    ensures { result.now ≡ side_name side }
{
    match side {
        Side::Client => "client",
        Side::Server => "server",
    }
}

fn level_name(level: Level) -> &'static str
    ensures { result.now ≡ level_name level }
{
    match level {
        Level::Must => "must",
        Level::Should => "should",
        Level::Note => "note",
    }
}

/// A rule's name, as docs/judge.md has it.
fn rule_name(rule: Rule) -> &'static str
    ensures { result.now ≡ rule_name rule }
{
    match rule {
        Rule::Head => "head",
        Rule::NotJson => "not-json",
        Rule::Charset => "charset",
        Rule::CutOff => "cut-off",
        Rule::LineEnd => "line-end",
        Rule::Object => "object",
        Rule::Version => "version",
        Rule::Method => "method",
        Rule::Params => "params",
        Rule::Id => "id",
        Rule::Outcome => "outcome",
        Rule::Error => "error",
        Rule::BothKinds => "both-kinds",
        Rule::Twice => "twice",
        Rule::EmptyArray => "empty-array",
        Rule::Batch => "batch",
        Rule::NotOwed => "not-owed",
        Rule::NotAsArray => "not-as-array",
        Rule::IdFraction => "id-fraction",
        Rule::IdNull => "id-null",
        Rule::IdForm => "id-form",
        Rule::IdAgain => "id-again",
        Rule::RpcName => "rpc-name",
        Rule::Code => "code",
        Rule::CancelledCode => "cancelled-code",
        Rule::CancelParams => "cancel-params",
        Rule::CancelUnknown => "cancel-unknown",
        Rule::CancelInitialize => "cancel-initialize",
        Rule::AfterCancel => "after-cancel",
        Rule::ParamsObject => "params-object",
        Rule::ResultObject => "result-object",
        Rule::Unanswered => "unanswered",
        Rule::NotJudged => "not-judged",
    }
}

/// Where a rule stands, as docs/judge.md has it, in parentheses behind a blank.
fn rule_place(rule: Rule) -> &'static str
    ensures { result.now ≡ rule_place rule }
{
    match rule {
        Rule::Head | Rule::Charset => " (LSP, Base Protocol)",
        Rule::NotJson => " (JSON-RPC 4; RFC 8259; MCP, stdio)",
        Rule::CutOff => " (LSP, Base Protocol; MCP, stdio)",
        Rule::LineEnd => " (MCP, stdio)",
        Rule::Object | Rule::Method | Rule::IdForm | Rule::RpcName => " (JSON-RPC 4)",
        Rule::Version | Rule::Id | Rule::Outcome | Rule::BothKinds => " (JSON-RPC 4, 5)",
        Rule::Twice => " (JSON-RPC 4, 5; RFC 8259, 4)",
        Rule::Params => " (JSON-RPC 4.2)",
        Rule::Error => " (JSON-RPC 5.1)",
        Rule::EmptyArray | Rule::NotAsArray => " (JSON-RPC 6)",
        Rule::Batch => " (LSP has no word on them; MCP 2025-06-18, changes)",
        Rule::NotOwed => " (JSON-RPC 4.1, 5)",
        Rule::IdFraction | Rule::IdNull => " (JSON-RPC 4; LSP, Request Message; MCP, messages)",
        Rule::IdAgain => " (JSON-RPC 6; MCP, messages)",
        Rule::Code => " (JSON-RPC 5.1; LSP, ErrorCodes)",
        Rule::CancelledCode => " (LSP, Cancellation Support)",
        Rule::CancelParams | Rule::CancelUnknown =>
            " (LSP, Cancellation Support; MCP, cancellation)",
        Rule::CancelInitialize | Rule::AfterCancel => " (MCP, cancellation)",
        Rule::ParamsObject | Rule::ResultObject => " (MCP, messages)",
        Rule::Unanswered => " (JSON-RPC 5; LSP, Cancellation Support)",
        Rule::NotJudged => "",
    }
}
