//! A finding, as C has it.

ghost use Rattle.std.specs.Prelude.{◌≡◌};
ghost use Rattle.judge_calls.specs.Findings.{side_number, rule_number, level_number, whose_number, as_c};

use conversation_rules::{Finding, Level, Rule, Side};

/// A finding in numbers.
#[repr(C)]
#[derive(Clone, Copy)]
pub struct HostFinding {
    pub side: u32,
    pub rule: u32,
    pub level: u32,
    /// Who keeps the rule: by `whose_number`.
    pub whose: u32,
    pub number: u64,
    pub offset: u64,
    pub entry: u64,
}

impl HostFinding {
    pub fn of(finding: &Finding) -> HostFinding
        ensures { result ≡ as_c finding.now }
    {
        HostFinding {
            side: side_number(finding.side),
            rule: rule_number(finding.rule),
            level: level_number(finding.level),
            whose: whose_number(finding.rule),
            number: finding.number,
            offset: finding.offset,
            entry: finding.entry,
        }
    }
}

fn side_number(side: Side) -> u32
    ensures { result ≡ side_number side }
{
    match side {
        Side::Client => 0,
        Side::Server => 1,
    }
}

fn level_number(level: Level) -> u32
    ensures { result ≡ level_number level }
{
    match level {
        Level::Must => 0,
        Level::Should => 1,
        Level::Note => 2,
    }
}

/// As the table of docs/judge.md has the rules, from 0; and then what isn't judged.
fn rule_number(rule: Rule) -> u32
    ensures { result ≡ rule_number rule }
{
    match rule {
        Rule::Head => 0,
        Rule::NotJson => 1,
        Rule::Charset => 2,
        Rule::CutOff => 3,
        Rule::LineEnd => 4,
        Rule::Object => 5,
        Rule::Version => 6,
        Rule::Method => 7,
        Rule::Params => 8,
        Rule::Id => 9,
        Rule::Outcome => 10,
        Rule::Error => 11,
        Rule::EmptyArray => 12,
        Rule::Batch => 13,
        Rule::NotOwed => 14,
        Rule::NotAsArray => 15,
        Rule::IdFraction => 16,
        Rule::IdNull => 17,
        Rule::IdForm => 18,
        Rule::IdAgain => 19,
        Rule::RpcName => 20,
        Rule::Code => 21,
        Rule::CancelledCode => 22,
        Rule::CancelParams => 23,
        Rule::CancelUnknown => 24,
        Rule::CancelInitialize => 25,
        Rule::AfterCancel => 26,
        Rule::Unanswered => 27,
        Rule::NotJudged => 28,
        Rule::BothKinds => 29,
        Rule::Twice => 30,
        Rule::ParamsObject => 31,
        Rule::ResultObject => 32,
    }
}

/// A connection of this library keeps the rule, whatever its host does; or its host does; or there is none to keep.
fn whose_number(rule: Rule) -> u32
    ensures { result ≡ whose_number rule }
{
    match rule {
        Rule::CutOff
        | Rule::LineEnd
        | Rule::Batch
        | Rule::RpcName
        | Rule::Code
        | Rule::CancelledCode
        | Rule::CancelParams
        | Rule::CancelUnknown
        | Rule::CancelInitialize
        | Rule::AfterCancel
        | Rule::ParamsObject
        | Rule::ResultObject
        | Rule::Unanswered => 1,
        Rule::NotJudged => 2,
        Rule::Head
        | Rule::NotJson
        | Rule::Charset
        | Rule::Object
        | Rule::Version
        | Rule::Method
        | Rule::Params
        | Rule::Id
        | Rule::Outcome
        | Rule::Error
        | Rule::BothKinds
        | Rule::Twice
        | Rule::EmptyArray
        | Rule::NotOwed
        | Rule::NotAsArray
        | Rule::IdFraction
        | Rule::IdNull
        | Rule::IdForm
        | Rule::IdAgain => 0,
    }
}
