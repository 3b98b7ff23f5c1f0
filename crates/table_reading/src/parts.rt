//! The typed parts of steps, lent by the document.

ghost use Rattle.std.specs.Prelude.{◌≡◌, option_map};
ghost use Rattle.toml.specs.View.{view, table_view};
ghost use Rattle.table_reading.specs.Fields.{template_at, count_at, on_error_in, on_error_at, said_by, step_in};
ghost use Rattle.table_reading.specs.Limits.{is_count, is_step_within};
ghost use Rattle.table_reading.specs.Inner.Seen.{seen};

use crate::call::{Call, CallList};
use crate::entry::{Entry, has_only};
use crate::kind::Kind;
use crate::lookup::{integer_at, member, text_at};
use crate::source::Source;
use method_templates::{LONGEST_SKIP, OnError, is_name_length};
use toml::{Table, Value};

/// A step with the fields of its kind, each of its type.
#[derive(Drop)]
pub(crate) enum Parts<'a> {
    Set {
        to: &'a str,
        value: Source<'a>,
    },
    Add {
        to: &'a str,
        left: Source<'a>,
        right: Source<'a>,
    },
    Skip {
        left: Source<'a>,
        right: Source<'a>,
        count: u32,
    },
    Call {
        to: &'a str,
        call: Call<'a>,
        on_error: OnError,
    },
    Calls {
        to: &'a str,
        list: CallList<'a>,
        on_error: OnError,
    },
    Each {
        to: &'a str,
        over: Source<'a>,
        method: &'a str,
        on_error: OnError,
    },
    Notify(Call<'a>),
    Answer(Source<'a>),
    Fail {
        code: i64,
        message: &'a str,
    },
}

/// The parts of a step of the kind; none where a field is missing, unknown or of a wrong type.
pub(crate) fn parts_of<'a>(kind: Kind, step: &'a Table) -> Option<Parts<'a>>
    ensures { option_map seen result ≡ step_in kind (table_view step.now) }
{
    if !has_only(Entry::Step(kind), step) {
        return None;
    }
    match kind {
        Kind::Set => set_of(step),
        Kind::Add => add_of(step),
        Kind::Skip => skip_of(step),
        Kind::Call => call_of(step),
        Kind::Calls => calls_of(step),
        Kind::Each => each_of(step),
        Kind::Notify => Call::of(step).map(Parts::Notify),
        Kind::Answer => source_at(step, "value").map(Parts::Answer),
        Kind::Fail => fail_of(step),
    }
}

fn set_of(step: &Table) -> Option<Parts<'_>>
    ensures { option_map seen result ≡ said_by Kind.Set (table_view step.now) }
{
    Some(Parts::Set {
        to: text_at(step, "to")?,
        value: source_at(step, "value")?,
    })
}

fn add_of(step: &Table) -> Option<Parts<'_>>
    ensures { option_map seen result ≡ said_by Kind.Add (table_view step.now) }
{
    Some(Parts::Add {
        to: text_at(step, "to")?,
        left: source_at(step, "left")?,
        right: source_at(step, "right")?,
    })
}

fn skip_of(step: &Table) -> Option<Parts<'_>>
    ensures { option_map seen result ≡ said_by Kind.Skip (table_view step.now) }
{
    Some(Parts::Skip {
        left: source_at(step, "left")?,
        right: source_at(step, "right")?,
        count: count_at(step)?,
    })
}

fn call_of(step: &Table) -> Option<Parts<'_>>
    ensures { option_map seen result ≡ said_by Kind.Call (table_view step.now) }
{
    Some(Parts::Call {
        to: text_at(step, "to")?,
        call: Call::of(step)?,
        on_error: on_error_at(step)?,
    })
}

fn calls_of(step: &Table) -> Option<Parts<'_>>
    ensures { option_map seen result ≡ said_by Kind.Calls (table_view step.now) }
{
    Some(Parts::Calls {
        to: text_at(step, "to")?,
        list: CallList::of(member(step, "list")?)?,
        on_error: on_error_at(step)?,
    })
}

fn each_of(step: &Table) -> Option<Parts<'_>>
    ensures { option_map seen result ≡ said_by Kind.Each (table_view step.now) }
{
    Some(Parts::Each {
        to: text_at(step, "to")?,
        over: source_at(step, "over")?,
        method: text_at(step, "method")?,
        on_error: on_error_at(step)?,
    })
}

fn fail_of(step: &Table) -> Option<Parts<'_>>
    ensures { option_map seen result ≡ said_by Kind.Fail (table_view step.now) }
{
    Some(Parts::Fail {
        code: integer_at(step, "code")?,
        message: text_at(step, "message")?,
    })
}

fn source_at<'a>(step: &'a Table, name: &str) -> Option<Source<'a>>
    ensures { result ≡ template_at name.now (table_view step.now) }
{
    Source::of(member(step, name)?)
}

/// The step's `count`; 0, which no step may have, where it's out of its range.
fn count_at(step: &Table) -> Option<u32>
    ensures { result ≡ count_at (table_view step.now) }
{
    let count = integer_at(step, "count")?;
    if 1 <= count && count <= LONGEST_SKIP as i64 {
        Some(count as u32)
    } else {
        Some(0)
    }
}

/// What the step's `on_error` says, or `fail` where it has none.
fn on_error_at(step: &Table) -> Option<OnError>
    ensures { result ≡ on_error_at (table_view step.now) }
{
    match member(step, "on_error") {
        Some(value) => on_error_in(value),
        None => Some(OnError::Fail),
    }
}

fn on_error_in(value: &Value) -> Option<OnError>
    ensures { result ≡ on_error_in (view value.now) }
{
    match value.as_str()? {
        "fail" => Some(OnError::Fail),
        "keep" => Some(OnError::Keep),
        _ => None,
    }
}

impl Parts<'_> {
    /// Whether each part keeps the limits of numbers, lengths and depths.
    pub(crate) fn are_within(&self) -> bool
        ensures { result ≡ is_step_within (seen self.now) }
    {
        match self {
            Parts::Add { left, right, .. } => left.is_shallow() && right.is_shallow(),
            Parts::Skip { left, right, count } => {
                left.is_shallow() && right.is_shallow() && is_count(*count)
            }
            Parts::Calls { list, .. } => list.is_within(),
            Parts::Each { over, method, .. } => over.is_shallow() && is_name_length(method.len()),
            Parts::Call { call, .. } | Parts::Notify(call) => call.is_within(),
            Parts::Set { value, .. } | Parts::Answer(value) => value.is_shallow(),
            Parts::Fail { .. } => true,
        }
    }
}

fn is_count(count: u32) -> bool
    ensures { result ≡ is_count count }
{
    1 <= count && count <= LONGEST_SKIP
}
