//! Calls, lent by the document.

ghost use Rattle.std.specs.Prelude.{◌≡◌, option_map};
ghost use Rattle.toml.specs.View.{view, items_view, table_view};
ghost use Rattle.table_reading.specs.Fields.{params_at, call_at, call_in, list_in, listed_calls};
ghost use Rattle.table_reading.specs.Limits.{is_call_within, are_calls_within, is_list_length, is_list_within};
ghost use Rattle.table_reading.specs.Inner.Seen.{seen_call};

use crate::entry::{Entry, has_only};
use crate::lookup::{member, text_at};
use crate::source::Source;
use method_templates::{MOST_LISTED, is_name_length};
use std::marker::Model;
use toml::{Table, Value};

/// What is called or notified, and with what.
#[derive(Drop)]
pub(crate) struct Call<'a> {
    pub(crate) method: &'a str,
    pub(crate) params: Option<Source<'a>>,
}

/// The calls of a list.
#[derive(Drop)]
pub(crate) struct CallList<'a> {
    pub(crate) calls: &'a [Value],
    /// Whether each keeps the limits.
    are_within: bool,
}

impl<'a> Model for CallList<'a> {
    ghost use Rattle.std.specs.Prelude.{◌≡◌, List, true, is_some};
    ghost use Rattle.std.specs.Coded.{codes};
    ghost use Rattle.json_values.specs.Codes.{coded_data};
    ghost use Rattle.toml.specs.View.{items_view};
    ghost use Rattle.method_templates.specs.Shape.{coded_shape};
    ghost use Rattle.method_templates.specs.declared.step.ListedCall.{ListedCall};
    ghost use Rattle.table_reading.specs.Fields.{listed_calls, the_calls};
    ghost use Rattle.table_reading.specs.Limits.{are_calls_within};

    ghost Value = { List ListedCall };

    ghost coded = { Prim.hlevel (codes, coded_data, coded_shape) };

    ghost view = { λ c. the_calls (items_view c.calls.now) };

    ghost invariant = { λ c. (is_some (listed_calls (items_view c.calls.now)) ≡ true)
        × (c.are_within ≡ are_calls_within (the_calls (items_view c.calls.now))) };
}

impl<'a> Call<'a> {
    /// The call that the table's `method` and `params` say; none where one is of a wrong type, or `method` is missing.
    pub(crate) fn of(table: &'a Table) -> Option<Call<'a>>
        ensures { option_map seen_call result ≡ call_at (table_view table.now) }
    {
        Some(Call {
            method: text_at(table, "method")?,
            params: params_at(table)?,
        })
    }

    pub(crate) fn is_within(&self) -> bool
        ensures { result ≡ is_call_within (seen_call self.now) }
    {
        let shallow = match &self.params {
            Some(params) => params.is_shallow(),
            None => true,
        };
        shallow && is_name_length(self.method.len())
    }
}

/// The table's `params`, where it has any; none where they are no template.
fn params_at<'a>(table: &'a Table) -> Option<Option<Source<'a>>>
    ensures { result ≡ params_at (table_view table.now) }
{
    match member(table, "params") {
        Some(value) => Some(Some(Source::of(value)?)),
        None => Some(None),
    }
}

/// The call that an item of a list is.
pub(crate) fn call_in(value: &Value) -> Option<Call<'_>>
    ensures { option_map seen_call result ≡ call_in (view value.now) }
{
    match value {
        Value::Table(call) if has_only(Entry::Call, call) => Call::of(call),
        _ => None,
    }
}

impl<'a> CallList<'a> {
    /// The calls of the value, where it is an array of calls.
    pub(crate) fn of(value: &'a Value) -> Option<CallList<'a>>
        ensures { result ≡ list_in (view value.now) }
    {
        let calls = value.as_array()?.as_slice();
        let are_within = are_calls_within(calls)?;
        Some(CallList { calls, are_within })
    }

    pub(crate) fn is_within(&self) -> bool
        ensures { result ≡ is_list_within self.now }
    {
        is_list_length(self.calls.len()) && self.are_within
    }
}

fn is_list_length(length: usize) -> bool
    ensures { result ≡ is_list_length length }
{
    1 <= length && length <= MOST_LISTED
}

/// Whether each of the calls keeps the limits; none where one is no call.
fn are_calls_within(calls: &[Value]) -> Option<bool>
    ensures { result ≡ option_map are_calls_within (listed_calls (items_view calls.now)) }
{
    let mut within = true;
    for call in calls {
        within = call_in(call)?.is_within() && within;
    }
    Some(within)
}
