//! Entries of a content.

ghost use Rattle.std.specs.Prelude.{◌≡◌, IfOk, map};
ghost use Rattle.json.specs.Tree.{HasNumbers, ItemsHaveNumbers};
ghost use Rattle.json.specs.Value.{value_view, items_view};
ghost use Rattle.connection_messages.specs.Reading.{entry_of, entries_of};

use super::call::read_call;
use super::reply::read_reply;
use crate::entry::Entry;
use crate::rules::Rules;
use json::Value;
use std::alloc::{AllocError, Global};

/// What one value is.
pub(crate) fn read_entry(
    alloc: Global,
    rules: Rules,
    value: &Value<'_>,
) -> Result<Entry, AllocError>
    requires { HasNumbers (value_view value.now) }
    ensures { IfOk result (λ e. e ≡ entry_of rules (value_view value.now)) }
{
    if value.get("method").is_some() {
        return read_call(alloc, rules, value);
    }
    if value.get("result").is_some() || value.get("error").is_some() {
        return read_reply(alloc, value);
    }
    Ok(Entry::Invalid)
}

/// What the elements of an array are, in their order.
pub(crate) fn read_entries(
    alloc: Global,
    rules: Rules,
    values: &[Value<'_>],
) -> Result<Vec<Entry>, AllocError>
    requires { ItemsHaveNumbers (items_view values.now) }
    ensures { IfOk result (λ entries. entries.items ≡ entries_of rules (items_view values.now)) }
{
    let mut entries = Vec::with_capacity(alloc, values.len())?;
    for value in values {
        entries.push(read_entry(alloc, rules, value)?)?;
    }
    Ok(entries)
}
