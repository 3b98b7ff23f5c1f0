//! Requests that nest deep.

ghost use Rattle.std.specs.Prelude.{◌≡◌};
ghost use Rattle.json.specs.Value.{value_view, items_view, members_view};
ghost use Rattle.conversation_reading.specs.Nesting.{nests_deeper, items_nest_deeper, members_nest_deeper, is_deep_request};

use crate::entry::Kind;
use json::Value;

/// A reader may refuse a request that nests deeper: of those that are known, the least limit is 32 (Boost.JSON), and in a
/// batch the array counts as one.
pub(crate) const SAFE_DEPTH: usize = 31;

/// Whether a reader may refuse an entry for its depth (RFC 8259, section 9). Only of a request that matters: all else may
/// be left without an answer.
pub(crate) fn is_deep_request(kind: Kind, value: &Value<'_>) -> bool
    ensures { result ≡ is_deep_request kind (value_view value.now) }
{
    match kind {
        Kind::Request => nests_deeper(SAFE_DEPTH, value),
        Kind::Notification | Kind::Answer | Kind::BrokenAnswer | Kind::Invalid => false,
    }
}

/// Whether more than so many arrays and objects stand in one another.
#[cycle(nesting)]
fn nests_deeper(depth: usize, value: &Value<'_>) -> bool
    ensures { result ≡ nests_deeper depth (value_view value.now) }
{
    match value {
        Value::Array(items) => depth == 0 || items_nest_deeper(depth - 1, items),
        Value::Object(members) => depth == 0 || members_nest_deeper(depth - 1, members),
        _ => false,
    }
}

#[cycle(nesting)]
fn items_nest_deeper(depth: usize, items: &Vec<Value<'_>>) -> bool
    ensures { result ≡ items_nest_deeper depth (items_view items.now.items) }
{
    for item in items {
        if nests_deeper(depth, item) {
            return true;
        }
    }
    false
}

#[cycle(nesting)]
fn members_nest_deeper(depth: usize, members: &Vec<(&str, Value<'_>)>) -> bool
    ensures { result ≡ members_nest_deeper depth (members_view members.now.items) }
{
    for member in members {
        if nests_deeper(depth, &member.1) {
            return true;
        }
    }
    false
}
