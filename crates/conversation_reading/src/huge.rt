//! Numbers beyond a float's range.

ghost use Rattle.std.specs.Prelude.{◌≡◌};
ghost use Rattle.json.specs.Value.{value_view, items_view, members_view};
ghost use Rattle.conversation_reading.specs.Huge.{is_huge, has_huge, items_have_huge, members_have_huge};

use json::Value;

/// Whether a number anywhere in a value is beyond a float's range, as 1e400 (RFC 8259, section 6).
#[cycle(huge)]
pub(crate) fn has_huge(value: &Value<'_>) -> bool
    ensures { result ≡ has_huge (value_view value.now) }
{
    match value {
        Value::Number(number) => is_huge(number),
        Value::Array(items) => items_have_huge(items),
        Value::Object(members) => members_have_huge(members),
        _ => false,
    }
}

#[cycle(huge)]
fn items_have_huge(items: &Vec<Value<'_>>) -> bool
    ensures { result ≡ items_have_huge (items_view items.now.items) }
{
    for item in items {
        if has_huge(item) {
            return true;
        }
    }
    false
}

#[cycle(huge)]
fn members_have_huge(members: &Vec<(&str, Value<'_>)>) -> bool
    ensures { result ≡ members_have_huge (members_view members.now.items) }
{
    for member in members {
        if has_huge(&member.1) {
            return true;
        }
    }
    false
}

/// Whether the float that is nearest to a number is infinite.
fn is_huge(number: &str) -> bool
    ensures { result ≡ is_huge number.now }
{
    match fast_float::parse::<f64, _>(number) {
        Ok(float) => float.is_infinite(),
        Err(_) => false,
    }
}
