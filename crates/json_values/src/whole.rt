ghost use Rattle.std.specs.Prelude.{◌≡◌};
ghost use Rattle.serde_json.specs.View.{view, items_view, members_view};
ghost use Rattle.serde_json.specs.Written.{has_float, items_have_float, members_have_float};

use serde_json::{Map, Value};

/// Whether some number in the value, at any depth, is a fraction.
#[cycle(fraction)]
pub fn has_fraction(value: &Value) -> bool
    ensures { result ≡ has_float (view value.now) }
{
    match value {
        Value::Null => false,
        Value::Bool(_) => false,
        Value::String(_) => false,
        Value::Number(number) => number.is_f64(),
        Value::Array(items) => items_have_fraction(items),
        Value::Object(members) => members_have_fraction(members),
    }
}

#[cycle(fraction)]
fn items_have_fraction(items: &Vec<Value>) -> bool
    ensures { result ≡ items_have_float (items_view items.now.items) }
{
    for item in items {
        if has_fraction(item) {
            return true;
        }
    }
    false
}

#[cycle(fraction)]
fn members_have_fraction(members: &Map<String, Value>) -> bool
    ensures { result ≡ members_have_float (members_view members.now.entries) }
{
    for (_, member) in members.iter() {
        if has_fraction(member) {
            return true;
        }
    }
    false
}
