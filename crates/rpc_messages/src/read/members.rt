//! The members of an object.

ghost use Rattle.std.specs.Prelude.{◌≡◌, ℕ, List, option_map, option_and_then, false};
ghost use Rattle.std.specs.Str.{bytes_eq};
ghost use Rattle.serde_json.specs.Find.{get_member, as_str};
ghost use Rattle.serde_json.specs.View.{view, members_view};

use json_values::Text;
use serde_json::{Map, Value};

/// The member of that name.
pub(crate) fn find<'m>(members: &'m Map<String, Value>, name: &str) -> Option<&'m Value>
    ensures { option_map (λ v. view v.now) result
        ≡ get_member name.now (members_view members.now.entries) }
{
    members.get(name)
}

/// Moves a member out. Every other name keeps its value.
pub(crate) fn take(members: &mut Map<String, Value>, name: &str) -> Option<Value>
    ensures found { option_map view result
        ≡ get_member name.now (members_view members.old.entries) }
    ensures others { (other : List ℕ) → bytes_eq other name.now ≡ false
        → get_member other (members_view members.new.entries)
        ≡ get_member other (members_view members.old.entries) }
{
    members.remove(name)
}

/// Moves the text of a member out, where the member is a string. Every other name keeps its value.
pub(crate) fn take_text(members: &mut Map<String, Value>, name: &str) -> Option<Text>
    ensures found { result
        ≡ option_and_then as_str (get_member name.now (members_view members.old.entries)) }
    ensures others { (other : List ℕ) → bytes_eq other name.now ≡ false
        → get_member other (members_view members.new.entries)
        ≡ get_member other (members_view members.old.entries) }
{
    match take(members, name) {
        Some(Value::String(text)) => Some(Text::from(text)),
        _ => None,
    }
}
