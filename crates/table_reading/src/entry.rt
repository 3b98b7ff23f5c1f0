//! The fields that each table of the document may have.

ghost use Rattle.std.specs.Prelude.{◌≡◌, map};
ghost use Rattle.toml.specs.View.{table_view};
ghost use Rattle.table_reading.specs.Fields.{allows, is_one_of, fields_of, has_only};

use crate::kind::Kind;
use crate::version::Version;
use toml::Table;

/// What a table of the document is there for.
#[derive(Clone, Copy)]
pub enum Entry {
    Document(Version),
    Method,
    Step(Kind),
    /// A call of a list.
    Call,
}

/// Whether the table has no field but those of such an entry.
pub fn has_only(entry: Entry, table: &Table) -> bool
    ensures { result ≡ has_only entry (table_view table.now) }
{
    for (name, _) in table.iter() {
        if !allows(entry, name.as_str()) {
            return false;
        }
    }
    true
}

fn allows(entry: Entry, name: &str) -> bool
    ensures { result ≡ allows entry name.now }
{
    match entry {
        Entry::Document(Version::One) => is_one_of(&["version", "method"], name),
        Entry::Document(Version::Two) => is_one_of(&["version", "opening", "method"], name),
        Entry::Method => is_one_of(&["name", "step"], name),
        Entry::Step(kind) => name == "kind" || is_one_of(fields_of(kind), name),
        Entry::Call => is_one_of(&["method", "params"], name),
    }
}

/// The fields of a step of the kind, beside `kind`.
fn fields_of(kind: Kind) -> &'static [&'static str]
    ensures { map (λ field. field.now) result.now ≡ fields_of kind }
{
    match kind {
        Kind::Set => &["to", "value"],
        Kind::Add => &["to", "left", "right"],
        Kind::Skip => &["left", "right", "count"],
        Kind::Call => &["to", "method", "params", "on_error"],
        Kind::Calls => &["to", "list", "on_error"],
        Kind::Each => &["to", "over", "method", "on_error"],
        Kind::Notify => &["method", "params"],
        Kind::Answer => &["value"],
        Kind::Fail => &["code", "message"],
    }
}

fn is_one_of(fields: &[&str], name: &str) -> bool
    ensures { result ≡ is_one_of (map (λ field. field.now) fields.now) name.now }
{
    for field in fields {
        if name == *field {
            return true;
        }
    }
    false
}
