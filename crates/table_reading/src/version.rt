//! The versions of tables.

ghost use Rattle.std.specs.Prelude.{◌≡◌};
ghost use Rattle.toml.specs.View.{table_view};
ghost use Rattle.table_reading.specs.Version.{version_numbered, version_of};

use crate::lookup::integer_at;
use toml::Table;

/// A version of tables: the second also has an opening, and steps of the kind `each`.
#[derive(Clone, Copy)]
pub enum Version {
    One,
    Two,
}

/// The version of that number.
fn version_numbered(number: i64) -> Option<Version>
    ensures { result ≡ version_numbered number }
{
    match number {
        1 => Some(Version::One),
        2 => Some(Version::Two),
        _ => None,
    }
}

/// The version that the document's `version` names.
pub fn version_of(top: &Table) -> Option<Version>
    ensures { result ≡ version_of (table_view top.now) }
{
    version_numbered(integer_at(top, "version")?)
}
