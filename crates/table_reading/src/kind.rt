//! The kinds of steps.

ghost use Rattle.std.specs.Prelude.{◌≡◌};
ghost use Rattle.toml.specs.View.{table_view};
ghost use Rattle.table_reading.specs.Fields.{kind_named, is_kind_of, kind_of};

use crate::lookup::text_at;
use crate::version::Version;
use toml::Table;

/// A kind of steps, by the word that its `kind` is.
#[derive(Clone, Copy)]
pub enum Kind {
    Set,
    Add,
    Skip,
    Call,
    Calls,
    Each,
    Notify,
    Answer,
    Fail,
}

/// The kind that the step's `kind` names.
pub(crate) fn kind_of(step: &Table) -> Option<Kind>
    ensures { result ≡ kind_of (table_view step.now) }
{
    kind_named(text_at(step, "kind")?)
}

/// The kind of that name.
fn kind_named(name: &str) -> Option<Kind>
    ensures { result ≡ kind_named name.now }
{
    match name {
        "set" => Some(Kind::Set),
        "add" => Some(Kind::Add),
        "skip" => Some(Kind::Skip),
        "call" => Some(Kind::Call),
        "calls" => Some(Kind::Calls),
        "each" => Some(Kind::Each),
        "notify" => Some(Kind::Notify),
        "answer" => Some(Kind::Answer),
        "fail" => Some(Kind::Fail),
        _ => None,
    }
}

/// Whether tables of the version have the kind.
pub(crate) fn is_kind_of(version: Version, kind: Kind) -> bool
    ensures { result ≡ is_kind_of version kind }
{
    match kind {
        Kind::Each => matches!(version, Version::Two),
        _ => true,
    }
}
