//! The steps of a table of methods, read from the TOML document that it is, and what is wrong with them.
#![tactic(auto)]

mod call;
mod entry;
mod fault;
mod kind;
mod lookup;
mod made;
mod parts;
mod source;
mod steps;
mod templates;
mod version;
mod word;

pub use entry::{Entry, has_only};
pub use fault::{FaultKind, TableFault, in_document, in_method};
pub use kind::Kind;
pub use lookup::{count_of, one_says, tables_at, text_at};
pub use steps::steps_of;
pub use version::{Version, version_of};
