//! What is owed on one content: its entries, of which any may go; an index of those that are left, where there are many; and
//! numbers by marks, which such an index is made of.
#![tactic(auto)]

mod content_entries;
mod due;
mod look;
mod numbers_by_mark;
mod taken;
mod what_is_left;

pub use due::Due;
pub use look::Look;
pub use numbers_by_mark::NumbersByMark;
pub use taken::Settled;
pub use what_is_left::Left;
