//! Ids by their value; those that a side's requests had, as far as there is room for them; and what an entry of a content
//! may be answered by, and in which way it fits an answer.
#![tactic(auto)]

mod amounts;
mod content_marks;
mod digits;
mod entry_marks;
mod ids;
mod law;
mod marks;
mod odd;
mod owed;
mod runs;
mod used;
mod ways;

pub use amounts::{is_plain, same_amount};
pub use content_marks::{batch_mark, huge_mark, unreadable_mark};
pub use entry_marks::{EntryMarks, is_mark};
pub use ids::{is_null, is_odd, same_id};
pub use law::{equal_ids_have_one_mark, runs_have_what_was_put_in, worked_runs};
pub use marks::{mark_of, null_mark};
pub use owed::Owed;
pub use used::UsedIds;
pub use ways::Way;
