//! Laws of what a peer with a table writes, and of a connection that reads it. No code stands on it.
#![tactic(auto)]

mod enclosed;
mod served;
mod served_lines;
mod without_lf;

pub use enclosed::{an_enclosed_text_is_its_lines_content, written_texts_are_enclosed};
pub use served::{a_connection_reads_the_items_that_were_served, what_was_served_are_items};
pub use served_lines::{a_connection_reads_the_lines_that_were_served, what_was_served_are_lines};
pub use without_lf::written_texts_have_no_lf;
