//! What an entry breaks by itself, and what is kept of it and of the side that wrote it.
#![tactic(auto)]

mod entries;
mod ids;
mod protocols;
mod speaker;

pub use entries::{code_of, is_answer, is_between, is_well, may_lack_id, put_if};
pub use ids::{owe, say_entry, take_entry};
pub use protocols::{is_lsp, is_mcp};
pub use speaker::{Speaker, new_speaker};
