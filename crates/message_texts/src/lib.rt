//! The messages that both peers write, as texts (JSON-RPC 2.0, sections 4 to 6): each is put behind other bytes from its
//! parts, whole or not at all. Where memory is refused, the bytes are as before.
#![tactic(auto)]

mod answers;
mod arrays;
mod keys;
mod our_calls;
mod parts;
mod room;

pub use answers::{write_error, write_fixed_error, write_result};
pub use arrays::{Entries, write_array};
pub use keys::CallKey;
pub use our_calls::{write_call, write_notice, write_withdrawal};
