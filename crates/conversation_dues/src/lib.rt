//! What a side of a conversation owes the other one, and which answer is for what.
#![tactic(auto)]

mod arrays;
mod batches;
mod dues;
mod settling;
mod sought;
mod targets;

pub use dues::Dues;
