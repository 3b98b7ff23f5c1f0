//! The judge: what is found in what was seen of two sides, as it is seen.
#![tactic(auto)]

mod answers;
mod arrays;
mod contents;
mod judge;
mod seeing;

pub use judge::Judge;
