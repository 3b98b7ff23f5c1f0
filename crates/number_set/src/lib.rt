//! Numbers that are given one after another. A set of them is asked for the number at a place: to put a number in, to take
//! one out and to find the one at a place each take logarithmic time and no memory, which room is made for beforehand. A
//! window of them keeps what stands for each, from the first that isn't gone on.
#![tactic(auto)]

mod dense_window;
mod levels;
mod limits;
mod number_set;
mod place;
mod word;

pub use dense_window::DenseWindow;
pub use limits::{LARGEST_END, limit_of_sets_in_figures};
pub use number_set::NumberSet;
pub use place::Place;
