//! Values by numbers that ascend: new ones come behind all others, old ones go in any order. Few of them take no memory of
//! their own, many stand close together, and what goes gives its memory back. Contracts see a window as the list of its
//! entries, and each call is constant or logarithmic in the length of that list.
#![tactic(auto)]

mod block;
mod number_window;
mod pages;

pub use number_window::NumberWindow;
