//! JSON values, read token by token from a text: strings are borrowed from it where nothing is kept, and what is kept
//! is copied once.
#![tactic(auto)]

mod fault;
mod number;
mod piece;
mod value;

pub use fault::ReadFault;
pub use number::read_number;
pub use piece::{Piece, read_piece};
pub use value::{read_value, value_from};
