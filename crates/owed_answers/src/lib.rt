//! What a connection owes: of each unit that came the answers that aren't out yet, in the order in which the units came.
//! Contracts see it as a number and a list, and each call is constant or logarithmic in the length of that list.
#![tactic(auto)]

mod batch;
mod held;
mod owed;
mod owed_answers;
mod slot;

pub use batch::Batch;
pub use owed::Owed;
pub use owed_answers::OwedAnswers;
pub use slot::Slot;
