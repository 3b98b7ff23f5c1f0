//! The player: a peer on one thread, from the bytes that are received to the bytes that are sent.
#![tactic(auto)]

mod player;
mod playing;
mod schedule;
mod whole;

pub use player::Player;
pub use schedule::{Picks, Schedule};
pub use whole::{PlayFault, play, play_to};
