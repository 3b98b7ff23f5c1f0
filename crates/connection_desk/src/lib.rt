//! What stands open between a connection and its host, and what each happening does to it: what is reported, written,
//! refused and counted. Each public call is one equation on a plain state.
#![tactic(auto)]

mod answering;
mod calls;
mod desk;
mod ending;
mod events;
mod giving;
mod intake;
mod leaving;
mod saying;
mod settling;
mod tally;

pub use desk::Desk;
pub use tally::Tally;
