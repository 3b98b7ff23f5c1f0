//! What a session keeps of units and numbers: its desk, the stage of each number, and which of them are ready and which
//! have something to write. Each change is one of the session's state.
#![tactic(auto)]

mod admission;
mod arrival;
mod marks;
mod runs;
mod spare;
mod stages;
mod work;

pub use arrival::numbers_of;
pub use runs::Runs;
pub use stages::is_more_than;
