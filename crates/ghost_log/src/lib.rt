//! What has passed through something, for clauses alone.
#![tactic(auto)]

mod ghost_log;

pub use ghost_log::GhostLog;
