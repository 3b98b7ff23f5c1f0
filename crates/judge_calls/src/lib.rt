//! What a host in another language does with a judge: it passes numbers and bytes, and gets a code, and findings as
//! numbers.
#![tactic(auto)]

mod code;
mod finding;
mod hosted;
mod options;
mod seeing;
mod telling;

pub use code::{NotSeen, code_of};
pub use finding::HostFinding;
pub use hosted::HostedJudge;
pub use options::{Asked, JudgeOptions};
