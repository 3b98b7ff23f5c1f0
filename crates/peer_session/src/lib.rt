//! One session of a peer: messages are received, handlers go out for their turns and come back, and what is
//! due is sent.
//! Its limits say how much a peer takes, its report what a run tells of itself.
#![tactic(auto)]

mod drain_fault;
mod finishing;
mod hearing;
mod job;
mod limits;
mod passing;
mod reading;
mod report;
mod session;
mod taken;
mod turning;
mod writing;

pub use drain_fault::DrainFault;
pub use job::Job;
pub use limits::Limits;
pub use report::{Close, Report};
pub use session::Session;
pub use taken::Taken;
