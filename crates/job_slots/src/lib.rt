//! Job slots: one owner, the clerk, hands jobs to workers and gets each one back turned once, with no lock.
//!
//! The clerk offers a job into an empty slot. A worker claims it, turns it and leaves it done, and the clerk collects it,
//! which empties the slot again. `docs/job_slots.md` draws this, and `specs/Lawful.antt` has the one rule that holds
//! between any two atomic steps.
#![tactic(auto)]

mod clerk;
mod closing;
mod collecting;
mod exchange;
mod free_slots;
mod limits;
mod offering;
mod plays;
mod room;
mod rule;
mod running;
mod slots;
mod turns;
mod view;
mod word;
mod worker;

pub use clerk::ClerkSeat;
pub use limits::{MOST_SLOTS, limit_of_slots_in_figures};
pub use slots::{JobSlots, Refused};
pub use turns::Turns;
pub use view::{Look, View};
pub use worker::{Ran, WorkerSeat};
