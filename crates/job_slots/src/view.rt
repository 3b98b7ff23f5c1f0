//! What the seats know. These types are for contracts and proofs alone: no value of them is ever made.
use std::collections::LinkedList;

/// What the clerk knows of one slot.
pub enum Look<J> {
    /// It has no job there.
    Free,
    /// It is putting a job in.
    Filling,
    /// This job was offered there.
    In(J),
    /// This job was offered there, and was found turned, as the second.
    Seen(J, J),
}

/// What one seat knows.
pub enum View<J> {
    /// The clerk's look at each slot, and how many workers' seats are split off and not joined.
    Clerk {
        looks: LinkedList<Look<J>>,
        live: u64,
    },
    /// A worker that has no job, and the slots that it has shut, in order.
    Idle {
        shut: LinkedList<u64>,
    },
    /// A worker that has claimed the job of a slot.
    Busy {
        shut: LinkedList<u64>,
        slot: u64,
        job: J,
    },
    /// A worker's seat that was joined.
    Spent,
}
