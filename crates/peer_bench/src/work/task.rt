//! Work of one kind, from where all is ready to where what came of it can be counted. The time between is what is told.
use super::crew::Crew;
use super::desk_run::{Finishing, run_desk};
use super::slots_run::through_slots;
use super::tally::Tally;
use program_edge::Failure;
use std::alloc::{AllocError, Global};
use std::sync::Wait;
use std::thread::Threads;

/// Work of one kind, and how much of it.
#[derive(Clone, Copy)]
pub enum Task {
    /// So many jobs, through job slots.
    Slots { crew: Crew, jobs: u32 },
    /// So many units of one call each, or a batch of so many, through the desk.
    Desk { finishing: Finishing, units: u32 },
}

impl Task {
    /// Makes the tally of its jobs, so that no more than the work itself is timed. Units have none. Refused where
    /// there is no memory for a byte of each job.
    pub fn tally(self, alloc: Global) -> Result<Tally, AllocError> {
        match self {
            Task::Slots { jobs, .. } => Tally::new(alloc, jobs),
            Task::Desk { .. } => Tally::new(alloc, 0),
        }
    }

    /// Does the work. Jobs are counted by the tally, and how many answers were released is the result.
    ///
    /// # Errors
    /// `Memory` where a growth is refused, and `Thread` where a worker's thread can't be started.
    pub fn run<R>(self, rt: &R, tally: &mut Tally) -> Result<usize, Failure>
    where
        R: Threads + Wait + Sync + AllocGlobal,
    {
        match self {
            Task::Slots { crew, .. } => {
                through_slots(rt, rt.alloc(), crew, tally)?;
                Ok(0)
            }
            Task::Desk { finishing, units } => run_desk(rt.alloc(), finishing, units),
        }
    }

    /// What is worked on.
    pub fn name(self) -> &'static str {
        match self {
            Task::Slots { .. } => "slots",
            Task::Desk { finishing, .. } => finishing.name(),
        }
    }

    /// What became of each job or unit.
    pub fn outcome(self) -> &'static str {
        match self {
            Task::Slots { .. } => "turned",
            Task::Desk { .. } => "released",
        }
    }
}
