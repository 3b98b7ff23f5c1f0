//! A little of each kind of work. It tells no times, so that it writes the same each time.
use crate::lockstep::{Rounds, Server, go_round};
use crate::work::{Crew, Finishing, Task, written};
use program_edge::Failure;
use std::io::Write;
use std::sync::Wait;
use std::thread::Threads;

/// So many jobs are handed out.
const JOBS: u32 = 1_000;

/// So many units are finished, in each order.
const UNITS: u32 = 2_500;

/// So many requests are sent in lockstep.
const ROUNDS: u32 = 1_000;

/// Does a little of each kind of work, and tells what came of it.
pub fn run_little<R, W>(rt: &R, output: &mut W) -> Result<(), Failure>
where
    R: Threads + Wait + Sync + AllocGlobal,
    W: Write,
{
    run_tasks(rt, output)?;
    let crew = rpc_peer::Crew {
        workers: 2,
        yields: 0,
    };
    let rounds = Rounds {
        count: ROUNDS,
        ahead: 0,
        server: Server::ServeBy,
        crew,
    };
    go_round(rt, rounds, output)
}

/// Does a little of each task, and tells how much of it was done.
fn run_tasks<R, W>(rt: &R, output: &mut W) -> Result<(), Failure>
where
    R: Threads + Wait + Sync + AllocGlobal,
    W: Write,
{
    let (crew, jobs, units) = (Crew::new(2, 8), JOBS, UNITS);
    tell(rt, Task::Slots { crew, jobs }, output)?;
    for finishing in &Finishing::ALL {
        let finishing = *finishing;
        tell(rt, Task::Desk { finishing, units }, output)?;
    }
    Ok(())
}

/// Does the task, and says what became of each job or unit.
fn tell<R, W>(rt: &R, task: Task, output: &mut W) -> Result<(), Failure>
where
    R: Threads + Wait + Sync + AllocGlobal,
    W: Write,
{
    let mut tally = task.tally(rt.alloc())?;
    let released = task.run(rt, &mut tally);
    let once = tally.once();
    drop(tally);
    let count = released?.saturating_add(once);
    let (name, outcome) = (task.name(), task.outcome());
    written(writeln!(output, "{name}: {count} {outcome}"))
}
