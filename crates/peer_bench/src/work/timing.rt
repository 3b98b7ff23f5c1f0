//! Work of one kind, with the time that it takes.
use super::tally::Tally;
use super::task::Task;
use super::writing::written;
use program_edge::Failure;
use std::io::Write;
use std::sync::Wait;
use std::thread::Threads;
use std::time::{Clock, Instant};

/// Does the work, and says how long it took, in microseconds.
///
/// # Errors
/// Those of the work, `Clock` where the clock can't be read, and `Write` where the output fails.
pub fn run_timed<R, W>(rt: &R, task: Task, output: &mut W) -> Result<(), Failure>
where
    R: Threads + Wait + Sync + Clock + AllocGlobal,
    W: Write,
{
    let mut tally = task.tally(rt.alloc())?;
    let told = tell_timed(rt, task, &mut tally, output);
    drop(tally);
    told
}

fn tell_timed<R, W>(rt: &R, task: Task, tally: &mut Tally, output: &mut W) -> Result<(), Failure>
where
    R: Threads + Wait + Sync + Clock + AllocGlobal,
    W: Write,
{
    let begun = Instant::now(rt).or(Err(Failure::Clock))?;
    let released = task.run(rt, tally)?;
    let took = begun.elapsed(rt).or(Err(Failure::Clock))?.as_micros();
    let count = released.saturating_add(tally.once());
    let (name, outcome) = (task.name(), task.outcome());
    written(writeln!(output, "{name}: {count} {outcome} in {took} us"))?;
    written(output.flush())
}
