//! Work of the desk and of the job slots alone, at size, for the program that measures.

mod crew;
mod desk_run;
mod job;
mod slots_run;
mod tally;
mod task;
mod timing;
mod writing;

pub use crew::Crew;
pub use desk_run::Finishing;
pub use tally::Tally;
pub use task::Task;
pub use timing::run_timed;
pub use writing::written;
