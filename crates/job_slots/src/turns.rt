/// What a worker does to a job. Whatever `turn` takes of memory or time is the job's own affair.
pub trait Turns {
    /// The job before one turn, and the job after it.
    ghost turned: { Self → Self → Type 0 };

    fn turn(&mut self)
        ensures { turned self.old self.new };
}
