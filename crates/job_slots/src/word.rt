// What a slot's word says of it.

/// No job is in the slot, and the clerk may fill it.
pub const EMPTY: u64 = 0;

/// The clerk is putting a job in.
pub const FILLING: u64 = 1;

/// A job waits for a worker.
pub const READY: u64 = 2;

/// A worker has the job.
pub const RUNNING: u64 = 3;

/// The job was turned, and waits for the clerk.
pub const DONE: u64 = 4;
