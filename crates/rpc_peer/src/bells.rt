//! How the threads of a server wake each other, and how they learn that it has stopped.

ghost use Rattle.std.specs.Prelude.{◌≡◌};

use crossbeam_utils::sync::EventCount;
use std::sync::atomic::{AtomicBool, Ordering};

/// One bell for each thing that a thread may wait for. Whoever changes something rings its bell afterwards; whoever
/// found nothing to do takes a key, looks once more at everything, and sleeps only if that look was empty too.
#[derive(Drop)]
pub struct Bells {
    /// Something came through the ring, or a job was turned.
    pub clerk: EventCount,
    /// A job was offered.
    pub workers: EventCount,
    /// There is room in the ring.
    pub reader: EventCount,
    is_stopped: AtomicBool,
    /// How many workers there are.
    crew: u32,
}

/// Somebody has seen that the server has stopped. Only its bells give this, so a thread that has to show it can't leave
/// earlier.
#[derive(Debug, Drop)]
pub struct Stopped {
    seen: (),
}

impl Bells {
    /// The bells of so many workers.
    pub fn new(crew: u32) -> Bells
        ensures { result.crew ≡ crew }
    {
        Bells {
            clerk: EventCount::new(),
            workers: EventCount::new(),
            reader: EventCount::new(),
            is_stopped: AtomicBool::new(false),
            crew,
        }
    }

    /// So many jobs were offered: wakes as many workers, if so many sleep, and all by one call where each may have one.
    pub fn jobs_were_offered(&self, jobs: u32) {
        if jobs >= self.crew {
            self.workers.notify_all();
            return;
        }
        for _ in 0..jobs {
            self.workers.notify_one();
        }
    }

    /// Nothing more is to be done: wakes all who sleep.
    pub fn stop(&self) {
        self.is_stopped.store(true, Ordering::SeqCst);
        self.clerk.notify_all();
        self.workers.notify_all();
        self.reader.notify_all();
    }

    /// Whether the server has stopped.
    pub fn stopped(&self) -> Option<Stopped> {
        if self.is_stopped.load(Ordering::SeqCst) {
            Some(Stopped { seen: () })
        } else {
            None
        }
    }
}
