ghost use Rattle.std.specs.Prelude.{◌≡◌, None};

use handler_future::{Handler, Outcome};
use job_slots::Turns;
use std::mem;

/// A handler that is out for a turn.
#[derive(Drop)]
pub struct Job {
    pub handler: Handler,
    /// What its last poll answered; none before the first, and where it was Pending.
    pub outcome: Option<Outcome>,
    /// How many times it was polled since it went out. It stays at the greatest value.
    pub polls: u64,
}

impl Job {
    /// A handler as it goes out.
    pub(crate) fn new(handler: Handler) -> Job
        ensures { result ≡ record { handler = handler; outcome = None; polls = 0 } }
    {
        Job {
            handler,
            outcome: None,
            polls: 0,
        }
    }
}

impl Turns for Job {
    ghost use Rattle.peer_session.specs.Turned.{Turned};

    ghost turned = { Turned };

    /// One poll.
    fn turn(&mut self) {
        let outcome = self.handler.advance();
        // (a job that goes out has no outcome yet, and then nothing is moved out)
        if self.outcome.is_none() {
            self.outcome = outcome;
        } else {
            drop(mem::replace(&mut self.outcome, outcome));
        }
        self.polls = self.polls.saturating_add(1);
    }
}
