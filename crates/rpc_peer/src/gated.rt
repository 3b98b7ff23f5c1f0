//! A job as it lies in a slot.

ghost use Rattle.std.specs.Prelude.{◌≡◌};
ghost use Rattle.std.specs.Arc.{arc_value};
ghost use Rattle.peer_session.specs.Turned.{Turned};

use crate::gate::Gate;
use job_slots::Turns;
use peer_session::Job;
use std::alloc::Global;
use std::sync::Arc;

/// A job, and the gate that it passes before its turn.
#[derive(Drop)]
pub struct Gated<G: Gate> {
    pub gate: Arc<G, Global>,
    pub job: Job,
}

impl<G: Gate> Gated<G> {
    pub(crate) fn new(gate: Arc<G, Global>, job: Job) -> Gated<G>
        ensures gate { result.gate ≡ gate }
        ensures job { result.job ≡ job }
    {
        Gated { gate, job }
    }
}

impl<G: Gate> Turns for Gated<G> {
    ghost use Rattle.std.specs.Prelude.{◌≡◌};
    ghost use Rattle.peer_session.specs.Turned.{Turned};

    // The gate stays the same one.
    ghost turned = { λ before after. (after.gate ≡ before.gate)
        × Turned before.job after.job };

    /// Passes the gate, and polls once.
    fn turn(&mut self) {
        self.gate.pass(self.job.handler.number());
        turn_passed(&self.gate, &mut self.job);
    }
}

/// Turns a job that has passed its gate.
fn turn_passed<G: Gate>(gate: &Arc<G, Global>, job: &mut Job)
    requires { G.has_passed (arc_value gate.now) job.old.handler.number }
    ensures { Turned job.old job.new }
{
    let _ = gate;
    job.turn();
}
