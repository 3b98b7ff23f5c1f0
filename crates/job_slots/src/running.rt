//! How a worker runs the job of a slot.
ghost use Rattle.std.specs.Prelude.{◌≡◌, ◌<◌, [], true};
ghost use Rattle.job_slots.specs.Looks.{is_idle, HasTried};

use crate::exchange::exchange;
use crate::plays::{Claim, Shut};
use crate::rule::{Place, SharedSlots};
use crate::turns::Turns;
use crate::word::{DONE, READY, RUNNING};

/// Runs the job of the slot, or changes nothing where no job is ready there. A look comes first, since most slots have
/// none: a failed exchange would cost the other workers a cache line, and room for a job is made in the other function.
pub(crate) fn run_at<J: Turns>(shared: &SharedSlots<J>, seat: &mut Place<J>, slot: usize) -> bool
    requires table { seat.old.table_id ≡ shared.now.table_id }
    requires slot { slot < shared.now.table_id.words }
    requires idle { (is_idle seat.old.me.0 ≡ true) × (seat.old.me.1 ≡ []) }
    ensures table { seat.new.table_id ≡ seat.old.table_id }
    ensures tried { HasTried slot seat.old.me result seat.new.me }
{
    shared.peek(slot) == READY && run_ready(shared, seat, slot)
}

/// Claims the job of the slot, turns it and shuts the slot, unless another worker was faster.
fn run_ready<J: Turns>(shared: &SharedSlots<J>, seat: &mut Place<J>, slot: usize) -> bool
    requires table { seat.old.table_id ≡ shared.now.table_id }
    requires slot { slot < shared.now.table_id.words }
    requires idle { (is_idle seat.old.me.0 ≡ true) × (seat.old.me.1 ≡ []) }
    ensures table { seat.new.table_id ≡ seat.old.table_id }
    ensures tried { HasTried slot seat.old.me result seat.new.me }
{
    if shared.compare_exchange::<Claim>(seat, slot, READY, RUNNING) != READY {
        return false;
    }
    let mut job = exchange(shared, seat, slot, None).unwrap();
    job.turn();
    let nothing = exchange(shared, seat, slot, Some(job));
    let None = nothing else { unreachable!() };
    shared.store::<Shut>(seat, slot, DONE);
    true
}
