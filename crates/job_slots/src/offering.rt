//! How the clerk fills a slot.
ghost use Rattle.std.specs.Prelude.{◌≡◌, ◌<◌, [], true, Some, slice_get};
ghost use Rattle.job_slots.specs.declared.view.Look.TheVariants.{Free, In};
ghost use Rattle.job_slots.specs.Looks.{is_clerk, view_looks, with_look};

use crate::exchange::exchange;
use crate::plays::{Open, Reserve};
use crate::rule::{Place, SharedSlots};
use crate::turns::Turns;
use crate::word::{FILLING, READY};

// Puts the job into a free slot and opens it to the workers.
pub(crate) fn fill<J: Turns>(shared: &SharedSlots<J>, seat: &mut Place<J>, slot: usize, job: J)
    requires table { seat.old.table_id ≡ shared.now.table_id }
    requires slot { slot < shared.now.table_id.words }
    requires clerk { (is_clerk seat.old.me.0 ≡ true) × (seat.old.me.1 ≡ []) }
    requires free { slice_get (view_looks seat.old.me.0) slot ≡ Some Free }
    ensures table { seat.new.table_id ≡ seat.old.table_id }
    ensures filled { seat.new.me ≡ (with_look seat.old.me.0 slot (In job), []) }
{
    shared.store::<Reserve>(seat, slot, FILLING);
    let nothing = exchange(shared, seat, slot, Some(job));
    let None = nothing else { unreachable!() };
    shared.store::<Open>(seat, slot, READY);
}
