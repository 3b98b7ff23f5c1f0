//! How the clerk takes a turned job home.
ghost use Rattle.std.specs.Prelude.{◌≡◌, ◌<◌, [], true, IfSome, OnSome, IfNone};
ghost use Rattle.job_slots.specs.declared.view.Look.TheVariants.{Free};
ghost use Rattle.job_slots.specs.Looks.{is_clerk, view_looks, with_look, HasJob, HasTurned};

use crate::exchange::exchange;
use crate::plays::{Clear, LookAt};
use crate::rule::{Place, SharedSlots};
use crate::turns::Turns;
use crate::word::{DONE, EMPTY};

// Takes the turned job out of a slot in use and empties the slot, or changes nothing where the job is not done.
pub(crate) fn take_home<J: Turns>(
    shared: &SharedSlots<J>,
    seat: &mut Place<J>,
    slot: usize,
) -> Option<J>
    requires table { seat.old.table_id ≡ shared.now.table_id }
    requires slot { slot < shared.now.table_id.words }
    requires clerk { (is_clerk seat.old.me.0 ≡ true) × (seat.old.me.1 ≡ []) }
    requires in_use { HasJob (view_looks seat.old.me.0) slot }
    ensures table { seat.new.table_id ≡ seat.old.table_id }
    ensures turned { IfSome result (HasTurned J.turned (view_looks seat.old.me.0) slot) }
    ensures emptied { OnSome result (seat.new.me ≡ (with_look seat.old.me.0 slot Free, [])) }
    ensures not_yet { IfNone result (seat.new.me ≡ seat.old.me) }
{
    if shared.load::<LookAt>(seat, slot) != DONE {
        return None;
    }
    let job = exchange(shared, seat, slot, None);
    shared.store::<Clear>(seat, slot, EMPTY);
    job
}
