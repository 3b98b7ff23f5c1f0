ghost use Rattle.std.specs.Prelude.{◌≡◌, ◌≤◌, ◌<◌, ℕ, length, vec_len, vec_capacity};
ghost use Rattle.std.specs.Int.{bit_at};
ghost use Rattle.job_slots.specs.declared.limits.TheConstants.{MOST_SLOTS};
ghost use Rattle.job_slots.specs.Looks.{IsClerkAtRest, view_looks};
ghost use Rattle.job_slots.specs.Inner.FreeSlots.{free_bit};

use crate::free_slots::FreeSlots;
use crate::rule::Place;

/// The one owner's right to offer and to collect. It knows each slot's job, and which slots are free.
#[derive(Drop)]
pub struct ClerkSeat<J> {
    /// The clerk's seat at the table, with its view of each slot.
    pub(crate) seat: Place<J>,
    /// Which slots are free in this view. The view itself is there for proofs alone, and can't be asked.
    pub(crate) free: FreeSlots,
    /// Where `close` puts the jobs that are left, so that it takes no memory.
    pub(crate) room: Vec<J>,
    // While nobody calls, the clerk holds no slot, and no job is on its way in or home: `offer` and `collect` end what they
    // begin, so each may count on the other.
    ghost rests: { IsClerkAtRest seat.me },
    // The view is of all slots of the table, and there is a bit for each.
    ghost sized: { (length (view_looks seat.me.0) ≡ seat.table_id.slots)
        × (seat.table_id.slots ≤ MOST_SLOTS) },
    // A bit tells that its slot is free exactly where the view does.
    ghost mapped: { (k : ℕ) → k < MOST_SLOTS →
        bit_at free.bits k ≡ free_bit (view_looks seat.me.0) k },
    // The room is empty, and wide enough for a job of each slot.
    ghost roomy: { (vec_len room ≡ 0) × (seat.table_id.slots ≤ vec_capacity room) },
}
