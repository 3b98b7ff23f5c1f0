ghost use Rattle.std.specs.Prelude.{◌≡◌, [], ◌∷◌, Option};

use crate::rule::{Place, SharedSlots};
use crate::turns::Turns;

// Reads and writes the slot that the seat holds, as plain memory. All such access goes by this function.
pub(crate) fn exchange<J: Turns>(
    shared: &SharedSlots<J>,
    seat: &mut Place<J>,
    slot: usize,
    new: Option<J>,
) -> Option<J>
    requires table { seat.old.table_id ≡ shared.now.table_id }
    requires held { (old : Option J) × (seat.old.me.1 ≡ (slot, old) ∷ []) }
    ensures seat { (seat.new.table_id ≡ seat.old.table_id)
        × (seat.new.me ≡ (seat.old.me.0, (slot, new) ∷ [])) }
    ensures old { seat.old.me.1 ≡ (slot, result) ∷ [] }
{
    shared.exchange(seat, slot, new)
}
