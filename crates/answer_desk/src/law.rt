//! What each call leaves of the numbers and of their slots, whatever desk there is. Each law is the contract of a function
//! that does nothing.

ghost use Rattle.std.specs.Prelude.{◌≡◌, ◌≢◌, ◌-◌, ◌<◌, ◌≤◌, ℕ, Some, None, false, slice_set};
ghost use Rattle.std.specs.Option.{option_map};
ghost use Rattle.message_ids.specs.declared.id.Id.{Id};
ghost use Rattle.rpc_messages.specs.declared.reply.Reply.{Reply};
ghost use Rattle.open_numbers.specs.declared.open_call.OpenCall.{OpenCall};
ghost use Rattle.open_numbers.specs.declared.replies.Put.TheVariants.{Kept};
ghost use Rattle.open_numbers.specs.declared.replies.Slot.TheVariants.{Held, Given};
ghost use Rattle.open_numbers.specs.Replies.{is_kept};
ghost use Rattle.answer_desk.specs.State.{State, next_number, number_at, slot_of, put_of, with_reply, reply_of, without_reply, IsLowestInReach, with_reached, with_marks, with_end};
ghost use Rattle.open_numbers.specs.OpenCalls.{marked, number_marked};

/// A reply that is kept changes its own number alone, and one that isn't kept changes nothing.
pub fn reply_changes_its_own_number()
    ensures here { (s : State) (n turn : ℕ) (reply : Reply) → put_of s n turn ≡ Kept →
        number_at (with_reply s n turn reply) n ≡
        option_map (λ (m : OpenCall).
        record m { replies = slice_set m.replies (turn - 1) (Held reply) }) (number_at s n) }
    ensures another { (s : State) (n turn k : ℕ) (reply : Reply) → k ≢ n →
        number_at (with_reply s n turn reply) k ≡ number_at s k }
    ensures none { (s : State) (n turn : ℕ) (reply : Reply) → is_kept (put_of s n turn) ≡ false →
        with_reply s n turn reply ≡ s }
{}

/// A reply that is kept fills the slot of its turn, and the slots of other turns stay as they are.
pub fn reply_fills_its_own_slot()
    ensures here { (s : State) (n turn : ℕ) (reply : Reply) → put_of s n turn ≡ Kept →
        slot_of (with_reply s n turn reply) n turn ≡ Some (Held reply) }
    ensures another { (s : State) (n turn t : ℕ) (reply : Reply) → t ≢ turn →
        slot_of (with_reply s n turn reply) n t ≡ slot_of s n t }
{}

/// A reply that is taken leaves its slot given, and everything else as it is; where none is given nothing changes.
pub fn taken_reply_leaves_its_slot_given()
    ensures here { (s : State) (n turn : ℕ) (reply : Reply) → reply_of s n turn ≡ Some reply →
        slot_of (without_reply s n turn) n turn ≡ Some Given }
    ensures another_turn { (s : State) (n turn t : ℕ) → t ≢ turn →
        slot_of (without_reply s n turn) n t ≡ slot_of s n t }
    ensures another_number { (s : State) (n turn k : ℕ) → k ≢ n →
        number_at (without_reply s n turn) k ≡ number_at s k }
    ensures none { (s : State) (n turn : ℕ) → reply_of s n turn ≡ None →
        without_reply s n turn ≡ s }
{}

/// A cancel marks requests of its id below its own number, and leaves the numbers from there on.
pub fn cancel_reaches_numbers_below_it()
    ensures below { (s : State) (id : Id) (before k : ℕ) → k < before →
        number_at (with_marks s id before) k ≡ option_map (number_marked id) (number_at s k) }
    ensures from { (s : State) (id : Id) (before k : ℕ) → before ≤ k →
        number_at (with_marks s id before) k ≡ number_at s k }
{}

/// One step of a cancel marks one number, and all steps together are what the cancel marks.
pub fn reach_marks_one_number()
    ensures here { (s : State) (n : ℕ) →
        number_at (with_reached s (Some n)) n ≡ option_map marked (number_at s n) }
    ensures another { (s : State) (n k : ℕ) → k ≢ n →
        number_at (with_reached s (Some n)) k ≡ number_at s k }
    ensures step { (s : State) (id : Id) (before n : ℕ) → IsLowestInReach s id before (Some n) →
        with_marks (with_reached s (Some n)) id before ≡ with_marks s id before }
    ensures last { (s : State) (id : Id) (before : ℕ) → IsLowestInReach s id before None →
        with_marks s id before ≡ s }
{}

/// An end closes its own number alone, and gives no number.
pub fn end_closes_its_own_number()
    ensures here { (s : State) (n : ℕ) (reply : Reply) → number_at (with_end s n reply) n ≡ None }
    ensures another { (s : State) (n k : ℕ) (reply : Reply) → k ≢ n →
        number_at (with_end s n reply) k ≡ number_at s k }
    ensures next { (s : State) (n : ℕ) (reply : Reply) →
        next_number (with_end s n reply) ≡ next_number s }
{}
