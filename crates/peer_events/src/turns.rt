//! That handlers can't be turned for ever. Each law is the contract of a function that does nothing.

ghost use Rattle.std.specs.Prelude.{◌≡◌, ◌<◌, ℕ, Option};
ghost use Rattle.handler_future.specs.State.{HandlerState, IsPoll};
ghost use Rattle.handler_future.specs.declared.outcome.Outcome.{Outcome};
ghost use Rattle.peer_events.specs.Core.{Core};
ghost use Rattle.peer_events.specs.Turning.{Leaves, returned, drained};
ghost use Rattle.peer_events.specs.Turns.{all_turns_left};

use crate::known::known;
use handler_future::{front_begins_the_messages, messages_are_at_most_the_steps};

/// Once a handler has gone out, was turned and is back, fewer turns are left, whatever the poll has answered; what is
/// written changes nothing.
pub fn turned_handlers_have_fewer_turns_left()
    ensures turned { (s between : Core) (n : ℕ) (job turned : HandlerState) (outcome : Option Outcome) →
        Leaves s n job between → job.number ≡ n → IsPoll job turned outcome →
        all_turns_left (returned between turned outcome).stages < all_turns_left s.stages }
    ensures written { (s : Core) → all_turns_left (drained s).stages ≡ all_turns_left s.stages }
{
    known();
    front_begins_the_messages();
    messages_are_at_most_the_steps();
}
