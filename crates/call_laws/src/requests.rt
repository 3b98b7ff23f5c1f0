//! What the other side is told of requests. The law is the contract of a function that does nothing but cite the one
//! that it stands on.

ghost use Rattle.std.specs.Prelude.{◌≡◌, ◌++◌, ◌-◌, ℕ, List, slice_get, Some};
ghost use Rattle.connection.specs.BackToBack.{messages_of};
ghost use Rattle.connection_messages.specs.declared.call.Call.{Call};
ghost use Rattle.connection_history.specs.Events.{events_of};
ghost use Rattle.connection_history.specs.History.{History, stream};
ghost use Rattle.connection_history.specs.Stream.{call_numbered, request_id};
ghost use Rattle.connection_history.specs.declared.order.Order.{Order};
ghost use Rattle.call_laws.specs.Calls.{requests_of, requests_told};
ghost use Rattle.call_laws.specs.Talks.{Talk, HasHeardAll};
ghost use Rattle.message_ids.specs.declared.id.Id.TheVariants.{Unsigned};

use connection_history::each_call_is_told_once;

/// Of two sides that talk, the second is told the requests of the first just as they were made, in their order, each
/// once: the first ones, or all, where it has heard all that the first said.
pub fn each_request_is_told_as_it_was_made()
    ensures told { (first second : Order) (ours theirs : History) → Talk first second ours theirs →
        (rest : List Call) × (requests_of ours ≡ requests_told (events_of theirs) ++ rest) }
    ensures all { (first second : Order) (ours theirs : History) → Talk first second ours theirs →
        HasHeardAll (messages_of first ours) theirs → requests_of ours ≡ requests_told (events_of theirs) }
    ensures made { (first second : Order) (ours theirs : History) (key number : ℕ) →
        Talk first second ours theirs → request_id number (stream theirs) ≡ Some (Unsigned key) →
        call_numbered number (stream theirs) ≡ slice_get (requests_of ours) (key - 1) }
    ensures once { (first second : Order) (ours theirs : History) (key number other : ℕ) →
        Talk first second ours theirs → request_id number (stream theirs) ≡ Some (Unsigned key) →
        request_id other (stream theirs) ≡ Some (Unsigned key) → number ≡ other }
{
    each_call_is_told_once();
}
