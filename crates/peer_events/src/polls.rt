//! How many polls are made: as many as messages that await replies, and at most one more for each
//! number. Each law is the contract of a function that does nothing.

ghost use Rattle.std.specs.Prelude.{◌≡◌, ◌≢◌, ◌+◌, ◌-◌, ℕ, List, [], ◌++◌, map, length, Bool, false, Option, Some, None};
ghost use Rattle.rpc_messages.specs.Dues.{Due};
ghost use Rattle.rpc_messages.specs.Unit.{SeenUnit};
ghost use Rattle.method_steps.specs.Steps.{MethodTable};
ghost use Rattle.handler_future.specs.State.{HandlerState, IsPoll};
ghost use Rattle.handler_future.specs.declared.outcome.Outcome.{Outcome};
ghost use Rattle.handler_future.specs.declared.outcome.Outcome.TheVariants.{Failed as NoMemory};
ghost use Rattle.peer_events.specs.declared.stage.Stage.TheVariants.{Gone};
ghost use Rattle.peer_output.specs.Events.{with_at};
ghost use Rattle.peer_output.specs.Items.{Item, answered, count_calls};
ghost use Rattle.peer_events.specs.Core.{Core, stage_at, unwritten_from};
ghost use Rattle.peer_events.specs.Polls.{PollsFit, PollsWithin};
ghost use Rattle.peer_events.specs.Stands.{StandsAfter};
ghost use Rattle.peer_events.specs.Taking.{Takes};
ghost use Rattle.peer_events.specs.Turning.{start, Leaves, returned, closed, drained};

use crate::known::known;

/// At the start there were none; a handler that comes back has been polled once more, and no other
/// event changes how many were made. A handler that found no memory loses what it has made, so
/// nothing is said of what comes behind it.
pub fn each_turn_is_one_poll()
    ensures start { (table : MethodTable) → PollsFit table (start table) (λ n. None) [] 0 }
    ensures take { (table : MethodTable) (s after : Core) (jobs : ℕ → Option HandlerState)
        (units : List SeenUnit) (items : List Item) (unit : SeenUnit) (polls : ℕ) →
        StandsAfter table false s jobs units items → Takes table s unit after →
        PollsFit table s jobs items polls → PollsFit table after jobs items polls }
    ensures leave { (table : MethodTable) (s after : Core) (jobs : ℕ → Option HandlerState)
        (items : List Item) (n : ℕ) (job : HandlerState) (polls : ℕ) → Leaves s n job after →
        PollsFit table s jobs items polls →
        PollsFit table after (with_at n (Some job) jobs) items polls }
    ensures back { (table : MethodTable) (is_over : Bool) (s : Core)
        (jobs : ℕ → Option HandlerState) (units : List SeenUnit) (items : List Item) (n : ℕ)
        (job turned : HandlerState) (outcome : Option Outcome) (polls : ℕ) →
        StandsAfter table is_over s jobs units items → jobs n ≡ Some job →
        IsPoll job turned outcome → outcome ≢ Some NoMemory → PollsFit table s jobs items polls →
        PollsFit table (returned s turned outcome) (with_at n None jobs) items (polls + 1) }
    ensures turn { (table : MethodTable) (is_over : Bool) (s between : Core)
        (jobs : ℕ → Option HandlerState) (units : List SeenUnit) (items : List Item) (n : ℕ)
        (job turned : HandlerState) (outcome : Option Outcome) (polls : ℕ) →
        StandsAfter table is_over s jobs units items → Leaves s n job between →
        IsPoll job turned outcome → outcome ≢ Some NoMemory → PollsFit table s jobs items polls →
        PollsFit table (returned between turned outcome) jobs items (polls + 1) }
    ensures end { (table : MethodTable) (s : Core) (jobs : ℕ → Option HandlerState)
        (items : List Item) (polls : ℕ) → PollsFit table s jobs items polls →
        PollsFit table (closed s) jobs items polls }
    ensures drain { (table : MethodTable) (s : Core) (jobs : ℕ → Option HandlerState)
        (items : List Item) (dues : List Due) (polls : ℕ) → PollsFit table s jobs items polls →
        PollsFit table (drained s) jobs (items ++ unwritten_from 0 s.stages ++ map answered dues)
        polls }
{
    known();
}

/// Once nothing is left of any number, each message that awaits replies was made by a poll of its
/// own, and each number had at most one poll more.
pub fn polls_of_a_done_session_are_few()
    ensures { (table : MethodTable) (s : Core) (jobs : ℕ → Option HandlerState)
        (items : List Item) (polls : ℕ) → PollsFit table s jobs items polls →
        ((n : ℕ) → stage_at s n ≡ Gone) →
        PollsWithin table (length s.stages - 1) (count_calls items) polls }
{}
