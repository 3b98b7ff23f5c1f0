//! What stands after some units goes on to stand, event by event, and what it has written is an output.
//! Each law is the contract of a function that does nothing.

ghost use Rattle.std.specs.Prelude.{◌≡◌, ◌≢◌, ℕ, List, [], ◌∷◌, ◌++◌, map, Bool, true, false, Option, Some, None};
ghost use Rattle.rpc_messages.specs.Dues.{Due};
ghost use Rattle.rpc_messages.specs.Unit.{SeenUnit};
ghost use Rattle.method_steps.specs.Steps.{MethodTable};
ghost use Rattle.answer_desk.specs.State.{front_texts};
ghost use Rattle.handler_future.specs.State.{HandlerState, IsPoll};
ghost use Rattle.handler_future.specs.declared.outcome.Outcome.{Outcome};
ghost use Rattle.peer_events.specs.declared.stage.Stage.TheVariants.{Gone, Failed};
ghost use Rattle.peer_output.specs.Events.{with_at};
ghost use Rattle.peer_output.specs.Items.{Item, answered, bytes_of};
ghost use Rattle.peer_output.specs.Later.{MayBecome};
ghost use Rattle.peer_output.specs.Output.{IsOutput, IsPartialOutput};
ghost use Rattle.peer_events.specs.Core.{Core, stage_at, unwritten_from};
ghost use Rattle.peer_events.specs.Stands.{StandsAfter};
ghost use Rattle.peer_events.specs.Taking.{Takes};
ghost use Rattle.peer_events.specs.Turning.{start, Leaves, ready, returned, closed, due_bytes, drained};

use crate::known::known;

/// A session stands at its start, and after each event.
pub fn events_keep_standing()
    ensures start { (table : MethodTable) →
        StandsAfter table false (start table) (λ n. None) [] [] }
    ensures take { (table : MethodTable) (s after : Core) (jobs : ℕ → Option HandlerState)
        (units : List SeenUnit) (items : List Item) (unit : SeenUnit) →
        StandsAfter table false s jobs units items → Takes table s unit after →
        StandsAfter table false after jobs (units ++ unit ∷ []) items }
    ensures leave { (table : MethodTable) (is_over : Bool) (s after : Core)
        (jobs : ℕ → Option HandlerState) (units : List SeenUnit) (items : List Item) (n : ℕ)
        (job : HandlerState) →
        StandsAfter table is_over s jobs units items → Leaves s n job after →
        StandsAfter table is_over after (with_at n (Some job) jobs) units items }
    ensures back { (table : MethodTable) (is_over : Bool) (s : Core)
        (jobs : ℕ → Option HandlerState) (units : List SeenUnit) (items : List Item) (n : ℕ)
        (job turned : HandlerState) (outcome : Option Outcome) →
        StandsAfter table is_over s jobs units items → jobs n ≡ Some job →
        IsPoll job turned outcome →
        StandsAfter table is_over (returned s turned outcome) (with_at n None jobs) units items }
    ensures turn { (table : MethodTable) (is_over : Bool) (s between : Core)
        (jobs : ℕ → Option HandlerState) (units : List SeenUnit) (items : List Item) (n : ℕ)
        (job turned : HandlerState) (outcome : Option Outcome) →
        StandsAfter table is_over s jobs units items → Leaves s n job between →
        IsPoll job turned outcome →
        StandsAfter table is_over (returned between turned outcome) jobs units items }
    ensures end { (table : MethodTable) (s : Core) (jobs : ℕ → Option HandlerState)
        (units : List SeenUnit) (items : List Item) →
        StandsAfter table false s jobs units items →
        StandsAfter table true (closed s) jobs units items }
    ensures drain { (table : MethodTable) (is_over : Bool) (s : Core)
        (jobs : ℕ → Option HandlerState) (units : List SeenUnit) (items : List Item) →
        StandsAfter table is_over s jobs units items →
        (dues : List Due)
        × StandsAfter table is_over (drained s) jobs units
        (items ++ unwritten_from 0 s.stages ++ map answered dues)
        × (map (λ (due : Due). due.text) dues ≡ front_texts s.desk)
        × (bytes_of (items ++ unwritten_from 0 s.stages ++ map answered dues)
        ≡ bytes_of items ++ due_bytes s) }
{
    known();
}

/// What has been written is a partial output at any time, whatever may yet come. Once the input is
/// over, nothing is left of any number and no unit waits, it is an output; and a drain brings it
/// there, once no handler is ready or out and none found no memory.
pub fn what_stands_is_an_output()
    ensures partial { (table : MethodTable) (is_over : Bool) (s : Core)
        (jobs : ℕ → Option HandlerState) (units later : List SeenUnit) (items : List Item) →
        StandsAfter table is_over s jobs units items → MayBecome is_over units later →
        IsPartialOutput table later items }
    ensures whole { (table : MethodTable) (s : Core) (jobs : ℕ → Option HandlerState)
        (units : List SeenUnit) (items : List Item) →
        StandsAfter table true s jobs units items →
        ((n : ℕ) → stage_at s n ≡ Gone) → s.desk.units ≡ [] → IsOutput table units items }
    ensures drained { (table : MethodTable) (s : Core) (jobs : ℕ → Option HandlerState)
        (units : List SeenUnit) (items : List Item) →
        StandsAfter table true s jobs units items →
        ready s ≡ [] → ((n : ℕ) → jobs n ≡ None) → ((n : ℕ) → stage_at s n ≢ Failed) →
        ((n : ℕ) → stage_at (drained s) n ≡ Gone) × ((drained s).desk.units ≡ []) }
{
    known();
}
