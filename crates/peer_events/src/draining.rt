//! What is due is written, and what has been written. Each law is the contract of a function that does
//! nothing.

ghost use Rattle.std.specs.Prelude.{◌≡◌, ◌≢◌, ℕ, ◌≤◌, List, [], ◌++◌, map, Bool, true, Option, None};
ghost use Rattle.rpc_messages.specs.Dues.{Due};
ghost use Rattle.rpc_messages.specs.Numbering.{units_numbers};
ghost use Rattle.rpc_messages.specs.Unit.{SeenUnit};
ghost use Rattle.method_steps.specs.Steps.{MethodTable};
ghost use Rattle.answer_desk.specs.State.{front_texts};
ghost use Rattle.handler_future.specs.State.{HandlerState};
ghost use Rattle.peer_events.specs.declared.stage.Stage.TheVariants.{Gone, Failed};
ghost use Rattle.peer_output.specs.Items.{Item, answered, bytes_of};
ghost use Rattle.peer_output.specs.Later.{MayBecome};
ghost use Rattle.peer_output.specs.Output.{IsOutput, IsPartialOutput};
ghost use Rattle.peer_output.specs.Past.{Past, past_units, past_entries};
ghost use Rattle.peer_events.specs.Core.{Core, stage_at, unwritten_from};
ghost use Rattle.peer_events.specs.Fits.{IsGone, AtRest};
ghost use Rattle.peer_events.specs.Turning.{ready, due_bytes, drained};

use crate::known::known;

/// What is due may be written: what numbers have sent, number by number, and then the answers of the
/// longest front of whole units. Nothing else becomes of the past but that these units are released.
pub fn what_is_due_is_written()
    ensures items { (table : MethodTable) (is_over : Bool) (s : Core) (past : Past)
        (jobs : ℕ → Option HandlerState) → AtRest table is_over s past jobs →
        (later : Past) × (dues : List Due) × AtRest table is_over (drained s) later jobs
        × (past_units later ≡ past_units past)
        × (map (λ (due : Due). due.text) dues ≡ front_texts s.desk)
        × (later.items ≡ past.items ++ unwritten_from 0 s.stages ++ map answered dues)
        × (later.sends ≡ past.sends) × (later.took ≡ past.took) }
    ensures bytes { (s : Core) (before after : List Item) (dues : List Due) →
        map (λ (due : Due). due.text) dues ≡ front_texts s.desk →
        after ≡ before ++ unwritten_from 0 s.stages ++ map answered dues →
        bytes_of after ≡ bytes_of before ++ due_bytes s }
{
    known();
}

/// What has been written is a partial output at any time, whatever may yet come. Once the input is
/// over, nothing is left of any number and no unit waits, it is an output.
pub fn what_was_written_is_an_output()
    ensures partial { (table : MethodTable) (is_over : Bool) (s : Core) (past : Past)
        (jobs : ℕ → Option HandlerState) (later : List SeenUnit) →
        AtRest table is_over s past jobs → MayBecome is_over (past_units past) later →
        IsPartialOutput table later past.items }
    ensures whole { (table : MethodTable) (s : Core) (past : Past)
        (jobs : ℕ → Option HandlerState) → AtRest table true s past jobs →
        ((n : ℕ) → stage_at s n ≡ Gone) → s.desk.units ≡ [] →
        IsOutput table (past_units past) past.items }
{
    known();
}

/// Nothing is stuck: once the input is over, no handler is ready or out and none found no memory,
/// every number is over. So once what is due is written, nothing is left of any number and no unit
/// waits.
pub fn nothing_is_stuck()
    ensures over { (table : MethodTable) (s : Core) (past : Past)
        (jobs : ℕ → Option HandlerState) → AtRest table true s past jobs →
        ready s ≡ [] → ((n : ℕ) → jobs n ≡ None) → ((n : ℕ) → stage_at s n ≢ Failed) →
        (n : ℕ) → n ≤ units_numbers (past_units past) →
        IsGone table (past_entries past) n (past.took n) }
    ensures drained { (table : MethodTable) (s : Core) (past : Past)
        (jobs : ℕ → Option HandlerState) → AtRest table true s past jobs →
        ready s ≡ [] → ((n : ℕ) → jobs n ≡ None) → ((n : ℕ) → stage_at s n ≢ Failed) →
        ((n : ℕ) → stage_at (drained s) n ≡ Gone) × ((drained s).desk.units ≡ []) }
{
    known();
}
