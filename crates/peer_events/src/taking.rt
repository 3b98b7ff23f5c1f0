//! What a unit that is taken makes of a session, and of its past. Each law is the contract of a function that does nothing.

ghost use Rattle.std.specs.Prelude.{◌≡◌, ◌≢◌, ◌+◌, ℕ, List, [], ◌∷◌, ◌++◌, true, false, Bool, Option, None};
ghost use Rattle.message_ids.specs.declared.standard.Standard.{Standard};
ghost use Rattle.rpc_messages.specs.Entry.{SeenEntry};
ghost use Rattle.rpc_messages.specs.Numbering.{numbers_in};
ghost use Rattle.rpc_messages.specs.Unit.{SeenUnit};
ghost use Rattle.method_steps.specs.Steps.{MethodTable};
ghost use Rattle.handler_future.specs.State.{HandlerState};
ghost use Rattle.peer_events.specs.declared.stage.Stage.TheVariants.{Faulty, Idle};
ghost use Rattle.peer_output.specs.Cancelled.{Begins, is_cancelled};
ghost use Rattle.peer_output.specs.Events.{no_past, with_units};
ghost use Rattle.peer_output.specs.Past.{Past, past_units, past_entries};
ghost use Rattle.peer_events.specs.Core.{Core, stage_at};
ghost use Rattle.peer_events.specs.Fits.{Fits, AtRest};
ghost use Rattle.peer_events.specs.Passing.{EndsByCancel, Passes};
ghost use Rattle.peer_events.specs.Taking.{opened, PassesEntry, Takes};
ghost use Rattle.peer_events.specs.Turning.{start};

use crate::known::known;

/// At the start nothing has happened.
pub fn start_is_at_rest()
    ensures { (table : MethodTable) → AtRest table false (start table) no_past (λ n. None) }
{
    known();
}

/// A unit may be opened while the input goes on: its calls have numbers, and none of its entries is passed yet.
pub fn units_are_opened()
    ensures { (table : MethodTable) (s : Core) (past : Past) (unit : SeenUnit)
        (jobs : ℕ → Option HandlerState) → AtRest table false s past jobs →
        Fits table false (past_entries past) (opened table s unit) (with_units past (unit ∷ [])) jobs }
{
    known();
}

/// Its entries are passed in their order. Nothing becomes of the past but that numbers are finished, by their fault or by a
/// cancel.
pub fn entries_are_passed()
    ensures { (table : MethodTable) (passed : List SeenEntry) (entry : SeenEntry) (s after : Core)
        (past : Past) (jobs : ℕ → Option HandlerState) → Fits table false passed s past jobs →
        Begins (passed ++ entry ∷ []) (past_entries past) →
        PassesEntry s (1 + numbers_in passed) entry after →
        (later : Past) × Fits table false (passed ++ entry ∷ []) after later jobs
        × Passes s after past later }
{
    known();
}

/// So a unit may be taken while the input goes on. It comes behind the others, and nothing else becomes of the past but that
/// numbers are finished, by their fault or by a cancel.
pub fn units_are_taken()
    ensures { (table : MethodTable) (s after : Core) (past : Past) (unit : SeenUnit)
        (jobs : ℕ → Option HandlerState) → AtRest table false s past jobs → Takes table s unit after →
        (later : Past) × AtRest table false after later jobs
        × Passes (opened table s unit) after (with_units past (unit ∷ [])) later
        × (past_units later ≡ past_units past ++ unit ∷ []) × (later.items ≡ past.items) }
{
    known();
}

/// Between two events no handler that is here has a request that a cancel has reached, and no call at fault is left. So where
/// entries were passed, each handler that was here and whose request a cancel has reached was finished by it.
pub fn cancels_finish_the_handlers_that_are_here()
    ensures none { (table : MethodTable) (is_over : Bool) (s : Core) (past : Past)
        (jobs : ℕ → Option HandlerState) (n : ℕ) (handler : HandlerState) (so_far : ℕ) →
        AtRest table is_over s past jobs → stage_at s n ≡ Idle handler so_far →
        is_cancelled (past_entries past) n ≡ false }
    ensures no_fault { (table : MethodTable) (is_over : Bool) (s : Core) (past : Past)
        (jobs : ℕ → Option HandlerState) (n : ℕ) (error : Standard) →
        AtRest table is_over s past jobs → stage_at s n ≢ Faulty error }
    ensures all { (table : MethodTable) (s after : Core) (past later : Past)
        (jobs : ℕ → Option HandlerState) (n : ℕ) (handler : HandlerState) (so_far : ℕ) →
        Passes s after past later → AtRest table false after later jobs →
        stage_at s n ≡ Idle handler so_far → is_cancelled (past_entries later) n ≡ true →
        EndsByCancel s past later n }
{}
