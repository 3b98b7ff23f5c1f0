//! What becomes of a session as handlers hear, go out and come back, and as the input ends. Each law
//! is the contract of a function that does nothing.

ghost use Rattle.std.specs.Prelude.{◌≡◌, ◌≢◌, ℕ, List, [], ◌++◌, map, filter, not, is_some, Bool, true, false, Option, Some, None};
ghost use Rattle.rpc_messages.specs.declared.reply.Reply.{Reply};
ghost use Rattle.rpc_messages.specs.Entry.{SeenEntry};
ghost use Rattle.method_steps.specs.Steps.{MethodTable};
ghost use Rattle.answer_desk.specs.State.{State, number_at, reply_of};
ghost use Rattle.open_numbers.specs.OpenCalls.{is_marked_number};
ghost use Rattle.handler_future.specs.State.{HandlerState, IsPoll};
ghost use Rattle.handler_future.specs.declared.outcome.Outcome.{Outcome};
ghost use Rattle.handler_future.specs.declared.outcome.Outcome.TheVariants.{Answer, Failed as NoMemory};
ghost use Rattle.peer_output.specs.Course.{Sending, withdrawal, Course};
ghost use Rattle.peer_output.specs.Cancelled.{is_cancelled};
ghost use Rattle.peer_output.specs.Events.{with_at, with_sends, with_course};
ghost use Rattle.peer_output.specs.Past.{Past, past_units, past_entries};
ghost use Rattle.peer_events.specs.Core.{Core, made_by};
ghost use Rattle.peer_events.specs.Finishing.{cancelled_course};
ghost use Rattle.peer_events.specs.Hearing.{hear_waits, is_ready};
ghost use Rattle.peer_events.specs.Fits.{RunFits, IsAtRest, AtRest};
ghost use Rattle.peer_events.specs.Passing.{unanswered};
ghost use Rattle.peer_events.specs.Turning.{Leaves, returned, closed};

use crate::known::known;

/// A handler that hears what is there keeps to its run: the slots of what it has heard are given,
/// and those of other numbers stay. It waits for what isn't there, so for nothing where it is
/// ready; and once the board is closed, each is ready.
pub fn handlers_hear_what_is_there()
    ensures fits { (table : MethodTable) (is_over : Bool) (entries passed : List SeenEntry) (n : ℕ)
        (desk : State) (h : HandlerState) (sends : List Sending) (took : Option Course) →
        desk.is_closed ≡ is_over →
        RunFits table is_over entries passed n h (number_at desk n) sends took →
        RunFits table is_over entries passed n (hear_waits desk h).handler
        (number_at (hear_waits desk h).desk n) sends took }
    ensures others { (desk : State) (h : HandlerState) (k : ℕ) → k ≢ h.number →
        number_at (hear_waits desk h).desk k ≡ number_at desk k }
    ensures messages { (desk : State) (h : HandlerState) →
        (hear_waits desk h).handler.messages ≡ h.messages }
    ensures waits { (desk : State) (h : HandlerState) → (hear_waits desk h).handler.waits
        ≡ filter (λ turn. not (is_some (reply_of desk h.number turn))) h.waits }
    ensures ready { (desk : State) (h : HandlerState) → is_ready desk h ≡ true →
        (hear_waits desk h).handler.waits ≡ [] }
    ensures closed { (table : MethodTable) (is_over : Bool) (entries passed : List SeenEntry)
        (n : ℕ) (desk : State) (h : HandlerState) (sends : List Sending) (took : Option Course) →
        RunFits table is_over entries passed n h (number_at desk n) sends took → IsAtRest h →
        desk.is_closed ≡ true → is_ready desk h ≡ true }
{
    known();
}

/// The input may end between two events.
pub fn input_ends_at_rest()
    ensures { (table : MethodTable) (s : Core) (past : Past) (jobs : ℕ → Option HandlerState) →
        AtRest table false s past jobs → AtRest table true (closed s) past jobs }
{
    known();
}

/// A handler that is ready may go out, and the past is as it was.
pub fn ready_handlers_go_out()
    ensures { (table : MethodTable) (is_over : Bool) (s after : Core) (past : Past)
        (jobs : ℕ → Option HandlerState) (n : ℕ) (job : HandlerState) →
        AtRest table is_over s past jobs → Leaves s n job after →
        AtRest table is_over after past (with_at n (Some job) jobs) × (job.waits ≡ []) }
{
    known();
}

/// A job that is out waits for nothing. Its number isn't finished, and is marked where a cancel has
/// reached its request.
pub fn jobs_are_out()
    ensures number { (table : MethodTable) (is_over : Bool) (s : Core) (past : Past)
        (jobs : ℕ → Option HandlerState) (n : ℕ) (job : HandlerState) →
        AtRest table is_over s past jobs → jobs n ≡ Some job → job.number ≡ n }
    ensures waits { (table : MethodTable) (is_over : Bool) (s : Core) (past : Past)
        (jobs : ℕ → Option HandlerState) (n : ℕ) (job : HandlerState) →
        AtRest table is_over s past jobs → jobs n ≡ Some job → job.waits ≡ [] }
    ensures unfinished { (table : MethodTable) (is_over : Bool) (s : Core) (past : Past)
        (jobs : ℕ → Option HandlerState) (n : ℕ) (job : HandlerState) →
        AtRest table is_over s past jobs → jobs n ≡ Some job → past.took n ≡ None }
    ensures marked { (table : MethodTable) (is_over : Bool) (s : Core) (past : Past)
        (jobs : ℕ → Option HandlerState) (n : ℕ) (job : HandlerState) →
        AtRest table is_over s past jobs → jobs n ≡ Some job →
        is_marked_number (number_at s.desk n) ≡ is_cancelled (past_entries past) n }
{}

/// A job may come back with what its poll answered. Where it waits, its number has sent what its
/// handler has made by now, unless a cancel has reached its request: then the number is finished as
/// cancelled. An answer finishes it. Without memory its past is as it was.
pub fn jobs_come_back()
    ensures waiting { (table : MethodTable) (is_over : Bool) (s : Core) (past : Past)
        (jobs : ℕ → Option HandlerState) (n : ℕ) (job turned : HandlerState) →
        AtRest table is_over s past jobs → jobs n ≡ Some job → IsPoll job turned None →
        is_cancelled (past_entries past) n ≡ false →
        AtRest table is_over (returned s turned None) (with_sends past n (made_by turned))
        (with_at n None jobs) }
    ensures cancelled { (table : MethodTable) (is_over : Bool) (s : Core) (past : Past)
        (jobs : ℕ → Option HandlerState) (n : ℕ) (job turned : HandlerState) →
        AtRest table is_over s past jobs → jobs n ≡ Some job → IsPoll job turned None →
        is_cancelled (past_entries past) n ≡ true →
        AtRest table is_over (returned s turned None)
        (with_course past n (cancelled_course s turned)) (with_at n None jobs) }
    ensures answered { (table : MethodTable) (is_over : Bool) (s : Core) (past : Past)
        (jobs : ℕ → Option HandlerState) (n : ℕ) (job turned : HandlerState) (answer : Reply) →
        AtRest table is_over s past jobs → jobs n ≡ Some job →
        IsPoll job turned (Some (Answer answer)) →
        AtRest table is_over (returned s turned (Some (Answer answer)))
        (with_course past n (record { sends = made_by turned; answer = answer }))
        (with_at n None jobs) }
    ensures failed { (table : MethodTable) (is_over : Bool) (s : Core) (past : Past)
        (jobs : ℕ → Option HandlerState) (n : ℕ) (job turned : HandlerState) →
        AtRest table is_over s past jobs → jobs n ≡ Some job →
        IsPoll job turned (Some NoMemory) →
        AtRest table is_over (returned s turned (Some NoMemory)) past (with_at n None jobs) }
    ensures any { (table : MethodTable) (is_over : Bool) (s : Core) (past : Past)
        (jobs : ℕ → Option HandlerState) (n : ℕ) (job turned : HandlerState)
        (outcome : Option Outcome) →
        AtRest table is_over s past jobs → jobs n ≡ Some job → IsPoll job turned outcome →
        (later : Past) × AtRest table is_over (returned s turned outcome) later (with_at n None jobs)
        × (past_units later ≡ past_units past) × (later.items ≡ past.items)
        × ((k : ℕ) → k ≢ n → (later.sends k ≡ past.sends k) × (later.took k ≡ past.took k)) }
{
    known();
}

/// One that is cancelled as it comes back withdraws the calls that it waits for and to which no
/// reply has come; once the input is over it has heard `No reply` to these, and withdraws nothing.
pub fn cancelled_jobs_withdraw_what_is_unanswered()
    ensures unanswered { (table : MethodTable) (s : Core) (past : Past)
        (jobs : ℕ → Option HandlerState) (n : ℕ) (job turned : HandlerState) →
        AtRest table false s past jobs → jobs n ≡ Some job → IsPoll job turned None →
        (cancelled_course s turned).sends
        ≡ made_by turned ++ map withdrawal (unanswered (past_entries past) n turned.waits) }
    ensures over { (table : MethodTable) (s : Core) (past : Past)
        (jobs : ℕ → Option HandlerState) (n : ℕ) (job turned : HandlerState) →
        AtRest table true s past jobs → jobs n ≡ Some job → IsPoll job turned None →
        (cancelled_course s turned).sends ≡ made_by turned }
{
    known();
}
