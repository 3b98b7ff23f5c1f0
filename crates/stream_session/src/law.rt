//! What stands after some units goes on to stand, call by call of a session, and what it has written is an output; and the
//! same of a session that is fed bytes. Each law is the contract of a function that does nothing.

ghost use Rattle.std.specs.Prelude.{◌≡◌, ◌≢◌, ℕ, List, [], ◌∷◌, ◌++◌, false, is_some, Option, Some, None};
ghost use Rattle.std.specs.Io.KnownBytes.{Appends};
ghost use Rattle.rpc_messages.specs.Numbering.{taken, is_cut};
ghost use Rattle.rpc_messages.specs.Unit.{SeenUnit};
ghost use Rattle.method_steps.specs.Steps.{MethodTable};
ghost use Rattle.handler_future.specs.State.{HandlerState};
ghost use Rattle.peer_output.specs.Cancelled.{Begins};
ghost use Rattle.peer_output.specs.Events.{with_at};
ghost use Rattle.peer_output.specs.Items.{Item, bytes_of};
ghost use Rattle.peer_output.specs.Later.{MayBecome};
ghost use Rattle.peer_output.specs.Output.{IsPartialOutput};
ghost use Rattle.peer_events.specs.Turning.{ready};
ghost use Rattle.peer_session.specs.declared.job.Job.{Job as JobOf};
ghost use Rattle.peer_session.specs.declared.limits.Limits.{Limits as LimitsOf};
ghost use Rattle.peer_session.specs.declared.report.Close.{Close as CloseOf};
ghost use Rattle.peer_session.specs.declared.taken.Taken.{Taken as TakenOf};
ghost use Rattle.peer_session.specs.Events.{TakesUnit, LeavesAt, Writes, WritesSome, ended, picked, with_job_back};
ghost use Rattle.peer_session.specs.SessionState.{SessionState, IsDone, new_session, report_of};
ghost use Rattle.peer_session.specs.Turned.{Turned};
ghost use Rattle.lsp_frames.specs.Devices.{Ending};
ghost use Rattle.peer_session.specs.declared.report.Report.{Report as ReportOf};
ghost use Rattle.stream_framing.specs.declared.framing.Framing.{Framing as FramingOf};
ghost use Rattle.stream_framing.specs.declared.framing.Framing.TheVariants.{Frames};
ghost use Rattle.stream_session.specs.Framings.{IsRunIn, IsRunOf, IsShortIn, IsShortOf};
ghost use Rattle.stream_session.specs.Promise.{IsRun, IsRunCutShort};
ghost use Rattle.stream_session.specs.Standing.{SessionStands, HasDrained, IsWhole, close_by};
ghost use Rattle.stream_session.specs.Stream.{Fed, StreamState, StreamStands, StopsShort};

use crate::known::known;

/// A session stands before its first content, and after each of its calls.
pub fn sessions_go_on_standing()
    ensures new { (table : MethodTable) (limits : LimitsOf) →
        SessionStands table limits [] [] (new_session table limits) (λ n. None) }
    ensures take { (table : MethodTable) (limits : LimitsOf) (units : List SeenUnit)
        (items : List Item) (s after : SessionState) (jobs : ℕ → Option HandlerState)
        (unit : SeenUnit) (how : TakenOf) →
        SessionStands table limits units items s jobs → s.close ≡ None →
        is_cut limits.numbers units ≡ false → TakesUnit s unit how after →
        SessionStands table limits (taken limits.numbers (units ++ unit ∷ [])) items after jobs
        × (after.close ≡ close_by limits.numbers (units ++ unit ∷ [])) }
    ensures end { (table : MethodTable) (limits : LimitsOf) (units : List SeenUnit)
        (items : List Item) (s : SessionState) (jobs : ℕ → Option HandlerState)
        (close : CloseOf) →
        SessionStands table limits units items s jobs → s.close ≡ None →
        SessionStands table limits units items (ended s close) jobs
        × ((ended s close).close ≡ Some close) }
    ensures next_job { (table : MethodTable) (limits : LimitsOf) (units : List SeenUnit)
        (items : List Item) (s after : SessionState) (jobs : ℕ → Option HandlerState) (pick : ℕ)
        (job : HandlerState) →
        SessionStands table limits units items s jobs → LeavesAt s pick (Some job) after →
        SessionStands table limits units items after (with_at (picked s.core pick) (Some job) jobs)
        × (jobs (picked s.core pick) ≡ None) }
    ensures back { (table : MethodTable) (limits : LimitsOf) (units : List SeenUnit)
        (items : List Item) (s : SessionState) (jobs : ℕ → Option HandlerState) (n : ℕ)
        (job turned : JobOf) →
        SessionStands table limits units items s jobs → jobs n ≡ Some job.handler →
        job.polls ≡ 0 → Turned job turned →
        SessionStands table limits units items
        (with_job_back s turned.handler turned.outcome turned.polls) (with_at n None jobs) }
    ensures drain { (table : MethodTable) (limits : LimitsOf) (units : List SeenUnit)
        (items : List Item) (s after : SessionState) (jobs : ℕ → Option HandlerState)
        (before at sink : Option (List ℕ)) →
        SessionStands table limits units items s jobs → Appends before at (bytes_of items) →
        Writes s after at sink →
        (all : List Item) × SessionStands table limits units all after jobs
        × Appends before sink (bytes_of all) × HasDrained table after jobs }
{
    known();
}

/// What a session has written is a partial output at any time, and so is what a drain has begun to write. What is drained
/// is done, once the input is over and no handler is ready or out; and what is done is an output, which its report counts.
pub fn what_sessions_wrote()
    ensures partial { (table : MethodTable) (limits : LimitsOf) (units later : List SeenUnit)
        (items : List Item) (s : SessionState) (jobs : ℕ → Option HandlerState) →
        SessionStands table limits units items s jobs → MayBecome (is_some s.close) units later →
        IsPartialOutput table later items }
    ensures begun { (table : MethodTable) (limits : LimitsOf) (units later : List SeenUnit)
        (items : List Item) (s after : SessionState) (jobs : ℕ → Option HandlerState)
        (before at sink : Option (List ℕ)) →
        SessionStands table limits units items s jobs → Appends before at (bytes_of items) →
        WritesSome s after at sink → MayBecome (is_some s.close) units later →
        (all : List Item) × (bytes : List ℕ) × IsPartialOutput table later all
        × Begins bytes (bytes_of all) × Appends before sink bytes }
    ensures done { (table : MethodTable) (s : SessionState) (jobs : ℕ → Option HandlerState) →
        HasDrained table s jobs → ready s.core ≡ [] → ((n : ℕ) → jobs n ≡ None) →
        s.close ≢ None → s.is_broken ≡ false → IsDone s }
    ensures whole { (table : MethodTable) (limits : LimitsOf) (units : List SeenUnit)
        (items : List Item) (s : SessionState) (jobs : ℕ → Option HandlerState) →
        SessionStands table limits units items s jobs → IsDone s →
        IsWhole table units items (report_of s) }
{
    known();
}

/// Whatever a stream's session does next, it has stopped short so far; and once it is done, that was a whole run. It
/// doesn't matter how it is told which jobs are out. Of any input, nothing written is a run cut short.
pub fn what_a_stream_wrote()
    ensures short { (fed : Fed) (jobs : ℕ → Option HandlerState) (s : StreamState)
        (sink : Option (List ℕ)) → StreamStands fed jobs s sink → StopsShort fed sink }
    ensures whole { (fed : Fed) (jobs : ℕ → Option HandlerState) (s : StreamState)
        (sink : Option (List ℕ)) → StreamStands fed jobs s sink → IsDone s.session →
        IsRunOf fed.framing fed.table fed.limits fed.bytes fed.ending fed.before
        sink (report_of s.session) }
    ensures jobs { (fed : Fed) (jobs others : ℕ → Option HandlerState) (s : StreamState)
        (sink : Option (List ℕ)) → StreamStands fed jobs s sink →
        ((n : ℕ) → jobs n ≡ others n) → StreamStands fed others s sink }
    ensures nothing { (framing : FramingOf) (table : MethodTable) (limits : LimitsOf)
        (text : List ℕ) (before : Option (List ℕ)) → IsShortOf framing table limits text before
        before }
{
    known();
}

/// A run in frames is a run.
pub fn runs_in_frames_are_runs()
    ensures run { (table : MethodTable) (limits : LimitsOf) (input : List ℕ) (ending : Ending)
        (before after : Option (List ℕ)) (report : ReportOf) →
        IsRunIn Frames table limits input ending before after report →
        IsRun table limits input ending before after report }
    ensures cut_short { (table : MethodTable) (limits : LimitsOf) (input : List ℕ) (ending : Ending)
        (before after : Option (List ℕ)) →
        IsShortIn Frames table limits input ending before after →
        IsRunCutShort table limits input before after }
{}
