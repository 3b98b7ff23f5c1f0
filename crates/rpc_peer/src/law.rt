//! Laws of a server: what holds before it has begun, and of what comes out of its ring. Each is the contract of a function that does nothing.

ghost use Rattle.std.specs.Prelude.{◌≡◌, ℕ, List, Option, ◌++◌};
ghost use Rattle.method_steps.specs.Steps.{MethodTable};
ghost use Rattle.peer_session.specs.declared.limits.Limits.{Limits as LimitsOf};
ghost use Rattle.rpc_peer.specs.declared.arrival.Arrival.{Arrival as ArrivalOf};
ghost use Rattle.rpc_peer.specs.Arriving.{Reads, bytes_of, ending_of};
ghost use Rattle.peer_session.specs.declared.report.Report.{Report as ReportOf};
ghost use Rattle.stream_framing.specs.declared.framing.Framing.{Framing as FramingOf};
ghost use Rattle.stream_framing.specs.declared.framing.Framing.TheVariants.{Frames};
ghost use Rattle.stream_session.specs.Framings.{IsServedIn, IsServedInPartIn};
ghost use Rattle.stream_session.specs.Promise.{IsServed, IsServedInPart};

use lsp_frames::Source;
use stream_session::what_a_stream_wrote;

/// Where nothing was read and nothing was written, an input was served in part.
pub(crate) fn nothing_is_served_in_part<S: Source>()
    ensures { (framing : FramingOf) (table : MethodTable) (limits : LimitsOf) (source : S)
        (before : Option (List ℕ)) →
        IsServedInPartIn framing table limits (S.gave source) before before }
{
    what_a_stream_wrote();
}

/// Whatever front of what was sent has arrived, the source gave its bytes and its ending.
pub(crate) fn what_arrives_was_given<S: Source>()
    ensures { (source : S) (sent arrived rest : List ArrivalOf) →
        Reads (S.gave source) sent → sent ≡ arrived ++ rest →
        S.gave source (bytes_of arrived) (ending_of arrived) }
{}

/// What was served in frames was served.
pub(crate) fn served_in_frames_is_served<S: Source>()
    ensures whole { (table : MethodTable) (limits : LimitsOf) (source : S)
        (before after : Option (List ℕ)) (report : ReportOf) →
        IsServedIn Frames table limits (S.gave source) before after report →
        IsServed table limits (S.gave source) before after report }
    ensures part { (table : MethodTable) (limits : LimitsOf) (source : S)
        (before after : Option (List ℕ)) →
        IsServedInPartIn Frames table limits (S.gave source) before after →
        IsServedInPart table limits (S.gave source) before after }
{}
