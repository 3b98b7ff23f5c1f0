//! What a server has written in lines, as a connection reads it. Each law is the contract of a function that does nothing but
//! cite those that it stands on.

ghost use Rattle.std.specs.Prelude.{◌≡◌, ℕ, List, [], All, map, Some, None};
ghost use Rattle.connection.specs.Connections.{Connection, StandsAfter, next_content};
ghost use Rattle.connection.specs.Settings.{rules_of};
ghost use Rattle.connection_history.specs.History.{History, units_of};
ghost use Rattle.connection_history.specs.declared.event.Event.{Event};
ghost use Rattle.method_steps.specs.Steps.{MethodTable};
ghost use Rattle.peer_output.specs.Items.{Item};
ghost use Rattle.peer_session.specs.Framings.{bytes_in};
ghost use Rattle.peer_session.specs.declared.limits.Limits.{Limits};
ghost use Rattle.peer_session.specs.declared.report.Report.{Report};
ghost use Rattle.stream_framing.specs.declared.framing.Framing.TheVariants.{Lines};
ghost use Rattle.stream_session.specs.Framings.{IsServedIn};
ghost use Rattle.across_wings.specs.Served.{HasReadItems, IsFedLines, IsInOneLine, item_as_read};

use content_streams::contents_only_grow;
use lsp_frames::Source;

/// What a server has written for an input, in lines, are its output's items, each of them in a line of its own.
pub fn what_was_served_are_lines<S: Source>()
    ensures bytes { (table : MethodTable) (limits : Limits) (source : S) (bytes : List ℕ) (report : Report)
        (served : IsServedIn Lines table limits (S.gave source) (Some []) (Some bytes) report) →
        bytes ≡ bytes_in Lines served.run.items }
    ensures lines { (table : MethodTable) (limits : Limits) (source : S) (bytes : List ℕ) (report : Report)
        (served : IsServedIn Lines table limits (S.gave source) (Some []) (Some bytes) report) →
        All IsInOneLine served.run.items }
{}

/// A connection that is fed the bytes of items in lines, or a front of them, reads the first of the items, in their order
/// and each by itself; and once it has read all that it was fed, and that are all bytes, it has read all items.
pub fn a_connection_reads_the_lines_that_were_served()
    ensures reads { (connection : Connection) (history : History) (told : List Event) (items : List Item) →
        StandsAfter connection history told → IsFedLines connection items →
        HasReadItems connection history items }
    ensures all { (connection : Connection) (history : History) (told : List Event) (items : List Item)
        (fed : IsFedLines connection items) → StandsAfter connection history told → fed.rest ≡ [] →
        next_content connection history ≡ None →
        units_of history ≡ map (item_as_read (rules_of connection.settings)) items }
{
    contents_only_grow();
}
