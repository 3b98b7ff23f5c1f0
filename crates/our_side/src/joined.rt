//! A connection is never accused of an answer, whatever comes to it. Each law is the contract of a function that does
//! nothing but cite those that it stands on.

ghost use Rattle.std.specs.Prelude.{ℕ, List};
ghost use Rattle.connection.specs.Connections.{Connection};
ghost use Rattle.connection_history.specs.History.{History};
ghost use Rattle.connection_history.specs.declared.event.Event.{Event};
ghost use Rattle.content_streams.specs.Streams.{placed_contents};
ghost use Rattle.content_streams.specs.declared.framing.Framing.{Framing};
ghost use Rattle.conversation_rules.specs.Judging.{Seen, findings_of};
ghost use Rattle.conversation_rules.specs.declared.finding.Limits.{Limits};
ghost use Rattle.conversation_rules.specs.declared.protocol.Protocol.{Protocol};
ghost use Rattle.conversation_rules.specs.declared.side.Side.{Side};
ghost use Rattle.our_side.specs.Breaking.{AccusesNone, is_of_answers};
ghost use Rattle.our_side.specs.OurSide.{IsOurSide, AllTaken, TakesAll, other, seen_of};

use crate::asked::who_answers_what_was_asked_is_not_accused;
use crate::once::each_unit_is_answered_in_its_form;
use connection::contents_of_what_is_written_are_its_texts;
use content_streams::{placed_contents_are_the_contents, places_stay};

/// Whatever was seen of the other side: batches, invalid entries and contents that can't be read too. A side that is a
/// connection is accused neither of `not-owed` nor of `not-as-array`, by each set of rules, whatever its host says. Where
/// it is told as `not-owed`, that is a note.
///
/// `always`: it takes a batch of no more entries than the judge does, and if it has MCP's cancels, it is judged by MCP's
/// rules. `otherwise`: each array that came is one that it refuses, or has no more entries than the judge takes, and so do
/// its cancels.
pub fn a_connection_is_not_accused_of_its_answers()
    ensures always { (protocol : Protocol) (framing : Framing) (limits : Limits) (seen : List Seen) (side : Side)
        (connection : Connection) (history : History) (told : List Event) (n : ℕ) →
        IsOurSide protocol framing limits seen side connection history told n →
        TakesAll protocol connection.settings →
        AccusesNone side is_of_answers (findings_of protocol framing limits seen) }
    ensures otherwise { (protocol : Protocol) (framing : Framing) (limits : Limits) (seen : List Seen) (side : Side)
        (connection : Connection) (history : History) (told : List Event) (n : ℕ) →
        IsOurSide protocol framing limits seen side connection history told n →
        AllTaken protocol connection.settings (placed_contents (seen_of protocol framing limits seen (other side))) →
        AccusesNone side is_of_answers (findings_of protocol framing limits seen) }
{
    contents_of_what_is_written_are_its_texts();
    placed_contents_are_the_contents();
    places_stay();
    each_unit_is_answered_in_its_form();
    who_answers_what_was_asked_is_not_accused();
}
