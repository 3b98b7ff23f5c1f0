//! What a connection writes breaks no rule of heads, contents and entries by themselves, nor of the ids of requests as they
//! are written. The law is the contract of a function that does nothing but cite those that it stands on.

ghost use Rattle.std.specs.Prelude.{ℕ, List};
ghost use Rattle.connection.specs.Connections.{Connection};
ghost use Rattle.connection_history.specs.History.{History};
ghost use Rattle.connection_history.specs.declared.event.Event.{Event};
ghost use Rattle.content_streams.specs.declared.framing.Framing.{Framing};
ghost use Rattle.conversation_rules.specs.Judging.{Seen, findings_of};
ghost use Rattle.conversation_rules.specs.declared.finding.Limits.{Limits};
ghost use Rattle.conversation_rules.specs.declared.protocol.Protocol.{Protocol};
ghost use Rattle.conversation_rules.specs.declared.side.Side.{Side};
ghost use Rattle.our_side.specs.Breaking.{BreaksNone, is_of_messages, is_of_ids, is_of_use};
ghost use Rattle.our_side.specs.OurSide.{IsWritten};

use connection::contents_of_what_is_written_are_its_texts;
use content_streams::{
    faults_stay, frames_are_those_of_the_bytes, placed_contents_are_the_contents, places_stay,
};
use lsp_frames::{contents_are_a_function_of_the_bytes, contents_stay, written_frame_is_read_back};

/// In whatever was seen of both sides, what was seen of a side that is a connection breaks none of these rules, by each
/// set of rules: whatever its host said, and whatever came to it.
pub fn our_side_writes_messages()
    ensures messages { (protocol : Protocol) (framing : Framing) (limits : Limits) (seen : List Seen) (side : Side)
        (connection : Connection) (history : History) (told : List Event) (n : ℕ) →
        IsWritten protocol framing limits seen side connection history told n →
        BreaksNone side is_of_messages (findings_of protocol framing limits seen) }
    ensures ids { (protocol : Protocol) (framing : Framing) (limits : Limits) (seen : List Seen) (side : Side)
        (connection : Connection) (history : History) (told : List Event) (n : ℕ) →
        IsWritten protocol framing limits seen side connection history told n →
        BreaksNone side is_of_ids (findings_of protocol framing limits seen) }
    ensures again { (protocol : Protocol) (framing : Framing) (limits : Limits) (seen : List Seen) (side : Side)
        (connection : Connection) (history : History) (told : List Event) (n : ℕ) →
        IsWritten protocol framing limits seen side connection history told n →
        BreaksNone side is_of_use (findings_of protocol framing limits seen) }
{
    contents_of_what_is_written_are_its_texts();
    contents_are_a_function_of_the_bytes();
    contents_stay();
    written_frame_is_read_back();
    faults_stay();
    frames_are_those_of_the_bytes();
    placed_contents_are_the_contents();
    places_stay();
}
