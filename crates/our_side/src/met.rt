//! A worked conversation in which one side is a connection, as the laws of this crate have it: what they ask for can be met.
//! The law is the contract of a function that does nothing but cite the one that it stands on.

ghost use Rattle.std.specs.Prelude.{◌∷◌, []};
ghost use Rattle.connection_history.specs.Events.{events_of};
ghost use Rattle.connection_messages.specs.Texts.{call_text};
ghost use Rattle.content_streams.specs.declared.framing.Framing.TheVariants.{Contents};
ghost use Rattle.conversation_rules.specs.declared.protocol.Protocol.TheVariants.{JsonRpc};
ghost use Rattle.conversation_rules.specs.declared.side.Side.TheVariants.{Server};
ghost use Rattle.our_side.specs.Met.{limits, question, conversation, happenings, connection_of};
ghost use Rattle.our_side.specs.OurSide.{IsOurSide};

use connection_messages::a_call_reads_back;

/// A client asks once, and the connection answers that there is no such method. By each moment it is the side that it is
/// taken for: what it wrote was seen, and what had come to it had been seen before.
pub fn a_connection_that_answers_is_our_side()
    ensures { IsOurSide JsonRpc Contents limits conversation Server
        (connection_of (call_text 1 question ∷ []) happenings 1) happenings (events_of happenings) 1 }
{
    a_call_reads_back();
}
