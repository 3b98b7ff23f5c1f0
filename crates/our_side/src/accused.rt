//! Where the judge tells a connection as `not-owed`, as worked conversations: what the connection reads, that its host may
//! say what it says, the messages that go out, and what is found. Each law is the contract of a function that does nothing.

ghost use Rattle.std.specs.Prelude.{◌≡◌, ◌∷◌, [], Some, None, codes};
ghost use Rattle.connection.specs.BackToBack.{answer, answers, messages_of};
ghost use Rattle.connection_history.specs.Refusals.{IsLawful};
ghost use Rattle.connection_history.specs.declared.order.Order.TheVariants.{AsAnswered};
ghost use Rattle.connection_messages.specs.Reading as lenient;
ghost use Rattle.connection_messages.specs.declared.answer.Answer.TheVariants.{Standard};
ghost use Rattle.connection_messages.specs.declared.cancels.Cancels.TheVariants as cancels;
ghost use Rattle.connection_messages.specs.declared.entry.Entry.TheVariants.{Invalid};
ghost use Rattle.connection_messages.specs.declared.unit.Unit.TheVariants.{Single};
ghost use Rattle.conversation_rules.specs.Rows.{request, null_answer, array_of, says, told, tells};
ghost use Rattle.conversation_rules.specs.declared.finding.Rule.TheVariants as rules;
ghost use Rattle.conversation_rules.specs.declared.level.Level.TheVariants.{Must, Note};
ghost use Rattle.conversation_rules.specs.declared.protocol.Protocol.TheVariants.{JsonRpc, Mcp20250326};
ghost use Rattle.conversation_rules.specs.declared.side.Side.TheVariants.{Client, Server};
ghost use Rattle.message_ids.specs.declared.id.Id.TheVariants.{Null, Text};
ghost use Rattle.message_ids.specs.declared.standard.Standard.TheVariants.{InvalidRequest};
ghost use Rattle.our_side.specs.Rows.{reads, too_many, first_batch, second_batch, first_came, second_came, answer_with, one, left_in_batches};

/// A batch of more entries than the connection takes is one invalid entry to it, which it answers once. To the judge it is a
/// batch of requests, which may be refused whole: that is a note.
pub fn a_batch_of_too_many_is_answered_once()
    ensures read { lenient.value_unit (reads None (Some 1)) (array_of (request (codes "1") ∷ request (codes "2") ∷ [])) ≡ Single Invalid }
    ensures lawful { IsLawful None too_many }
    ensures said { messages_of AsAnswered too_many ≡ answer Null (Standard InvalidRequest) ∷ [] }
    ensures found { told JsonRpc (says Client (array_of (request (codes "1") ∷ request (codes "2") ∷ []))
        ∷ says Server (null_answer (codes "-32600")) ∷ []) ≡ tells Server rules.NotOwed Note 1 0 ∷ [] }
{}

/// With MCP's cancels a host may leave a cancelled request without an answer, or answer it all the same. Where a client uses
/// an id again, the array of one batch may be taken for that of an older one; then the older one's fits nothing. Since it had to
/// be guessed for which batch the first was, that is a note.
pub fn cancelled_requests_are_left_in_batches()
    ensures first { lenient.value_unit (reads (Some cancels.Mcp) None) first_batch ≡ first_came }
    ensures second { lenient.value_unit (reads (Some cancels.Mcp) None) second_batch ≡ second_came }
    ensures lawful { IsLawful (Some cancels.Mcp) left_in_batches }
    ensures said { messages_of AsAnswered left_in_batches
        ≡ answers ((Text (codes "x"), one) ∷ []) ∷ answers ((Text (codes "y"), one) ∷ []) ∷ [] }
    ensures found { told Mcp20250326 (says Client first_batch ∷ says Client second_batch
        ∷ says Server (array_of (answer_with (codes "x") ∷ [])) ∷ says Server (array_of (answer_with (codes "y") ∷ [])) ∷ [])
        ≡ tells Client rules.IdAgain Must 2 1 ∷ tells Server rules.AfterCancel Note 1 1
        ∷ tells Server rules.NotOwed Note 2 1 ∷ [] }
{}
