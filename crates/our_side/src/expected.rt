//! An answer that is expected is accused of nothing, as the judge matches answers: what is left to a law of whole
//! conversations is that what it is for is still owed. Each law is the contract of a function that does nothing.

ghost use Rattle.std.specs.Prelude.{◌≡◌, ◌⊎◌, ◌∷◌, List, Option, Some, true, false};
ghost use Rattle.std.specs.List.{list_any};
ghost use Rattle.conversation_reading.specs.declared.entry.WrittenId.{WrittenId};
ghost use Rattle.conversation_reading.specs.declared.entry.WrittenId.TheVariants.{Null};
ghost use Rattle.conversation_rules.specs.Amounts.{is_null};
ghost use Rattle.conversation_rules.specs.Answers.{has_code, single_findings, answers_findings};
ghost use Rattle.conversation_rules.specs.Dues.{ids_read};
ghost use Rattle.conversation_rules.specs.Matching.{is_null_request, is_null_other, is_unnamed};
ghost use Rattle.conversation_rules.specs.Owed.{Due, is_expected};
ghost use Rattle.conversation_rules.specs.declared.finding.Message.{Message};
ghost use Rattle.conversation_rules.specs.declared.protocol.Protocol.{Protocol};
ghost use Rattle.conversation_rules.specs.declared.reply.Reply.{Reply};
ghost use Rattle.conversation_rules.specs.declared.reply.Sight.{Sight};
ghost use Rattle.our_side.specs.Breaking.{is_of_answers};
ghost use Rattle.our_side.specs.Expected.{NoneOf, is_owed_singly, any_unreadable, is_owed_in_a_batch};

/// A single answer whose id is expected from a single entry; one with the id null, where a request with the id null or an
/// invalid entry stands alone; -32700, where a content can't be read, or such a request stands alone, or an invalid entry
/// that has no id but null, and nothing is open that a reader may limit; and an array of answers alone, where just its ids
/// are expected from a batch. None is told as `not-owed` or `not-as-array`.
pub fn expected_answers_are_not_accused()
    ensures named { (protocol : Protocol) (sight : Sight) (message : Message) (reply : Reply) (owed : List Due)
        (id : WrittenId) → is_null id ≡ false → is_owed_singly (is_expected id) owed ≡ true →
        NoneOf is_of_answers (single_findings protocol sight message reply (Some id) owed) }
    ensures null { (protocol : Protocol) (sight : Sight) (message : Message) (reply : Reply) (owed : List Due) →
        has_code 32700 reply ≡ false →
        (is_owed_singly is_null_request owed ≡ true) ⊎ (is_owed_singly is_null_other owed ≡ true) →
        NoneOf is_of_answers (single_findings protocol sight message reply (Some Null) owed) }
    ensures unreadable { (protocol : Protocol) (sight : Sight) (message : Message) (reply : Reply)
        (owed : List Due) → has_code 32700 reply ≡ true →
        (any_unreadable owed ≡ true) ⊎ ((is_owed_singly is_null_request owed ≡ true) ⊎
        ((is_owed_singly is_unnamed owed ≡ true) × (list_any (λ due. due.has_huge) owed ≡ false))) →
        NoneOf is_of_answers (single_findings protocol sight message reply (Some Null) owed) }
    ensures array { (protocol : Protocol) (sight : Sight) (message : Message) (replies : List Reply)
        (ids : List (Option WrittenId)) (owed : List Due) (id : WrittenId) (more : List WrittenId) →
        ids_read ids ≡ id ∷ more → is_owed_in_a_batch (id ∷ more) owed ≡ true →
        NoneOf is_of_answers (answers_findings protocol sight message true replies ids owed) }
{}
