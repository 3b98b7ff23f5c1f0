//! Nobody is accused who answers nothing more often than it was asked. The law is the contract of a function that does
//! nothing but cite the one that it stands on.

ghost use Rattle.std.specs.Prelude.{◌≡◌, ◌++◌, List};
ghost use Rattle.content_streams.specs.Streams.{placed_contents};
ghost use Rattle.content_streams.specs.declared.framing.Framing.{Framing};
ghost use Rattle.conversation_rules.specs.Judging.{Seen, findings_of};
ghost use Rattle.conversation_rules.specs.declared.finding.Limits.{Limits};
ghost use Rattle.conversation_rules.specs.declared.protocol.Protocol.{Protocol};
ghost use Rattle.conversation_rules.specs.declared.side.Side.{Side};
ghost use Rattle.our_side.specs.Asked.{Question, CanBeAsked, AllSay, IsNoMore, judged};
ghost use Rattle.our_side.specs.Breaking.{AccusesNone, is_of_answers};
ghost use Rattle.our_side.specs.OurSide.{other, seen_of};

use content_streams::places_stay;

/// Whatever was seen of one side. What was seen of the other can be read, and its answers have ids that a connection
/// could have; those that stand alone break no rule by themselves; an array has no answers, or nothing else. By each
/// moment it had answered nothing more often than it was asked: an id, by single answers; the ids of a batch, by arrays, if
/// no cancel came by which a request may be left; a batch, by any array; and all that may be answered under the id null,
/// and batches, by single answers under null and by arrays together. Then it is accused neither of `not-owed` nor of
/// `not-as-array`: if it is told as one of them, that is a note.
pub fn who_answers_what_was_asked_is_not_accused()
    ensures { (protocol : Protocol) (framing : Framing) (limits : Limits) (seen : List Seen) (side : Side) →
        AllSay (placed_contents (seen_of protocol framing limits seen side)) →
        ((before after : List Seen) → seen ≡ before ++ after → (question : Question) → CanBeAsked question →
        IsNoMore protocol question (judged (seen_of protocol framing limits before side))
        (judged (seen_of protocol framing limits before (other side)))) →
        AccusesNone side is_of_answers (findings_of protocol framing limits seen) }
{
    places_stay();
}
