//! What is said and told of responses. Each law is the contract of a function that does nothing but cite the one that
//! it stands on.

ghost use Rattle.std.specs.Prelude.{◌≡◌, ◌∷◌, ◌<◌, [], ℕ, List, false};
ghost use Rattle.connection.specs.BackToBack.{messages_of};
ghost use Rattle.connection_messages.specs.ReadBack.{reply_as_read};
ghost use Rattle.connection_messages.specs.declared.answer.Answer.{Answer};
ghost use Rattle.connection_messages.specs.declared.reply.Reply.{Reply};
ghost use Rattle.connection_history.specs.Events.{events_of};
ghost use Rattle.connection_history.specs.History.{History, is_open, reply_to, stream};
ghost use Rattle.connection_history.specs.Stream.{first_reply};
ghost use Rattle.connection_history.specs.Told.{replies_told};
ghost use Rattle.connection_history.specs.declared.order.Order.{Order};
ghost use Rattle.call_laws.specs.Calls.{IsAnswered, IsSaid};
ghost use Rattle.call_laws.specs.Talks.{Talk};
ghost use Rattle.message_ids.specs.declared.id.Id.{Id};
ghost use Rattle.message_ids.specs.declared.id.Id.TheVariants.{Unsigned};

use connection_history::{a_reply_is_told_once, nothing_is_owed_where_nothing_is_open};

/// A response that is told is the other host's answer to this request, and to no other; and the host gives a request
/// one answer. No response comes before its request.
pub fn a_response_is_the_answer_of_the_other_host()
    ensures told { (first second : Order) (ours theirs : History) (key : ℕ) (reply : Reply) (more : List Reply) →
        Talk first second ours theirs → replies_told key (events_of ours) ≡ reply ∷ more →
        (given : Answer) × IsAnswered (Unsigned key) theirs given × (reply ≡ reply_as_read given) × (more ≡ []) }
    ensures one { (first second : Order) (ours theirs : History) (key : ℕ) (given other : Answer) →
        Talk first second ours theirs → IsAnswered (Unsigned key) theirs given →
        IsAnswered (Unsigned key) theirs other → given ≡ other }
    ensures first { (first second : Order) (ours theirs : History) (key : ℕ) → Talk first second ours theirs →
        reply_to key ours ≡ first_reply key (stream ours) }
{
    a_reply_is_told_once();
}

/// Where no call is open, each answer that the host has given to a request has gone out.
pub fn each_answer_goes_out()
    ensures { (order : Order) (history : History) (id : Id) (given : Answer) →
        ((number : ℕ) → 0 < number → is_open number history ≡ false) → IsAnswered id history given →
        IsSaid id given (messages_of order history) }
{
    nothing_is_owed_where_nothing_is_open();
}
