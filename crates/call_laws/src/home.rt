//! A call comes home. Each law is the contract of a function that does nothing but cite those that it stands on.

ghost use Rattle.std.specs.Prelude.{◌≡◌, ◌⊎◌, ◌<◌, ℕ, Option, Some, None, false};
ghost use Rattle.connection.specs.BackToBack.{messages_of};
ghost use Rattle.connection_messages.specs.ReadBack.{reply_as_read};
ghost use Rattle.connection_messages.specs.declared.answer.Answer.{Answer};
ghost use Rattle.connection_messages.specs.declared.cancels.Cancels.{Cancels};
ghost use Rattle.connection_messages.specs.declared.reply.Reply.{Reply};
ghost use Rattle.connection_history.specs.History.{History, caller_of, is_open, stream};
ghost use Rattle.connection_history.specs.Refusals.{IsLawful};
ghost use Rattle.connection_history.specs.Stream.{first_reply};
ghost use Rattle.connection_history.specs.declared.order.Order.{Order};
ghost use Rattle.call_laws.specs.Calls.{IsAnswered, IsSaid};
ghost use Rattle.call_laws.specs.Endings.{replied, unanswered, given_up, caller_closed, IsEnded};
ghost use Rattle.call_laws.specs.Talks.{Talk, HasHeardAll};
ghost use Rattle.message_ids.specs.declared.id.Id.TheVariants.{Unsigned};

use crate::endings::each_request_ends_in_one_way;
use crate::responses::{a_response_is_the_answer_of_the_other_host, each_answer_goes_out};
use connection_history::each_request_is_answered_or_was_cancelled;

/// Where the input has ended, a request that is told to have no response is one whose response hasn't come, and one
/// that has its response told is one whose response has. And where all that the other side said has come, and with it
/// the answer to the request, this is told: unless its host gave the request up before, or answered the call on whose
/// behalf it was made.
pub fn a_call_comes_home()
    ensures cut { (cancels : Option Cancels) (first second : Order) (ours theirs : History) (key : ℕ) →
        Talk first second ours theirs → IsLawful cancels ours → IsEnded key ours unanswered →
        first_reply key (stream ours) ≡ None }
    ensures came { (cancels : Option Cancels) (first second : Order) (ours theirs : History) (key : ℕ)
        (reply : Reply) → Talk first second ours theirs → IsLawful cancels ours →
        IsEnded key ours (replied reply) → first_reply key (stream ours) ≡ Some reply }
    ensures home { (cancels : Option Cancels) (first second : Order) (ours theirs : History) (key caller : ℕ)
        (given : Answer) → Talk first second ours theirs → IsLawful cancels ours →
        caller_of key ours ≡ Some caller → HasHeardAll (messages_of second theirs) ours →
        IsSaid (Unsigned key) given (messages_of second theirs) →
        IsEnded key ours (replied (reply_as_read given)) ⊎ IsEnded key ours given_up ⊎ IsEnded key ours caller_closed }
{
    a_response_is_the_answer_of_the_other_host();
    each_request_ends_in_one_way();
}

/// The whole way of a request: where each side has heard all that the other said, and the other host has closed each
/// call, a request that was made has that host's answer told, or its own host gave it up, or answered its caller,
/// before that came.
pub fn a_request_goes_the_whole_way()
    ensures { (cancels : Option Cancels) (first second : Order) (ours theirs : History) (key caller : ℕ) →
        Talk first second ours theirs → IsLawful cancels ours → IsLawful cancels theirs →
        caller_of key ours ≡ Some caller →
        HasHeardAll (messages_of first ours) theirs → HasHeardAll (messages_of second theirs) ours →
        ((number : ℕ) → 0 < number → is_open number theirs ≡ false) →
        ((given : Answer) × IsAnswered (Unsigned key) theirs given
        × IsEnded key ours (replied (reply_as_read given)))
        ⊎ IsEnded key ours given_up ⊎ IsEnded key ours caller_closed }
{
    each_request_is_answered_or_was_cancelled();
    each_answer_goes_out();
    a_call_comes_home();
}
