//! A connection answers no id more often than it was asked: singly what came alone, and by an array what came as a
//! batch. Each law is the contract of a function that does nothing but cite the one that it stands on.

ghost use Rattle.std.specs.Prelude.{◌≡◌, ◌⊎◌, ◌≤◌, List, Option, Bool, Some, true, false};
ghost use Rattle.connection.specs.BackToBack.{messages_of};
ghost use Rattle.connection_history.specs.History.{History, stream, units_of};
ghost use Rattle.connection_history.specs.Refusals.{IsLawful};
ghost use Rattle.connection_history.specs.Stream.{calls_in};
ghost use Rattle.connection_history.specs.declared.order.Order.{Order};
ghost use Rattle.connection_messages.specs.declared.answer.Answer.{Answer};
ghost use Rattle.connection_messages.specs.declared.cancels.Cancels.{Cancels};
ghost use Rattle.message_ids.specs.Ids.{has_id};
ghost use Rattle.message_ids.specs.declared.id.Id.{Id};
ghost use Rattle.message_ids.specs.declared.id.Id.TheVariants.{Null};
ghost use Rattle.our_side.specs.Answered.{AreAnsweredWhole, OfSingleCalls, any_cancel, has_ids, answered_with, asked_with, came_alone, came_together, said_alone, said_together, total};

use connection_history::each_unit_has_its_answer_once;

/// After any history, in single messages and in arrays together, each id but null is answered no more often than calls
/// that came have it.
pub fn no_id_is_answered_more_often_than_asked()
    ensures { (order : Order) (history : History) (id : Id) → has_id id (Some Null) ≡ false →
        answered_with id (messages_of order history) ≤ asked_with id (calls_in (stream history)) }
{
    each_unit_has_its_answer_once();
}

/// Answers that pass a test, whatever it is, go out alone no more often than units came that are no batches and whose
/// answer may pass: what is invalid or can't be read has a fixed answer under the id null, and a call has its host's
/// under its id. And lists of ids: no more arrays of answers have ids that pass a test, in their order, than batches
/// came whose entries are answered under such ids, where no cancel of MCP can take an answer out of one, or none came. And
/// no more arrays of answers go out than batches came that are answered, whatever was cancelled.
pub fn each_unit_is_answered_in_its_form()
    ensures alone { (order : Order) (history : History) (test : Id × Answer → Bool) (may : Id → Bool) →
        OfSingleCalls (λ id a. test (id, a) ≡ true → may id ≡ true) history →
        total (said_alone test) (messages_of order history) ≤ total (came_alone test may) (units_of history) }
    ensures together { (cancels : Option Cancels) (order : Order) (history : History) → IsLawful cancels history →
        AreAnsweredWhole cancels (units_of history) ⊎ (any_cancel (stream history) ≡ false) → (test : List Id → Bool) →
        total (said_together test) (messages_of order history) ≤ total (came_together test) (units_of history) }
    ensures arrays { (order : Order) (history : History) →
        total (said_together has_ids) (messages_of order history) ≤ total (came_together has_ids) (units_of history) }
{
    each_unit_has_its_answer_once();
}
