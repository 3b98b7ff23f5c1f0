//! How often things have happened. Each law is the contract of a function that does nothing.

ghost use Rattle.std.specs.Prelude.{◌≡◌, Option, ℕ, List, [], ◌∷◌, Bool, length};
ghost use Rattle.connection_messages.specs.declared.answer.Answer.{Answer};
ghost use Rattle.connection_messages.specs.declared.cancels.Cancels.{Cancels};
ghost use Rattle.connection_messages.specs.declared.outgoing.Outgoing.{Outgoing};
ghost use Rattle.connection_messages.specs.declared.unit.Unit.{Unit};
ghost use Rattle.connection_history.specs.declared.close.Close.{Close};
ghost use Rattle.connection_history.specs.declared.order.Order.{Order};
ghost use Rattle.connection_history.specs.History.{Origin, came, called, called_all, noticed, withdrew, answered, ended, History, waiting};
ghost use Rattle.connection_history.specs.Refusals.{IsLawful};
ghost use Rattle.connection_history.specs.Counts.{open_count};
ghost use Rattle.connection_steps.specs.States.{state_of, own_of, theirs_of};
ghost use Rattle.connection_steps.specs.Tallies.{tally_of, no_counts, tally_in, plus, answers_let_out, plus_answers};

/// At first nothing is counted.
pub fn nothing_is_counted_at_first()
    ensures { (order : Order) → tally_of order [] ≡ no_counts }
{}

/// A unit that comes adds its requests, its answers that can go out, and what is unreadable, invalid or ignored.
pub fn a_unit_adds_its_counts()
    ensures { (cancels : Option Cancels) (order : Order) (past : History) (origin : Option Origin) (unit : Unit) →
        IsLawful cancels past →
        tally_of order (came origin unit ∷ past)
        ≡ plus (tally_of order past) (tally_in order unit (state_of order past)) }
{}

/// An answer adds the answers that can go out then.
pub fn an_answer_adds_what_it_lets_out()
    ensures { (cancels : Option Cancels) (order : Order) (past : History) (number : ℕ) (answer : Option Answer) →
        IsLawful cancels (answered number answer ∷ past) →
        tally_of order (answered number answer ∷ past)
        ≡ plus_answers (answers_let_out order number answer (state_of order past))
        (tally_of order past) }
{}

/// Nothing else adds to these counts.
pub fn nothing_else_is_counted()
    ensures called { (order : Order) (past : History) (number : ℕ) (outgoing : Outgoing) →
        tally_of order (called number outgoing ∷ past) ≡ tally_of order past }
    ensures called_all { (order : Order) (past : History) (number : ℕ) (outgoings : List Outgoing) →
        tally_of order (called_all number outgoings ∷ past) ≡ tally_of order past }
    ensures noticed { (order : Order) (past : History) (outgoing : Outgoing) →
        tally_of order (noticed outgoing ∷ past) ≡ tally_of order past }
    ensures withdrew { (order : Order) (past : History) (by : Cancels) (key : ℕ) →
        tally_of order (withdrew by key ∷ past) ≡ tally_of order past }
    ensures ended { (order : Order) (past : History) (close : Close) →
        tally_of order (ended close ∷ past) ≡ tally_of order past }
{}

/// The calls that are open, and those of ours that wait, are as many as stand in the lists.
pub fn open_calls_are_counted()
    ensures open_calls { (history : History) → open_count history ≡ length (theirs_of history).calls }
    ensures waiting { (history : History) → length (waiting history) ≡ length (own_of history).waiting }
{}
