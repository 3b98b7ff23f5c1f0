//! The answers that aren't out. Each law is the contract of a function that does nothing.

ghost use Rattle.std.specs.Prelude.{◌≡◌, Option, ℕ, List, [], ◌∷◌, ◌+◌, Bool, length};
ghost use Rattle.connection_messages.specs.declared.answer.Answer.{Answer};
ghost use Rattle.connection_messages.specs.declared.cancels.Cancels.{Cancels};
ghost use Rattle.connection_messages.specs.declared.outgoing.Outgoing.{Outgoing};
ghost use Rattle.connection_messages.specs.declared.unit.Unit.{Unit};
ghost use Rattle.connection_history.specs.declared.close.Close.{Close};
ghost use Rattle.connection_history.specs.declared.order.Order.{Order};
ghost use Rattle.connection_history.specs.History.{Origin, came, called, called_all, noticed, withdrew, answered, ended, History, units_of};
ghost use Rattle.connection_history.specs.Refusals.{IsLawful};
ghost use Rattle.connection_history.specs.Items.{answers_at};
ghost use Rattle.open_calls.specs.Numbered.{at};
ghost use Rattle.connection_steps.specs.Initial.{initial};
ghost use Rattle.connection_steps.specs.States.{theirs_of, owed_of};
ghost use Rattle.connection_steps.specs.Steps.{answers_of, leaving, staying, owed_with, owed_given};

/// At first nothing is owed.
pub fn nothing_is_owed_at_first()
    ensures { (order : Order) → owed_of order [] ≡ initial.owed }
{}

/// A unit that comes is owed its answers, and those that can go out do.
pub fn a_unit_is_owed_its_answers()
    ensures owed { (cancels : Option Cancels) (order : Order) (past : History) (origin : Option Origin) (unit : Unit) →
        IsLawful cancels past →
        owed_of order (came origin unit ∷ past) ≡ record {
          places = length (units_of past) + 1;
          owed = staying order (owed_with unit (owed_of order past));
        } }
    ensures written { (cancels : Option Cancels) (order : Order) (past : History) (origin : Option Origin) (unit : Unit) →
        IsLawful cancels past →
        answers_at order past (came origin unit)
        ≡ answers_of (leaving order (owed_with unit (owed_of order past))) }
{}

/// An answer stands in its slot, and the answers that can go out do.
pub fn an_answer_stands_in_its_slot()
    ensures owed { (cancels : Option Cancels) (order : Order) (past : History) (number : ℕ) (answer : Option Answer) →
        IsLawful cancels (answered number answer ∷ past) →
        owed_of order (answered number answer ∷ past) ≡ record (owed_of order past) {
          owed = staying order
              (owed_given (at number (theirs_of past).calls) answer (owed_of order past).owed);
        } }
    ensures written { (cancels : Option Cancels) (order : Order) (past : History) (number : ℕ) (answer : Option Answer) →
        IsLawful cancels (answered number answer ∷ past) →
        answers_at order past (answered number answer)
        ≡ answers_of (leaving order
        (owed_given (at number (theirs_of past).calls) answer (owed_of order past).owed)) }
{}

/// Nothing else changes what is owed.
pub fn nothing_else_changes_what_is_owed()
    ensures called { (order : Order) (past : History) (number : ℕ) (outgoing : Outgoing) →
        (owed_of order (called number outgoing ∷ past) ≡ owed_of order past) ×
        (answers_at order past (called number outgoing) ≡ []) }
    ensures called_all { (order : Order) (past : History) (number : ℕ) (outgoings : List Outgoing) →
        (owed_of order (called_all number outgoings ∷ past) ≡ owed_of order past) ×
        (answers_at order past (called_all number outgoings) ≡ []) }
    ensures noticed { (order : Order) (past : History) (outgoing : Outgoing) →
        (owed_of order (noticed outgoing ∷ past) ≡ owed_of order past) ×
        (answers_at order past (noticed outgoing) ≡ []) }
    ensures withdrew { (order : Order) (past : History) (by : Cancels) (key : ℕ) →
        (owed_of order (withdrew by key ∷ past) ≡ owed_of order past) ×
        (answers_at order past (withdrew by key) ≡ []) }
    ensures ended { (order : Order) (past : History) (close : Close) →
        (owed_of order (ended close ∷ past) ≡ owed_of order past) ×
        (answers_at order past (ended close) ≡ []) }
{}
