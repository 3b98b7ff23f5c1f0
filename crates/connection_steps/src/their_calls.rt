//! The other side's calls that are open. Each law is the contract of a function that does nothing.

ghost use Rattle.std.specs.Prelude.{◌≡◌, Option, ℕ, suc, List, [], ◌∷◌, Bool, length, Some, is_some};
ghost use Rattle.connection_messages.specs.declared.answer.Answer.{Answer};
ghost use Rattle.connection_messages.specs.declared.cancels.Cancels.{Cancels};
ghost use Rattle.connection_messages.specs.declared.outgoing.Outgoing.{Outgoing};
ghost use Rattle.connection_messages.specs.declared.unit.Unit.{Unit};
ghost use Rattle.connection_history.specs.declared.close.Close.{Close};
ghost use Rattle.connection_history.specs.Stream.{entries_in, is_cancelled};
ghost use Rattle.connection_history.specs.History.{Origin, came, called, called_all, noticed, withdrew, answered, ended, History, stream, is_open, units_of};
ghost use Rattle.connection_history.specs.Refusals.{IsLawful};
ghost use Rattle.connection_history.specs.Events.{events_at};
ghost use Rattle.open_calls.specs.declared.their_call.TheirCall.{TheirCall};
ghost use Rattle.open_calls.specs.Numbered.{at, without};
ghost use Rattle.connection_steps.specs.Initial.{initial};
ghost use Rattle.connection_steps.specs.States.{own_of, theirs_of};
ghost use Rattle.connection_steps.specs.Steps.{theirs_after_all, told_of_unit};

/// At first none is open.
pub fn no_call_is_open_at_first()
    ensures { theirs_of [] ≡ initial.theirs }
{}

/// Whether a call is open, and whether a cancel has reached it, is looked up by its number.
pub fn a_call_is_found_by_its_number()
    ensures found { (history : History) (number : ℕ) →
        is_open (suc number) history ≡ is_some (at (suc number) (theirs_of history).calls) }
    ensures cancelled { (history : History) (number : ℕ) (call : TheirCall) →
        at number (theirs_of history).calls ≡ Some call →
        call.is_cancelled ≡ is_cancelled number (stream history) }
{}

/// What each happening changes of the other side's calls that are open.
pub fn their_calls_follow_the_history()
    ensures came { (cancels : Option Cancels) (past : History) (origin : Option Origin) (unit : Unit) → IsLawful cancels past →
        theirs_of (came origin unit ∷ past)
        ≡ theirs_after_all (length (units_of past)) 0 (entries_in unit) (theirs_of past) }
    ensures called { (past : History) (number : ℕ) (outgoing : Outgoing) →
        theirs_of (called number outgoing ∷ past) ≡ theirs_of past }
    ensures called_all { (past : History) (number : ℕ) (outgoings : List Outgoing) →
        theirs_of (called_all number outgoings ∷ past) ≡ theirs_of past }
    ensures noticed { (past : History) (outgoing : Outgoing) →
        theirs_of (noticed outgoing ∷ past) ≡ theirs_of past }
    ensures withdrew { (past : History) (by : Cancels) (key : ℕ) →
        theirs_of (withdrew by key ∷ past) ≡ theirs_of past }
    ensures answered { (cancels : Option Cancels) (past : History) (number : ℕ) (answer : Option Answer) →
        IsLawful cancels (answered number answer ∷ past) →
        theirs_of (answered number answer ∷ past)
        ≡ record (theirs_of past) { calls = without number (theirs_of past).calls } }
    ensures ended { (past : History) (close : Close) →
        theirs_of (ended close ∷ past) ≡ theirs_of past }
{}

/// What a unit tells, entry by entry.
pub fn a_unit_tells_what_its_entries_do()
    ensures { (cancels : Option Cancels) (past : History) (origin : Option Origin) (unit : Unit) → IsLawful cancels past →
        events_at past (came origin unit) ≡ told_of_unit origin (own_of past) (theirs_of past) unit }
{}
