//! Our calls that wait. Each law is the contract of a function that does nothing.

ghost use Rattle.std.specs.Prelude.{◌≡◌, Option, ℕ, List, [], ◌∷◌, Bool, true, map, filter, length, Some, is_some, option_map};
ghost use Rattle.connection_messages.specs.declared.answer.Answer.{Answer};
ghost use Rattle.connection_messages.specs.declared.cancels.Cancels.{Cancels};
ghost use Rattle.connection_messages.specs.declared.outgoing.Outgoing.{Outgoing};
ghost use Rattle.connection_messages.specs.declared.unit.Unit.{Unit};
ghost use Rattle.connection_history.specs.declared.close.Close.{Close};
ghost use Rattle.connection_history.specs.Stream.{entries_in};
ghost use Rattle.connection_history.specs.History.{Origin, came, called, called_all, noticed, withdrew, answered, ended, History, is_waiting, is_withdrawn, caller_of};
ghost use Rattle.connection_history.specs.Refusals.{IsLawful, withdrawable};
ghost use Rattle.connection_history.specs.Events.{events_at};
ghost use Rattle.open_calls.specs.Numbered.{at};
ghost use Rattle.open_calls.specs.Own.{is_wanted_by, without_caller};
ghost use Rattle.connection_steps.specs.Initial.{initial};
ghost use Rattle.connection_steps.specs.States.{own_of};
ghost use Rattle.connection_steps.specs.Steps.{own_after_all, own_with, withdrawn_by, told_at_end};

/// At first none waits.
pub fn no_call_of_ours_waits_at_first()
    ensures { own_of [] ≡ initial.own }
{}

/// Whether a call of ours waits, and on whose behalf, is looked up by its key.
pub fn a_call_of_ours_is_found_by_its_key()
    ensures waiting { (history : History) (key : ℕ) →
        is_waiting key history ≡ is_some (at key (own_of history).waiting) }
    ensures caller { (history : History) (key : ℕ) → is_waiting key history ≡ true →
        option_map (λ call. call.caller) (at key (own_of history).waiting) ≡ caller_of key history }
    ensures withdrawn { (history : History) (key : ℕ) → is_waiting key history ≡ true →
        option_map (λ call. call.is_withdrawn) (at key (own_of history).waiting)
        ≡ Some (is_withdrawn key history) }
    ensures withdrawable { (history : History) (number : ℕ) →
        withdrawable number history
        ≡ map (λ e. e.0) (filter (λ e. is_wanted_by number e.1) (own_of history).waiting) }
{}

/// What each happening changes of our calls that wait.
pub fn our_calls_follow_the_history()
    ensures came { (cancels : Option Cancels) (past : History) (origin : Option Origin) (unit : Unit) → IsLawful cancels past →
        own_of (came origin unit ∷ past) ≡ own_after_all (entries_in unit) (own_of past) }
    ensures called { (cancels : Option Cancels) (past : History) (number : ℕ) (outgoing : Outgoing) →
        IsLawful cancels (called number outgoing ∷ past) →
        own_of (called number outgoing ∷ past) ≡ own_with number 1 (own_of past) }
    ensures called_all { (cancels : Option Cancels) (past : History) (number : ℕ) (outgoings : List Outgoing) →
        IsLawful cancels (called_all number outgoings ∷ past) →
        own_of (called_all number outgoings ∷ past) ≡ own_with number (length outgoings) (own_of past) }
    ensures noticed { (past : History) (outgoing : Outgoing) →
        own_of (noticed outgoing ∷ past) ≡ own_of past }
    ensures withdrew { (past : History) (by : Cancels) (key : ℕ) →
        own_of (withdrew by key ∷ past)
        ≡ record (own_of past) { waiting = withdrawn_by by key (own_of past).waiting } }
    ensures answered { (cancels : Option Cancels) (past : History) (number : ℕ) (answer : Option Answer) →
        IsLawful cancels (answered number answer ∷ past) →
        own_of (answered number answer ∷ past)
        ≡ record (own_of past) { waiting = without_caller number (own_of past).waiting } }
    ensures ended { (past : History) (close : Close) →
        own_of (ended close ∷ past) ≡ record (own_of past) { waiting = [] } }
{}

/// At the end, each call that waits is told to have no reply.
pub fn calls_that_wait_are_told_at_the_end()
    ensures { (past : History) (close : Close) →
        events_at past (ended close) ≡ told_at_end close (own_of past) }
{}
