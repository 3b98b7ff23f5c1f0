//! How an outgoing request ends. The law is the contract of a function that does nothing but cite the one that it
//! stands on.

ghost use Rattle.std.specs.Prelude.{◌≡◌, ◌⊎◌, ℕ, [], Option, Some, true, false};
ghost use Rattle.connection_messages.specs.declared.cancels.Cancels.{Cancels};
ghost use Rattle.connection_history.specs.Events.{events_of};
ghost use Rattle.connection_history.specs.History.{History, caller_of, is_over, is_waiting};
ghost use Rattle.connection_history.specs.Refusals.{IsLawful};
ghost use Rattle.connection_history.specs.Told.{replies_told, unanswered_told};
ghost use Rattle.call_laws.specs.Endings.{Ending, IsEnded, replies_of, unanswered_of};

use connection_history::a_reply_is_told_once;

/// Each request that was made waits for its response, or has ended in exactly one way: its response came, the input
/// ended, its host gave it up by MCP's cancel, or its host answered the call on whose behalf it was made. While it
/// waits nothing is told of it. Where its response came, that is told, once; where the input ended, that it has none,
/// once; and else nothing, whatever comes later. Once the input is over each has ended.
pub fn each_request_ends_in_one_way()
    ensures ends { (cancels : Option Cancels) (history : History) (key caller : ℕ) → IsLawful cancels history →
        caller_of key history ≡ Some caller →
        (is_waiting key history ≡ true) ⊎ ((ending : Ending) × IsEnded key history ending) }
    ensures over { (cancels : Option Cancels) (history : History) (key caller : ℕ) → IsLawful cancels history →
        caller_of key history ≡ Some caller → is_over history ≡ true →
        (ending : Ending) × IsEnded key history ending }
    ensures not_both { (cancels : Option Cancels) (history : History) (key : ℕ) (ending : Ending) →
        IsLawful cancels history → IsEnded key history ending → is_waiting key history ≡ false }
    ensures one { (cancels : Option Cancels) (history : History) (key : ℕ) (ending other : Ending) →
        IsLawful cancels history → IsEnded key history ending → IsEnded key history other → ending ≡ other }
    ensures untold { (history : History) (key : ℕ) → is_waiting key history ≡ true →
        (replies_told key (events_of history) ≡ []) × (unanswered_told key (events_of history) ≡ 0) }
    ensures told { (cancels : Option Cancels) (history : History) (key : ℕ) (ending : Ending) →
        IsLawful cancels history → IsEnded key history ending →
        (replies_told key (events_of history) ≡ replies_of ending)
        × (unanswered_told key (events_of history) ≡ unanswered_of ending) }
{
    a_reply_is_told_once();
}
