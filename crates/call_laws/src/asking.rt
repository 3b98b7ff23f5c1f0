//! The events of what was fed come to an end. Each law is the contract of a function that does nothing but cite the one
//! that it stands on.

ghost use Rattle.std.specs.Prelude.{◌≡◌, ◌∷◌, ◌++◌, ◌<◌, ◌≤◌, ◌-◌, [], ℕ, List, length};
ghost use Rattle.connection.specs.Connections.{Connection, IsStill, StandsAfter};
ghost use Rattle.connection_history.specs.History.{History};
ghost use Rattle.connection_history.specs.declared.event.Event.{Event};
ghost use Rattle.call_laws.specs.Asking.{Asks, HasAsked, all_events};

use content_streams::placed_contents_are_the_contents;

/// Each call of `next_event` takes one off: the bytes that were fed have a list of events, which stays the same while a
/// host asks. A call tells the next of them, and one that says that there is none has told them all before.
pub fn each_call_takes_an_event_off()
    ensures same { (before after : Connection) (past now : History) (told since : List Event) →
        HasAsked before after past now told since → all_events after now ≡ all_events before past }
    ensures told { (before after : Connection) (past now : History) (told : List Event) (event : Event) →
        HasAsked before after past now told (told ++ event ∷ []) →
        (rest : List Event) × (all_events before past ≡ told ++ event ∷ rest) }
    ensures fewer { (before after : Connection) (past now : History) (told : List Event) (event : Event) →
        HasAsked before after past now told (told ++ event ∷ []) →
        length (all_events after now) - length (told ++ event ∷ [])
        < length (all_events before past) - length told }
    ensures none { (before after : Connection) (past now : History) (told : List Event) →
        HasAsked before after past now told told → IsStill after now told →
        all_events before past ≡ told }
{
    placed_contents_are_the_contents();
}

/// However often a host asks, it is told at most the events of the bytes that were fed, in their order.
pub fn given_bytes_have_so_many_events()
    ensures front { (first last : Connection) (past now : History) (told heard : List Event) →
        StandsAfter first past told → Asks first past told last now heard →
        (rest : List Event) × (all_events first past ≡ heard ++ rest) }
    ensures most { (first last : Connection) (past now : History) (told heard : List Event) →
        StandsAfter first past told → Asks first past told last now heard →
        length heard ≤ length (all_events first past) }
{
    placed_contents_are_the_contents();
}
