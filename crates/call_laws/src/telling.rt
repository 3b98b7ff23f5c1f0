//! A host that asks for the next event, as the laws on events have it.

ghost use Rattle.std.specs.Prelude.{◌≡◌, ◌++◌, List, None, IfOk, OnErr, option_to_list};
ghost use Rattle.connection.specs.Connections.{IsStill, StandsAfter};
ghost use Rattle.connection_history.specs.History.{History};
ghost use Rattle.connection_history.specs.declared.event.Event.{Event as Told};
ghost use Rattle.call_laws.specs.Asking.{HasAsked};

use connection::{Connection, Event};
use std::alloc::AllocError;

/// Asks for the next event. Whatever the answer is, it is as the laws on events have it: so they speak of `next_event`.
pub fn ask(connection: &mut Connection) -> Result<Option<Event>, AllocError>
    ensures asked { (history : History) (told : List Told) → StandsAfter connection.old history told →
        IfOk result (λ next. (now : History) × HasAsked connection.old connection.new history now told
        (told ++ option_to_list next)) }
    ensures none { (history : History) (told : List Told) → StandsAfter connection.old history told →
        IfOk result (λ next. next ≡ None → (now : History)
        × HasAsked connection.old connection.new history now told told × IsStill connection.new now told) }
    ensures refused { (history : History) (told : List Told) → StandsAfter connection.old history told →
        OnErr result ((now : History) × HasAsked connection.old connection.new history now told told) }
{
    connection.next_event()
}
