//! What the report's figures say of each other. The law is the contract of a function that does nothing.

ghost use Rattle.std.specs.Prelude.{◌≡◌, ◌+◌, List};
ghost use Rattle.connection.specs.Connections.{Connection, StandsAfter};
ghost use Rattle.connection.specs.Reports.{report_of};
ghost use Rattle.connection_history.specs.History.{History};
ghost use Rattle.connection_history.specs.declared.event.Event.{Event};
ghost use Rattle.call_laws.specs.Figures.{closed_count};

/// What is open is what came and wasn't closed: the calls that came, by the report, are those that are open and those
/// that the host has closed, each once.
pub fn what_is_open_came_and_was_not_closed()
    ensures { (connection : Connection) (history : History) (told : List Event) →
        StandsAfter connection history told →
        (report_of connection.settings.order history).«open» + closed_count history
        ≡ (report_of connection.settings.order history).calls }
{}
