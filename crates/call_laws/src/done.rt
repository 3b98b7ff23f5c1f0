//! Progress, as it can be said of a connection without threads. The law is the contract of a function that does
//! nothing but cite the one that it stands on.

ghost use Rattle.std.specs.Prelude.{List};
ghost use Rattle.connection.specs.Connections.{Connection, StandsAfter, IsDone};
ghost use Rattle.connection_history.specs.History.{History};
ghost use Rattle.connection_history.specs.declared.event.Event.{Event};
ghost use Rattle.call_laws.specs.Parts.{HasDoneItsPart};

use connection_history::each_call_is_told_once;

/// A host that does its part is done: where it has said how the input ended, has asked for events until there was
/// none, has closed each call that it was told, and has taken all bytes, the connection is done.
pub fn a_host_that_does_its_part_is_done()
    ensures { (connection : Connection) (history : History) (told : List Event) →
        StandsAfter connection history told → HasDoneItsPart connection history told →
        IsDone connection history told }
{
    each_call_is_told_once();
}
