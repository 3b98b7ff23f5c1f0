//! What joined connections are to each other. The law is the contract of a function that does nothing but cite the one
//! that it stands on.

ghost use Rattle.connection.specs.Connections.{Connection};
ghost use Rattle.connection_history.specs.History.{History};
ghost use Rattle.call_laws.specs.Talks.{Talk, AreTalking};

use connection::two_connections_understand_each_other;

/// Two connections that are joined both ways, however far their bytes have come and wherever they are cut, talk: what
/// came to each is what the other had said by then.
pub fn joined_connections_talk()
    ensures { (first second : Connection) (ours theirs : History) → AreTalking first second ours theirs →
        Talk first.settings.order second.settings.order ours theirs }
{
    two_connections_understand_each_other();
}
