ghost use Rattle.std.specs.Prelude.{◌≡◌, [], ◌+◌, None};

use crate::settings::Settings;
use connection_desk::Desk;
use connection_messages::UnitReader;
use content_streams::ContentStream;
use std::alloc::Global;
use std::marker::Model;

/// One end of a JSON-RPC conversation.
#[derive(Drop)]
pub struct Connection {
    pub(crate) alloc: Global,
    pub(crate) settings: Settings,
    pub(crate) stream: ContentStream,
    pub(crate) reader: UnitReader,
    pub(crate) desk: Desk,
}

impl Model for Connection {
    ghost use Rattle.std.specs.Prelude.{◌≡◌};
    ghost use Rattle.connection.specs.Connections.{Connection as Seen};
    ghost use Rattle.connection.specs.Settings.{rules_of};

    ghost Value = { Seen };

    ghost view = { λ c. record { settings = c.settings; stream = c.stream; desk = c.desk } };

    ghost invariant = { λ c. c.reader ≡ rules_of c.settings };
}

impl Connection {
    ghost use Rattle.connection.specs.Connections.{StandsAfter};

    /// A connection where nothing has happened, and to which nothing was fed. Takes no memory.
    pub fn new(alloc: Global, settings: Settings) -> Connection
        ensures settings { result.settings ≡ settings }
        ensures pieces { result.stream.pieces ≡ [] }
        ensures ended { result.stream.ended ≡ None }
        ensures stands { StandsAfter result [] [] }
    {
        let cancels = settings.cancels();
        Connection {
            alloc,
            stream: ContentStream::new(alloc, settings.framing(), settings.content()),
            reader: UnitReader::new(alloc, settings.rules()),
            desk: Desk::new(alloc, settings.framing(), settings.order(), cancels),
            settings,
        }
    }
}
