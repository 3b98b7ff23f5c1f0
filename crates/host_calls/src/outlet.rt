//! What lies behind a host's handle.
ghost use Rattle.std.specs.Prelude.{◌≡◌, [], None};
ghost use Rattle.connection.specs.Connections.{StandsAfter};

use connection::{Connection, Event, Settings};
use json_texts::TextReader;
use std::alloc::Global;

/// A connection, and the event that it has told and that the host hasn't got yet.
#[derive(Drop)]
pub struct Outlet {
    /// Where events' ids and what the host passes are made.
    pub alloc: Global,
    pub connection: Connection,
    /// An event that the connection has told and that the host hasn't got yet.
    pub next: Option<Event>,
    /// The room in which the host's texts are read.
    pub reader: TextReader,
}

impl Outlet {
    /// With a connection where nothing has happened, and to which nothing was fed.
    pub fn new(alloc: Global, settings: Settings) -> Outlet
        ensures settings { result.connection.settings ≡ settings }
        ensures none { result.next ≡ None }
        ensures pieces { result.connection.stream.pieces ≡ [] }
        ensures ended { result.connection.stream.ended ≡ None }
        ensures stands { StandsAfter result.connection [] [] }
    {
        Outlet {
            alloc,
            connection: Connection::new(alloc, settings),
            next: None,
            reader: TextReader::new(alloc),
        }
    }
}
