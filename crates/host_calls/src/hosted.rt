//! What lies behind a host's handle.
ghost use Rattle.std.specs.Prelude.{◌≡◌, []};

use crate::event::EventTexts;
use crate::outlet::Outlet;
use connection::Settings;
use std::alloc::Global;

/// A connection, and what is lent of it: the texts of the event that was told last, and what is to be written.
#[derive(Drop)]
pub struct HostedConnection {
    pub outlet: Outlet,
    /// The texts of the event that was told last.
    pub texts: EventTexts,
    /// What the connection gave to be written.
    pub output: Vec<u8>,
    /// How many of its first bytes have gone.
    pub gone: usize,
}

impl HostedConnection {
    ghost use Rattle.host_calls.specs.Hosting.{IsFresh};

    /// With a connection where nothing has happened, and to which nothing was fed. Nothing is lent.
    pub fn new(alloc: Global, settings: Settings) -> HostedConnection
        ensures { IsFresh settings result }
    {
        HostedConnection {
            outlet: Outlet::new(alloc, settings),
            texts: EventTexts::none(alloc),
            output: Vec::new(alloc),
            gone: 0,
        }
    }
}
