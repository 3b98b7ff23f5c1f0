//! The connection is asked for an event.
ghost use Rattle.std.specs.Prelude.{◌≡◌, None, IfOk, OnOk, OnErr};
ghost use Rattle.host_calls.specs.Outlets.{Fetched, Failed};

use crate::outlet::Outlet;
use connection::Event;
use std::alloc::AllocError;

impl Outlet {
    /// Takes the event that waits, or else the connection's next one.
    pub fn fetch(&mut self) -> Result<Option<Event>, AllocError>
        ensures ok { IfOk result (λ next. Fetched self.old (record self.new { next = next })) }
        ensures out { OnOk result (self.new.next ≡ None) }
        ensures err { OnErr result (Failed self.old self.new) }
    {
        // (mostly none waits, and then nothing is moved)
        if self.next.is_some() {
            Ok(self.next.take())
        } else {
            self.connection.next_event()
        }
    }
}
