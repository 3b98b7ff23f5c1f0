//! The host asks for events, whose texts are lent.

ghost use Rattle.std.specs.Prelude.{◌≡◌, []};
ghost use Rattle.host_calls.specs.Hosting.{Asked, SameOutput};

use crate::code::Why;
use crate::head::{LentEvent, NO_HEAD};
use crate::hosted::HostedConnection;
use crate::id::{empty, put_id};
use connection::Refused;
use std::mem;

impl HostedConnection {
    /// Tells the next event, where there is one, and lends its texts. Those of the event before it have gone then.
    pub fn tell(&mut self, event: &mut LentEvent) -> Result<(), Why>
        ensures { Asked self.old self.new event.old event.new result }
    {
        self.give_rooms_back();
        let Some(next) = self.outlet.fetch()? else {
            empty(self.outlet.alloc, &mut self.texts.id);
            *event = LentEvent::new(NO_HEAD, &self.texts);
            return Ok(());
        };
        match put_id(self.outlet.alloc, &next, &mut self.texts.id) {
            Ok(()) => {
                let head = self.texts.take_from(self.outlet.alloc, next);
                *event = LentEvent::new(head, &self.texts);
                Ok(())
            }
            Err(_) => {
                self.outlet.next = Some(next);
                Err(Why::Refused(Refused::Memory))
            }
        }
    }

    /// Gives the rooms of the name and the text that were told last back to the connection, which reads the next content into
    /// them.
    fn give_rooms_back(&mut self)
        ensures outlet { self.new.outlet ≡ self.old.outlet }
        ensures output { SameOutput self.old self.new }
        ensures name { self.new.texts.name.items ≡ [] }
        ensures text { self.new.texts.text.items ≡ [] }
    {
        let name = mem::replace(&mut self.texts.name, Vec::new(self.outlet.alloc));
        let text = mem::replace(&mut self.texts.text, Vec::new(self.outlet.alloc));
        self.outlet.connection.keep_rooms(name, text);
    }
}
