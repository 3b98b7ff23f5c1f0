ghost use Rattle.std.specs.Prelude.{◌≡◌, false};

use crate::desk::Desk;
use connection_history::Close;

impl Desk {
    ghost use Rattle.connection_desk.specs.Desks.{after_end};

    /// The input is over, in this way. Takes no memory.
    pub fn end(&mut self, close: Close)
        requires { self.old.state.is_over ≡ false }
        ensures { self.new ≡ after_end close self.old }
    {
        let unanswered = self.own.take_waiting(self.alloc);
        self.events.end(unanswered, close);
        self.is_over = true;
    }
}
