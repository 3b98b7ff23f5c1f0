//! What is to be written comes out.

ghost use Rattle.std.specs.Prelude.{◌≡◌, ◌≢◌, ◌≤◌, ◌↔◌, [], IsTrue, List, length};
ghost use Rattle.content_streams.specs.declared.framing.Framing.TheVariants.{Contents};
ghost use Rattle.connection_history.specs.declared.event.Event.{Event};
ghost use Rattle.connection_history.specs.History.{History};

use crate::connection::Connection;
use content_streams::Framing;

impl Connection {
    ghost use Rattle.outbox.specs.Output.{IsAllTaken, given_of, next_of, after_take};
    ghost use Rattle.connection.specs.Connections.{IsDone, StandsAfter, output, with_output};

    /// How many bytes are to be taken; in Contents the length of the next text, and 0 where there is none. Takes no memory.
    pub fn pending(&self) -> usize
        ensures { result ≡ length (next_of (output self.now)) }
    {
        self.desk.pending()
    }

    /// For how many bytes its buffers have room, or the greatest number: for what is to be taken, and for the next text
    /// that is written; in Contents each text that is to be taken has memory of its own. Once all was taken it is at most
    /// 73,728, whatever was written before. What is open, waits or isn't told yet has memory of its own, and so has what
    /// came and isn't whole or isn't handled. Takes no memory.
    pub fn held(&self) -> usize
        ensures all { (output self.now).framing ≢ Contents → length (next_of (output self.now)) ≤ result }
        ensures little { IsAllTaken (output self.now) → result ≤ 73728 }
    {
        self.desk.held()
    }

    /// Moves what is to be written next to this block, in place of what that had: the first bytes, none only where there
    /// are none; in Contents the next text. No byte is copied. Takes no memory.
    pub fn take(&mut self, block: &mut Vec<u8>)
        ensures block { block.new.items ≡ given_of (output self.old) (length block.new.items) }
        ensures state { self.new ≡ with_output self.old (after_take (length block.new.items) (output self.old)) }
        ensures none { block.new.items ≡ [] → next_of (output self.old) ≡ [] }
        ensures stands { (history : History) (told : List Event) →
            StandsAfter self.old history told → StandsAfter self.new history told }
    {
        self.desk.take(block)
    }

    /// How messages are framed.
    pub fn framing(&self) -> Framing
        ensures { result ≡ self.now.settings.framing }
    {
        self.settings.framing()
    }

    /// Whether the input is over, all is told and taken, and no call is open.
    pub fn is_done(&self) -> bool
        ensures { (history : History) (told : List Event) →
            StandsAfter self.now history told → (IsTrue result ↔ IsDone self.now history told) }
    {
        self.desk.is_done()
    }
}
