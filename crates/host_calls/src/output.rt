//! What is to be written is lent, and the host says how much of it has gone.

ghost use Rattle.std.specs.Prelude.{◌≡◌, ◌≢◌, ◌↔◌, ◌≤◌, ◌+◌, List, IsTrue, length, drop};
ghost use Rattle.content_streams.specs.declared.framing.Framing.TheVariants.{Contents};
ghost use Rattle.connection_history.specs.declared.event.Event.{Event};
ghost use Rattle.connection_history.specs.History.{History};
ghost use Rattle.connection.specs.Connections.{StandsAfter, output};
ghost use Rattle.outbox.specs.Output.{IsAllTaken};
ghost use Rattle.host_calls.specs.Hosting.{HasGone, HasLent, IsDone, SameTexts, in_contents, left, lent_room, output_at, pending};

use crate::code::Why;
use crate::hosted::HostedConnection;
use crate::place::place_of;
use connection::Framing;

/// Room for so many bytes is kept, however few are written.
const KEPT_ROOM: usize = 4096;

/// The room of so many bytes at most serves for what is sent next. Such rooms are kept in three places in turn, so each is
/// small.
const SERVES_AGAIN: usize = 256;

impl HostedConnection {
    /// Lends what is to be written, and says where it begins and how many bytes it has: what is left of what was lent
    /// before, or else the connection's next bytes.
    pub fn lend(&mut self, at: &mut *const u8) -> usize
        ensures at { at.new ≡ output_at self.new }
        ensures lent { HasLent self.old self.new result }
    {
        if self.left() == 0 {
            if self.output.capacity() > SERVES_AGAIN {
                self.output = Vec::new(self.outlet.alloc);
            }
            self.outlet.connection.take(&mut self.output);
            self.gone = 0;
        }
        *at = place_of(&self.output, self.gone);
        self.left()
    }

    /// So many of the lent bytes were written. In Contents a text goes as a whole.
    pub fn written(&mut self, count: usize) -> Result<(), Why>
        ensures { HasGone self.old self.new count result }
    {
        let left = self.left();
        if count > left || (self.in_contents() && 0 < count && count < left) {
            return Err(Why::Settings);
        }
        self.gone += count;
        self.close_up();
        Ok(())
    }

    /// Lets go of the bytes that went, once they are no fewer than those that are left, and of memory. So each byte is
    /// moved a constant number of times on average, and a host that leaves a byte doesn't make a large block stay.
    fn close_up(&mut self)
        ensures left { left self.new ≡ left self.old }
        ensures texts { SameTexts self.old self.new }
        ensures outlet { self.new.outlet ≡ self.old.outlet }
    {
        if self.gone < self.left() || self.gone > self.output.len() {
            return;
        }
        move_to_front(&mut self.output, self.gone);
        self.gone = 0;
        give_room_back(&mut self.output);
    }

    /// How many bytes are lent that haven't gone.
    fn left(&self) -> usize
        ensures { result ≡ length (left self.now) }
    {
        self.output.len().saturating_sub(self.gone)
    }

    fn in_contents(&self) -> bool
        ensures { result ≡ in_contents self.now }
    {
        match self.outlet.connection.framing() {
            Framing::Frames | Framing::Lines => false,
            Framing::Contents => true,
        }
    }

    /// How many bytes are to be written, lent or not, or the greatest number; in Contents, those of the next text.
    pub fn pending(&self) -> usize
        ensures { result ≡ pending self.now }
    {
        let left = self.left();
        if self.in_contents() && 0 < left {
            return left;
        }
        left.saturating_add(self.outlet.connection.pending())
    }

    /// For how many bytes its buffers have room, or the greatest number: what is to be written, lent or not, the texts of
    /// the event that was told last, and the next text that is written. Of what isn't lent it is little once all was
    /// taken; in Contents each text that waits has memory of its own.
    pub fn held(&self) -> usize
        ensures all { (output self.now.outlet.connection).framing ≢ Contents → pending self.now ≤ result }
        ensures little { IsAllTaken (output self.now.outlet.connection) → result ≤ 73728 + lent_room self.now }
    {
        let texts = &self.texts;
        self.outlet
            .connection
            .held()
            .saturating_add(self.output.capacity())
            .saturating_add(texts.name.capacity())
            .saturating_add(texts.text.capacity())
            .saturating_add(texts.id.capacity())
    }

    /// Whether all is done: told, answered and written.
    pub fn is_done(&self) -> bool
        ensures { (history : History) (told : List Event) → StandsAfter self.now.outlet.connection history told →
            (IsTrue result ↔ IsDone self.now history told) }
    {
        self.outlet.next.is_none() && self.left() == 0 && self.outlet.connection.is_done()
    }
}

/// Keeps the bytes from this place on.
fn move_to_front(bytes: &mut Vec<u8>, start: usize)
    requires start { start ≤ length bytes.old.items }
    requires few { length bytes.old.items ≤ start + start }
    ensures { bytes.new.items ≡ drop start bytes.old.items }
{
    let left = bytes.len() - start;
    let (front, back) = bytes.as_mut_slice().split_at_mut(start);
    front[..left].copy_from_slice(back);
    bytes.truncate(left);
}

/// Gives memory back where less than a quarter is in use. What is left stays where it is if no smaller memory is to be had.
fn give_room_back(bytes: &mut Vec<u8>)
    ensures { bytes.new.items ≡ bytes.old.items }
{
    let room = bytes.capacity();
    if room > KEPT_ROOM && room / 4 > bytes.len() {
        bytes.shrink_to((2 * bytes.len()).max(KEPT_ROOM));
    }
}
