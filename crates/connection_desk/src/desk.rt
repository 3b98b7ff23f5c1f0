ghost use Rattle.std.specs.Vec.{vec_capacity};
ghost use Rattle.content_streams.specs.declared.framing.Framing.TheVariants.{Contents};
ghost use Rattle.std.specs.Prelude.{◌≡◌, ◌≢◌, ◌≤◌, ◌++◌, ◌∷◌, [], false, length, None, Some, is_some, option_to_list, option_map, OnOk, OnErr};

use crate::events::Events;
use crate::tally::Tally;
use connection_history::{Event, Order};
use connection_messages::Cancels;
use content_streams::Framing;
use open_calls::{OwnCalls, TheirCalls};
use outbox::Outbox;
use owed_answers::OwedAnswers;
use std::alloc::{AllocError, Global};
use std::marker::Model;
use std::mem;

/// The room of a text that was written is kept for the next, where it is at most this large: most texts fit in, and a
/// connection that has written a large one isn't large for ever.
const KEPT_ROOM: usize = 65_536;

/// What stands open between a connection and its host, what the host hasn't been told yet, and what it hasn't taken yet.
#[derive(Drop)]
pub struct Desk {
    pub(crate) alloc: Global,
    /// Whose cancels withdraw our calls, if any.
    pub(crate) cancels: Option<Cancels>,
    /// When a unit's answer goes out.
    pub(crate) order: Order,
    /// Our calls that wait for a reply.
    pub(crate) own: OwnCalls,
    /// The other side's calls that are open.
    pub(crate) theirs: TheirCalls,
    /// The answers that aren't out. `IsDesk` holds at each call: what can go out is out.
    pub(crate) owed: OwedAnswers,
    /// Whether the input is over. Until then, as `IsDesk` says, the events have no end.
    pub(crate) is_over: bool,
    /// What the host hasn't been told yet.
    pub(crate) events: Events,
    /// What was written, and the host hasn't taken yet.
    pub(crate) outbox: Outbox,
    /// How often some things have happened.
    pub(crate) tally: Tally,
    /// Room for the next text, at most `KEPT_ROOM` as `IsDesk` says. What is in it has no meaning.
    pub(crate) room: Vec<u8>,
}

impl Model for Desk {
    ghost use Rattle.connection_desk.specs.Desks.{Desk as State};
    ghost use Rattle.connection_desk.specs.Inner.{IsDesk, untold_of};

    ghost Value = { State };

    ghost view = { λ d. record {
      cancels = d.cancels;
      order = d.order;
      state = record { own = d.own; theirs = d.theirs; owed = d.owed; is_over = d.is_over };
      untold = untold_of d.events;
      out = d.outbox;
      tally = d.tally;
    } };

    ghost invariant = { λ d. IsDesk d.order d.owed.owed d.is_over d.events d.room };
}

impl Desk {
    ghost use Rattle.connection_steps.specs.Initial.{initial};
    ghost use Rattle.connection_steps.specs.Tallies.{no_counts};
    ghost use Rattle.connection_desk.specs.Desks.{after_saying, capped_tally, IsDone};
    ghost use Rattle.open_calls.specs.Numbered.{at};
    ghost use Rattle.outbox.specs.Output.{IsAllTaken, after_take, given_of, next_of};
    ghost use Rattle.std.specs.Prelude.{IsTrue, ◌↔◌};

    /// A desk where nothing has happened. Calls can be withdrawn by these cancels, where there are any. Takes no memory.
    pub fn new(alloc: Global, framing: Framing, order: Order, cancels: Option<Cancels>) -> Desk
        ensures { result ≡ record {
          cancels = cancels;
          order = order;
          state = initial;
          untold = [];
          out = record { framing = framing; written = []; taken = 0 };
          tally = capped_tally no_counts;
        } }
    {
        Desk {
            alloc,
            cancels,
            order,
            own: OwnCalls::new(alloc),
            theirs: TheirCalls::new(alloc),
            owed: OwedAnswers::new(alloc),
            is_over: false,
            events: Events::new(alloc),
            outbox: Outbox::new(alloc, framing),
            tally: Tally::NONE,
            room: Vec::new(alloc),
        }
    }

    /// Whether the input is over.
    pub fn is_over(&self) -> bool
        ensures { result ≡ self.now.state.is_over }
    {
        self.is_over
    }

    /// How many calls have come.
    pub fn came(&self) -> u64
        ensures { result ≡ self.now.state.theirs.came }
    {
        self.theirs.came()
    }

    /// How many calls of the other side are open.
    pub fn open(&self) -> u64
        ensures { result ≡ length self.now.state.theirs.calls }
    {
        self.theirs.len()
    }

    /// How many calls of ours wait for a reply.
    pub fn waiting(&self) -> u64
        ensures { result ≡ length self.now.state.own.waiting }
    {
        self.own.len()
    }

    /// How many calls of ours were made.
    pub fn made(&self) -> u64
        ensures { result ≡ self.now.state.own.made }
    {
        self.own.made()
    }

    /// How often some things have happened.
    pub fn tally(&self) -> Tally
        ensures { result ≡ self.now.tally }
    {
        self.tally
    }

    /// Whether this call is a request. There is none where it isn't open.
    pub fn is_request(&self, number: u64) -> Option<bool>
        ensures { result ≡ option_map (λ call. is_some call.id) (at number self.now.state.theirs.calls) }
    {
        match self.theirs.get(number) {
            Some(call) => Some(call.id.is_some()),
            None => None,
        }
    }

    /// The next event that the host hasn't been told.
    pub fn next_event(&mut self) -> Option<Event>
        ensures told { self.old ≡ record self.new {
          untold = option_to_list result ++ self.new.untold;
        } }
        ensures none { result ≡ None → self.new.untold ≡ [] }
    {
        self.events.next()
    }

    /// How many bytes are to be taken; in Contents the length of the next text.
    pub fn pending(&self) -> usize
        ensures { result ≡ length (next_of self.now.out) }
    {
        self.outbox.pending()
    }

    /// For how many bytes there is room, or the greatest number: for the next text, and in Frames and Lines for what is to
    /// be taken. In Contents each text has memory of its own, which isn't counted. Where all was taken it is little,
    /// whatever was written.
    pub fn held(&self) -> usize
        ensures all { self.now.out.framing ≢ Contents → length (next_of self.now.out) ≤ result }
        ensures little { IsAllTaken self.now.out → result ≤ 73728 }
    {
        self.outbox.room().saturating_add(self.room.capacity())
    }

    /// Moves what is to be written next to this block, in place of what that had: the first bytes, none only where there
    /// are none; in Contents the next text. Takes no memory.
    pub fn take(&mut self, block: &mut Vec<u8>)
        ensures block { block.new.items ≡ given_of self.old.out (length block.new.items) }
        ensures state { self.new ≡ record self.old {
          out = after_take (length block.new.items) self.old.out;
        } }
        ensures none { block.new.items ≡ [] → next_of self.old.out ≡ [] }
    {
        self.outbox.take(block)
    }

    /// Whether the input is over, all is told and taken, and no call is open.
    pub fn is_done(&self) -> bool
        ensures { IsTrue result ↔ IsDone self.now }
    {
        self.is_over && self.events.is_empty() && self.theirs.len() == 0 && self.outbox.is_empty()
    }

    /// Room for a text, without bytes.
    pub(crate) fn take_room(&mut self) -> Vec<u8>
        ensures room { result.items ≡ [] }
        ensures state { self.new ≡ self.old }
    {
        emptied(self.alloc, &mut self.room)
    }

    /// Keeps the room of a text for the next.
    pub(crate) fn keep_room(&mut self, room: Vec<u8>)
        ensures { self.new ≡ self.old }
    {
        if room.capacity() <= KEPT_ROOM {
            self.room = room;
        }
    }

    /// Writes a text. A long one is moved, and not copied.
    pub(crate) fn write(&mut self, mut text: Vec<u8>) -> Result<(), AllocError>
        ensures ok { OnOk result (self.new ≡ after_saying (text.items ∷ []) self.old) }
        ensures err { OnErr result (self.new ≡ self.old) }
    {
        self.outbox.put_from(&mut text)?;
        self.keep_room(text);
        Ok(())
    }
}

/// Lets go of the room of a large text.
pub(crate) fn let_go(alloc: Global, room: &mut Vec<u8>)
    ensures { vec_capacity room.new ≤ 65536 }
{
    if room.capacity() > KEPT_ROOM {
        *room = Vec::new(alloc);
    }
}

/// The room without bytes. None is left in its place.
pub(crate) fn emptied(alloc: Global, room: &mut Vec<u8>) -> Vec<u8>
    ensures room { result.items ≡ [] }
    ensures left { vec_capacity room.old ≤ 65536 → vec_capacity room.new ≤ 65536 }
{
    let mut emptied = mem::replace(room, Vec::new(alloc));
    emptied.clear();
    emptied
}
