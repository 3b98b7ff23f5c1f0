ghost use Rattle.std.specs.Prelude.{◌≡◌, ◌≢◌, ◌↔◌, ◌≤◌, ◌++◌, ◌∷◌, [], length, IsTrue, OnOk, OnErr, IfOk};

use crate::bytes_left::{BytesLeft, MOST_COPIED};
use crate::mark::Mark;
use content_streams::Framing;
use ghost_log::GhostLog;
use json_values::Items;
use std::alloc::{AllocError, Global};
use std::collections::VecDeque;
use std::marker::Model;
use std::mem;

/// Room for so many texts is kept, however few are left.
const KEPT_TEXTS: usize = 64;

/// What a connection has written, and its host hasn't taken yet.
#[derive(Drop)]
pub struct Outbox {
    alloc: Global,
    framing: Framing,
    /// In Frames and Lines, what isn't taken.
    bytes: BytesLeft,
    /// In Contents, the texts that aren't taken, each by itself.
    texts: VecDeque<Items<u8>>,
    log: GhostLog,
}

impl Model for Outbox {
    ghost use Rattle.outbox.specs.Output.{Output};

    ghost Value = { Output };

    ghost use Rattle.outbox.specs.Inner.{IsKept};

    ghost view = { λ a. record {
      framing = a.framing;
      written = a.log.texts;
      taken = a.log.taken;
    } };

    ghost invariant = { λ a.
        IsKept a.framing a.log.texts a.log.taken a.bytes a.texts.items };
}

impl Outbox {
    ghost use Rattle.outbox.specs.Output.{IsAllTaken, OnlyPutSince, after_take, full_count, given_of, next_of, with_text};

    /// Takes no memory.
    pub fn new(alloc: Global, framing: Framing) -> Outbox
        ensures { result ≡ record { framing = framing; written = []; taken = 0 } }
    {
        Outbox {
            alloc,
            framing,
            bytes: BytesLeft::new(alloc),
            texts: VecDeque::new(alloc),
            log: GhostLog::new(),
        }
    }

    /// Writes a text.
    pub fn put(&mut self, text: &[u8]) -> Result<(), AllocError>
        ensures ok { OnOk result (self.new ≡ with_text text.now self.old) }
        ensures err { OnErr result (self.new ≡ self.old) }
    {
        match self.framing {
            Framing::Frames | Framing::Lines => self.put_in_stream(text),
            Framing::Contents => self.put_alone(copy_of(self.alloc, text)?),
        }
    }

    fn put_in_stream(&mut self, text: &[u8]) -> Result<(), AllocError>
        requires { self.old.framing ≢ Framing.Contents }
        ensures ok { OnOk result (self.new ≡ with_text text.now self.old) }
        ensures err { OnErr result (self.new ≡ self.old) }
    {
        self.bytes.put(self.framing, text)?;
        self.log = self.log.with_text(text);
        Ok(())
    }

    fn put_alone(&mut self, text: Vec<u8>) -> Result<(), AllocError>
        requires { self.old.framing ≡ Framing.Contents }
        ensures ok { OnOk result (self.new ≡ with_text text.items self.old) }
        ensures err { OnErr result (self.new ≡ self.old) }
    {
        let log = self.log.with_text(text.as_slice());
        put_behind(&mut self.texts, text)?;
        self.log = log;
        Ok(())
    }

    /// Writes the text in this room. What is in the room then has no meaning. A long text is moved, and not copied, unless
    /// another that was moved is still behind others.
    pub fn put_from(&mut self, room: &mut Vec<u8>) -> Result<(), AllocError>
        ensures ok { OnOk result (self.new ≡ with_text room.old.items self.old) }
        ensures err { OnErr result (self.new ≡ self.old) }
    {
        match self.framing {
            Framing::Frames | Framing::Lines => self.move_to_stream(room),
            Framing::Contents => self.move_alone(room),
        }
    }

    /// It is no part of its caller: there the block that it makes would cost each put in a stream some steps.
    #[inline(never)]
    fn move_alone(&mut self, room: &mut Vec<u8>) -> Result<(), AllocError>
        requires { self.old.framing ≡ Framing.Contents }
        ensures ok { OnOk result (self.new ≡ with_text room.old.items self.old) }
        ensures err { OnErr result (self.new ≡ self.old) }
    {
        self.put_alone(own_of(self.alloc, room)?)
    }

    fn move_to_stream(&mut self, room: &mut Vec<u8>) -> Result<(), AllocError>
        requires { self.old.framing ≢ Framing.Contents }
        ensures ok { OnOk result (self.new ≡ with_text room.old.items self.old) }
        ensures err { OnErr result (self.new ≡ self.old) }
    {
        let log = self.log.with_text(room.as_slice());
        self.bytes.put_from(self.framing, room)?;
        self.log = log;
        Ok(())
    }

    /// Where the outbox stands, for `back_to`. Takes no memory.
    pub fn mark(&self) -> Mark
        ensures { result ≡ self.now }
    {
        Mark {
            framing: self.framing,
            byte_count: self.bytes.len(),
            text_count: self.texts.len(),
            log: self.log.again(),
        }
    }

    /// The texts that were put since the mark are as if they had never been put. Takes no memory.
    pub fn back_to(&mut self, mark: Mark)
        requires { OnlyPutSince mark self.old }
        ensures { self.new ≡ mark }
    {
        self.bytes.truncate(mark.byte_count);
        self.texts.truncate(mark.text_count);
        give_room_back(&mut self.texts);
        self.log = mark.log;
    }

    /// How many bytes are to be taken; in Contents the length of the next text, and 0 where there is none.
    pub fn pending(&self) -> usize
        ensures count { result ≡ length (next_of self.now) }
        ensures within { self.now.taken ≤ full_count self.now.framing self.now.written }
    {
        match self.framing {
            Framing::Frames | Framing::Lines => self.bytes.len(),
            Framing::Contents => match self.texts.front() {
                Some(text) => text.len(),
                None => 0,
            },
        }
    }

    /// For how many bytes there is room, or the greatest number; in Contents, besides the texts. Where all was taken it is
    /// little, whatever was written.
    pub fn room(&self) -> usize
        ensures all { self.now.framing ≢ Framing.Contents → length (next_of self.now) ≤ result }
        ensures little { IsAllTaken self.now → result ≤ 8192 }
    {
        self.bytes.room()
    }

    /// Moves what is to be written next to this block, in place of what that had: the first bytes, none only where there
    /// are none; in Contents the next text. No byte is copied. Takes no memory.
    pub fn take(&mut self, block: &mut Vec<u8>)
        ensures block { block.new.items ≡ given_of self.old (length block.new.items) }
        ensures state { self.new ≡ after_take (length block.new.items) self.old }
        ensures none { block.new.items ≡ [] → next_of self.old ≡ [] }
    {
        match self.framing {
            Framing::Frames | Framing::Lines => {
                self.bytes.take(block);
                self.log = self.log.with_taken(block.len());
            }
            Framing::Contents => self.take_text(block),
        }
    }

    fn take_text(&mut self, block: &mut Vec<u8>)
        requires { self.old.framing ≡ Framing.Contents }
        ensures block { block.new.items ≡ given_of self.old (length block.new.items) }
        ensures state { self.new ≡ after_take (length block.new.items) self.old }
        ensures none { block.new.items ≡ [] → next_of self.old ≡ [] }
    {
        match self.texts.pop_front() {
            Some(text) => {
                *block = text.into_vec();
                self.log = self.log.with_taken(1);
            }
            None => *block = Vec::new(self.alloc),
        }
        give_room_back(&mut self.texts);
    }

    /// Whether all that was written was taken.
    pub fn is_empty(&self) -> bool
        ensures { IsTrue result ↔ IsAllTaken self.now }
    {
        match self.framing {
            Framing::Frames | Framing::Lines => self.bytes.len() == 0,
            Framing::Contents => self.texts.is_empty(),
        }
    }
}

/// Puts the text behind the others.
fn put_behind(texts: &mut VecDeque<Items<u8>>, text: Vec<u8>) -> Result<(), AllocError>
    ensures ok { OnOk result (texts.new.items ≡ texts.old.items ++ text.items ∷ []) }
    ensures err { OnErr result (texts.new.items ≡ texts.old.items) }
{
    match texts.push_back(Items::from(text)) {
        Ok(()) => Ok(()),
        Err(_) => Err(AllocError),
    }
}

fn copy_of(alloc: Global, text: &[u8]) -> Result<Vec<u8>, AllocError>
    ensures { IfOk result (λ own. own.items ≡ text.now) }
{
    let mut own = Vec::new(alloc);
    own.extend_from_slice(text)?;
    Ok(own)
}

/// The text in this room: itself where it is long, and else a copy.
fn own_of(alloc: Global, room: &mut Vec<u8>) -> Result<Vec<u8>, AllocError>
    ensures { IfOk result (λ own. own.items ≡ room.old.items) }
{
    if room.len() <= MOST_COPIED {
        return copy_of(alloc, room.as_slice());
    }
    Ok(mem::replace(room, Vec::new(alloc)))
}

/// Gives memory back where less than a quarter is in use.
fn give_room_back(texts: &mut VecDeque<Items<u8>>)
    ensures { texts.new.items ≡ texts.old.items }
{
    let room = texts.capacity();
    if room > KEPT_TEXTS && room / 4 > texts.len() {
        texts.shrink_to((2 * texts.len()).max(KEPT_TEXTS));
    }
}
