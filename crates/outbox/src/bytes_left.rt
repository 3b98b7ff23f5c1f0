ghost use Rattle.std.specs.Prelude.{◌≡◌, ◌≢◌, ◌≤◌, ◌++◌, ◌∷◌, [], length, take, drop, OnOk, OnErr};
ghost use Rattle.std.specs.Vec.{vec_capacity};
ghost use Rattle.outbox.specs.Output.{framed};

use content_streams::Framing;
use lsp_frames::{put_frame, put_head};
use std::alloc::{AllocError, Global};
use std::marker::Model;
use std::mem;

/// A text that is longer is moved where it can be. Up to here its room is worth more: a desk keeps it for the next text.
pub(crate) const MOST_COPIED: usize = 65_536;

/// Room for so many bytes is kept, however few are left.
const KEPT_ROOM: usize = 4096;

/// Bytes that are put at the end, and taken at the front by whole blocks of memory. What has no bytes keeps little room.
#[derive(Drop)]
pub struct BytesLeft {
    alloc: Global,
    /// The first bytes. There are none only where there are none at all.
    front: Vec<u8>,
    /// Those behind the others: a long text that was moved here, and what was put behind it.
    back: Vec<u8>,
}

impl Model for BytesLeft {
    ghost use Rattle.std.specs.Prelude.{List, ℕ, ◌++◌};

    ghost Value = { List ℕ };

    ghost use Rattle.outbox.specs.Inner.{IsLeft};

    ghost view = { λ a. a.front.items ++ a.back.items };

    ghost invariant = { λ a. IsLeft a.front a.back };
}

impl BytesLeft {
    /// Takes no memory.
    pub fn new(alloc: Global) -> BytesLeft
        ensures { result ≡ [] }
    {
        BytesLeft {
            alloc,
            front: Vec::new(alloc),
            back: Vec::new(alloc),
        }
    }

    pub fn len(&self) -> usize
        ensures { result ≡ length self.now }
    {
        self.front.as_slice().len() + self.back.as_slice().len()
    }

    /// For how many bytes there is room, or the greatest number. Where there are none it is little.
    pub fn room(&self) -> usize
        ensures all { length self.now ≤ result }
        ensures little { self.now ≡ [] → result ≤ 8192 }
    {
        self.front.capacity().saturating_add(self.back.capacity())
    }

    /// Puts the text at the end, as this framing writes it. It is a part of its two callers, which only pass on.
    #[inline(always)]
    pub fn put(&mut self, framing: Framing, text: &[u8]) -> Result<(), AllocError>
        ensures ok { OnOk result (self.new ≡ self.old ++ framed framing text.now) }
        ensures err { OnErr result (self.new ≡ self.old) }
    {
        if self.back.is_empty() {
            put_kept(self.alloc, &mut self.front, framing, text)
        } else {
            put_kept(self.alloc, &mut self.back, framing, text)
        }
    }

    /// Puts the text in this room at the end, as this framing writes it. A long one is moved, so it isn't there twice, unless
    /// another was moved that is still behind the others. What is in the room then has no meaning.
    pub fn put_from(&mut self, framing: Framing, room: &mut Vec<u8>) -> Result<(), AllocError>
        ensures ok { OnOk result (self.new ≡ self.old ++ framed framing room.old.items) }
        ensures err { OnErr result (self.new ≡ self.old) }
    {
        if room.len() > MOST_COPIED && self.back.is_empty() {
            return match put_around(&mut self.front, framing, room) {
                Ok(()) => {
                    move_behind(&mut self.front, &mut self.back, room);
                    let_go(self.alloc, &mut self.front);
                    let_go(self.alloc, &mut self.back);
                    Ok(())
                }
                Err(refused) => {
                    let_go(self.alloc, &mut self.front);
                    Err(refused)
                }
            };
        }
        self.put(framing, room.as_slice())
    }

    /// Keeps the first so many bytes.
    pub fn truncate(&mut self, count: usize)
        requires { count ≤ length self.old }
        ensures { self.new ≡ take count self.old }
    {
        let in_front = count.min(self.front.len());
        self.front.truncate(in_front);
        self.back.truncate(count - in_front);
        give_room_back(self.alloc, &mut self.front);
        give_room_back(self.alloc, &mut self.back);
    }

    /// Moves the first bytes to this block, in whose room the next ones are put then; none, only where there are none.
    pub fn take(&mut self, block: &mut Vec<u8>)
        ensures block { block.new.items ≡ take (length block.new.items) self.old }
        ensures left { self.new ≡ drop (length block.new.items) self.old }
        ensures none { block.new.items ≡ [] → self.old ≡ [] }
    {
        block.clear();
        give_room_back(self.alloc, block);
        mem::swap(&mut self.front, block);
        mem::swap(&mut self.front, &mut self.back);
    }
}

/// Puts what stands around the text in this room, as this framing writes it: its head in front, and its end behind it.
fn put_around(front: &mut Vec<u8>, framing: Framing, room: &mut Vec<u8>) -> Result<(), AllocError>
    ensures ok { OnOk result (front.new.items ++ room.new.items ≡ front.old.items ++ framed framing room.old.items) }
    ensures err { OnErr result (front.new.items ≡ front.old.items) }
{
    match framing {
        Framing::Frames => put_head(front, room.len())?,
        Framing::Lines => room.push(b'\n')?,
        Framing::Contents => {}
    }
    Ok(())
}

/// Moves these bytes behind those in front, where nothing was moved yet.
fn move_behind(front: &mut Vec<u8>, back: &mut Vec<u8>, bytes: &mut Vec<u8>)
    requires { back.old.items ≡ [] }
    ensures all { front.new.items ++ back.new.items ≡ front.old.items ++ bytes.old.items }
    ensures none { front.new.items ≡ [] → back.new.items ≡ [] }
{
    if front.is_empty() {
        mem::swap(front, bytes);
    } else {
        mem::swap(back, bytes);
    }
}

/// Puts the text behind the bytes, as this framing writes it. No bytes keep little room.
#[inline(always)]
fn put_kept(
    alloc: Global,
    bytes: &mut Vec<u8>,
    framing: Framing,
    text: &[u8],
) -> Result<(), AllocError>
    ensures ok { OnOk result (bytes.new.items ≡ bytes.old.items ++ framed framing text.now) }
    ensures err { OnErr result (bytes.new.items ≡ bytes.old.items) }
    ensures little { bytes.new.items ≡ [] → vec_capacity bytes.new ≤ 4096 }
{
    let put = put_text(bytes, framing, text);
    // A text for which there was no memory may have made room.
    let_go(alloc, bytes);
    put
}

/// Puts the text behind the bytes, as this framing writes it.
#[inline(always)]
fn put_text(bytes: &mut Vec<u8>, framing: Framing, text: &[u8]) -> Result<(), AllocError>
    ensures ok { OnOk result (bytes.new.items ≡ bytes.old.items ++ framed framing text.now) }
    ensures err { OnErr result (bytes.new.items ≡ bytes.old.items) }
{
    match framing {
        Framing::Frames => put_frame(bytes, text),
        Framing::Lines => put_line(bytes, text),
        Framing::Contents => bytes.extend_from_slice(text),
    }
}

fn put_line(bytes: &mut Vec<u8>, text: &[u8]) -> Result<(), AllocError>
    ensures ok { OnOk result (bytes.new.items ≡ bytes.old.items ++ text.now ++ 10 ∷ []) }
    ensures err { OnErr result (bytes.new.items ≡ bytes.old.items) }
{
    // Room for both at once is just that, where a text without room for its LF would take twice as much. And so no text
    // stays without its LF.
    bytes.reserve(text.len().saturating_add(1))?;
    bytes.extend_from_slice(text)?;
    bytes.push(b'\n')?;
    Ok(())
}

/// Gives memory back where less than a quarter is in use. What is left stays where it is if no smaller memory is to be had.
fn give_room_back(alloc: Global, bytes: &mut Vec<u8>)
    ensures items { bytes.new.items ≡ bytes.old.items }
    ensures little { bytes.new.items ≡ [] → vec_capacity bytes.new ≤ 4096 }
{
    let room = bytes.capacity();
    if room > KEPT_ROOM && room / 4 > bytes.len() {
        bytes.shrink_to((2 * bytes.len()).max(KEPT_ROOM));
    }
    let_go(alloc, bytes);
}

/// Lets go of the room of no bytes, where it is more than is kept.
#[inline(always)]
fn let_go(alloc: Global, bytes: &mut Vec<u8>)
    ensures items { bytes.new.items ≡ bytes.old.items }
    ensures little { bytes.new.items ≡ [] → vec_capacity bytes.new ≤ 4096 }
    ensures same { bytes.old.items ≢ [] → bytes.new ≡ bytes.old }
{
    if bytes.is_empty() && bytes.capacity() > KEPT_ROOM {
        *bytes = Vec::new(alloc);
    }
}
