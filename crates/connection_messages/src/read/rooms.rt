//! Rooms of texts that have gone, for those to come.

ghost use Rattle.std.specs.Prelude.{◌≡◌, IfOk};

use json_values::Text;
use std::alloc::{AllocError, Global};

/// So many rooms of each kind are kept, as for the entries of a batch, and each is of at most so many bytes: most methods and
/// params fit in, and a connection that rests holds at most 32 KiB of them.
const MOST_KEPT: usize = 64;

const KEPT_ROOM: usize = 256;

/// The rooms of events' texts that have gone. Most events are handled one after another, so that each text is read into the
/// room of one before, and takes no memory.
#[derive(Drop)]
pub(crate) struct Rooms {
    pub(crate) alloc: Global,
    names: Vec<Vec<u8>>,
    texts: Vec<Vec<u8>>,
}

impl Rooms {
    /// No room. Takes no memory.
    pub(crate) fn new(alloc: Global) -> Rooms {
        Rooms {
            alloc,
            names: Vec::new(alloc),
            texts: Vec::new(alloc),
        }
    }

    /// Keeps the rooms of an event's two texts. What is in them has no meaning. Where there is no memory to keep one, it goes.
    pub(crate) fn keep(&mut self, name: Vec<u8>, text: Vec<u8>) {
        keep(&mut self.names, name);
        keep(&mut self.texts, text);
    }

    /// A copy of a method.
    pub(crate) fn copy_name(&mut self, text: &str) -> Result<Text, AllocError>
        ensures { IfOk result (λ t. t ≡ text.now) }
    {
        copy_into(self.alloc, &mut self.names, text)
    }

    /// A copy of params or of a result.
    pub(crate) fn copy_text(&mut self, text: &str) -> Result<Text, AllocError>
        ensures { IfOk result (λ t. t ≡ text.now) }
    {
        copy_into(self.alloc, &mut self.texts, text)
    }
}

fn keep(kept: &mut Vec<Vec<u8>>, room: Vec<u8>) {
    let capacity = room.capacity();
    if capacity > 0 && capacity <= KEPT_ROOM && kept.len() < MOST_KEPT {
        drop(kept.push(room));
    }
}

/// A copy of the text, in a room that is large enough. One that isn't goes, so that no rooms are kept that fit no text; but a
/// text that no room fits takes none.
fn copy_into(alloc: Global, rooms: &mut Vec<Vec<u8>>, text: &str) -> Result<Text, AllocError>
    ensures { IfOk result (λ t. t ≡ text.now) }
{
    if text.len() > KEPT_ROOM {
        return Text::copy_of(alloc, text);
    }
    let Some(mut copy) = rooms.pop() else {
        return Text::copy_of(alloc, text);
    };
    if copy.capacity() < text.len() {
        drop(copy);
        return Text::copy_of(alloc, text);
    }
    copy.clear();
    copy.extend_from_slice(text.as_bytes())?;
    Ok(Text::from(unsafe { String::from_utf8_unchecked(copy) }))
}
