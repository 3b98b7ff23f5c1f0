//! An event's id as JSON.

ghost use Rattle.std.specs.Prelude.{◌≡◌, [], OnOk};
ghost use Rattle.json.specs.Print.{quoted};
ghost use Rattle.connection_messages.specs.Texts.{id_text};
ghost use Rattle.host_calls.specs.Events.{id_of};

use connection_history::Event;
use itoa::Buffer;
use json::Writer;
use message_ids::Id;
use std::alloc::{AllocError, Global};
use std::mem;

/// Room for so many bytes is kept, however short the next id is.
const KEPT_ROOM: usize = 4096;

/// Puts an event's id as JSON in place of what was there; nothing, where the event has none.
pub(crate) fn put_id(alloc: Global, event: &Event, room: &mut Vec<u8>) -> Result<(), AllocError>
    ensures { OnOk result (room.new.items ≡ id_of event.now) }
{
    empty(alloc, room);
    match event {
        Event::Call { call, .. } => match &call.id {
            Some(id) => put_text(alloc, id, room),
            None => Ok(()),
        },
        _ => Ok(()),
    }
}

/// Empties the room of an id, and lets go of it where it is large.
pub(crate) fn empty(alloc: Global, room: &mut Vec<u8>)
    ensures { room.new.items ≡ [] }
{
    room.clear();
    if room.capacity() > KEPT_ROOM {
        *room = Vec::new(alloc);
    }
}

/// Puts an id's text into this room, which is empty.
fn put_text(alloc: Global, id: &Id, room: &mut Vec<u8>) -> Result<(), AllocError>
    requires { room.old.items ≡ [] }
    ensures { OnOk result (room.new.items ≡ id_text id.now) }
{
    match id {
        Id::Null => room.extend_from_slice(b"null"),
        Id::Text(text) => put_quoted(alloc, text.as_str(), room),
        Id::Signed(number) => room.extend_from_slice(Buffer::new().format(number.get()).as_bytes()),
        Id::Unsigned(number) => room.extend_from_slice(Buffer::new().format(*number).as_bytes()),
    }
}

/// Puts a text as a JSON string into this room, which is empty.
fn put_quoted(alloc: Global, text: &str, room: &mut Vec<u8>) -> Result<(), AllocError>
    requires { room.old.items ≡ [] }
    ensures { OnOk result (room.new.items ≡ quoted text.now) }
{
    let mut writer = Writer::new(mem::replace(room, Vec::new(alloc)));
    writer.string(text)?;
    *room = writer.into_inner();
    Ok(())
}
