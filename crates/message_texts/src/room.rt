//! Room for a message, and what becomes of one that finds none.

ghost use Rattle.std.specs.Prelude.{◌≡◌, OnOk, OnErr, take};

use message_ids::Id;
use std::alloc::AllocError;

/// The room that is made for what stands around the texts in a message.
const ROOM: usize = 96;

/// Makes room at once for a message with two texts of these lengths. Escapes may need more.
pub(crate) fn make_room(bytes: &mut Vec<u8>, one: usize, other: usize) -> Result<(), AllocError>
    ensures { bytes.new.items ≡ bytes.old.items }
{
    bytes.reserve(ROOM.saturating_add(one).saturating_add(other))
}

pub(crate) fn id_len(id: &Id) -> usize {
    match id {
        Id::Text(text) => text.as_bytes().len(),
        _ => 0,
    }
}

pub(crate) fn text_len(text: Option<&[u8]>) -> usize {
    match text {
        Some(text) => text.len(),
        None => 0,
    }
}

/// Answers what putting a message came to. Where it was refused, what stands behind the first bytes is taken away.
pub(crate) fn whole_or_unchanged(
    bytes: &mut Vec<u8>,
    before: usize,
    put: Result<(), AllocError>,
) -> Result<(), AllocError>
    ensures result { result ≡ put }
    ensures ok { OnOk put (bytes.new.items ≡ bytes.old.items) }
    ensures err { OnErr put (bytes.new.items ≡ take before bytes.old.items) }
{
    if put.is_err() {
        bytes.truncate(before);
    }
    put
}
