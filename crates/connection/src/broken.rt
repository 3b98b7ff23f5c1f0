//! What is broken of a content that comes.

ghost use Rattle.std.specs.Prelude.{◌≡◌, ◌∷◌, [], ℕ, Some, None, IfOk, option_to_list, length, filter, take};
ghost use Rattle.connection_history.specs.Stream.{is_invalid as is_invalid_entry};
ghost use Rattle.connection_history.specs.Events.{defect_among as defect_as, defect_of as the_defect, first_invalid as the_first, broken_in};
ghost use Rattle.content_streams.specs.Streams.{capped, next_placed};
ghost use Rattle.lsp_frames.specs.declared.frame.Frame.{Frame as Content};
ghost use Rattle.connection.specs.Connections.{most_shown, origin_of};

use connection_history::{Broken, Defect};
use connection_messages::{Entry, Unit};
use content_streams::{ContentStream, placed_contents_are_the_contents};
use json_values::Items;
use std::alloc::{AllocError, Global};

/// So many bytes of a broken content are told.
const MOST_SHOWN: usize = 64;

/// What is broken of the next content, which is this unit; nothing where that isn't told.
pub(crate) fn broken_of(
    alloc: Global,
    tells: bool,
    stream: &ContentStream,
    unit: &Unit,
) -> Result<Option<Broken>, AllocError>
    ensures { IfOk result (λ broken. (placed : ℕ × Content) → next_placed stream.now ≡ Some placed →
        option_to_list broken ≡ broken_in (origin_of tells placed) unit.now) }
{
    if !tells {
        return Ok(None);
    }
    match defect_of(unit) {
        Some(defect) => broken_by(alloc, stream, defect),
        None => Ok(None),
    }
}

/// The next content has this defect.
fn broken_by(
    alloc: Global,
    stream: &ContentStream,
    defect: Defect,
) -> Result<Option<Broken>, AllocError>
    ensures { IfOk result (λ broken. (placed : ℕ × Content) → next_placed stream.now ≡ Some placed →
        broken ≡ Some (record {
          place = capped placed.0;
          start = take most_shown placed.1.content;
          defect = defect;
        })) }
{
    placed_contents_are_the_contents();
    let place = stream.front_place();
    match stream.front() {
        Some(content) => Ok(Some(Broken {
            place: place.unwrap_or(0),
            start: first_bytes(alloc, content.bytes)?,
            defect,
        })),
        None => Ok(None),
    }
}

/// The first bytes of a content.
fn first_bytes(alloc: Global, content: &[u8]) -> Result<Items<u8>, AllocError>
    ensures { IfOk result (λ start. start ≡ take most_shown content.now) }
{
    let mut start = Vec::new(alloc);
    start.extend_from_slice(&content[..MOST_SHOWN.min(content.len())])?;
    Ok(Items::from(start))
}

/// What is wrong with a unit.
fn defect_of(unit: &Unit) -> Option<Defect>
    ensures { result ≡ the_defect unit.now }
{
    match unit {
        Unit::Unreadable => Some(Defect::Unreadable),
        Unit::Single(entry) => defect_alone(entry),
        Unit::Batch(entries) => defect_among(entries.as_slice()),
    }
}

fn defect_alone(entry: &Entry) -> Option<Defect>
    ensures { result ≡ defect_as (entry.now ∷ []) }
{
    if is_invalid(entry) {
        Some(Defect::Invalid { first: 0, count: 1 })
    } else {
        None
    }
}

fn defect_among(entries: &[Entry]) -> Option<Defect>
    ensures { result ≡ defect_as entries.now }
{
    let count = count_invalid(entries);
    if count == 0 {
        return None;
    }
    let first = first_invalid(entries);
    Some(Defect::Invalid { first, count })
}

fn count_invalid(entries: &[Entry]) -> u64
    ensures { result ≡ length (filter is_invalid_entry entries.now) }
{
    let mut count = 0;
    for entry in entries {
        count += is_invalid(entry) as u64;
    }
    count
}

/// The place of the first entry that is invalid, and else how many there are.
fn first_invalid(entries: &[Entry]) -> u64
    ensures { result ≡ the_first entries.now }
{
    let mut first = 0;
    for entry in entries {
        if is_invalid(entry) {
            return first;
        }
        first += 1;
    }
    first
}

fn is_invalid(entry: &Entry) -> bool
    ensures { result ≡ is_invalid_entry entry.now }
{
    matches!(entry, Entry::Invalid)
}
