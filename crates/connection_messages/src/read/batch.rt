//! Batches, which may have only so many entries.

ghost use Rattle.std.specs.Prelude.{◌≡◌, IsTrue, IfSome, false};
ghost use Rattle.connection_messages.specs.Envelope.{HasValues};
ghost use Rattle.connection_messages.specs.Reading.{batch_within, unit_of};
ghost use Rattle.connection_messages.specs.declared.entry.Entry.TheVariants.{Invalid};
ghost use Rattle.connection_messages.specs.declared.unit.Unit.TheVariants.{Single};

use super::unit::MOST_DEPTH_IN;
use crate::entry::Entry;
use crate::rules::Rules;
use crate::unit::Unit;
use json_texts::value_end;
use json_values::Items;

/// The unit of an array with these entries.
pub(crate) fn batch_within(rules: Rules, entries: Vec<Entry>) -> Unit
    ensures { result ≡ batch_within rules.most_entries entries.items }
{
    if entries.is_empty() || rules.are_too_many(entries.len()) {
        drop(entries);
        return Unit::Single(Entry::Invalid);
    }
    Unit::Batch(Items::from(entries))
}

/// Whether the text is seen to be a compact array of too many values. Takes no room for them.
pub(crate) fn has_too_many(rules: Rules, text: &str) -> bool
    ensures { IsTrue result → unit_of rules false text.now ≡ Single Invalid }
{
    // (each value has a byte at least, and one more behind it)
    if !rules.are_too_many(text.len() / 2) {
        return false;
    }
    match count_values(text) {
        Some(count) => rules.are_too_many(count),
        None => false,
    }
}

/// How many values the compact array has that the text is seen to be.
fn count_values(text: &str) -> Option<usize>
    ensures { IfSome result (λ count. HasValues text.now count) }
{
    let bytes = text.as_bytes();
    if bytes.is_empty() || bytes[0] != b'[' {
        return None;
    }
    let mut count = 0;
    let mut at = 1;
    while at < bytes.len() {
        let end = value_end(bytes, at, MOST_DEPTH_IN - 1)?;
        if end == bytes.len() {
            return None;
        }
        let next = bytes[end];
        count += 1;
        at = end + 1;
        if next == b']' && at == bytes.len() {
            return Some(count);
        }
        if next != b',' {
            return None;
        }
    }
    None
}
