//! The lines behind the first.

ghost use Rattle.std.specs.Prelude.{◌≡◌, Some, None, IfOk, IfErr, MatchOption, option_map};
ghost use Rattle.recorded_talks.specs.declared.fault.LineFault.TheVariants.{Unreadable};
ghost use Rattle.recorded_talks.specs.Entries.{seen_as};
ghost use Rattle.recorded_talks.specs.Recorded.{said_by, seen_by, seen_of, says_nothing, side_marked, behind_mark};

use crate::bytes::bytes_of;
use crate::fault::LineFault;
use crate::text::text_of;
use crate::time::without_time;
use content_streams::HowEnded;
use conversation_rules::Side;
use std::alloc::Global;

/// What was seen.
#[derive(Drop)]
pub(crate) enum Entry {
    /// A side wrote these bytes.
    Wrote(Side, Vec<u8>),
    /// A side's stream ended.
    Ended(Side, HowEnded),
}

/// What a line says that was seen, without its LF; nothing where it is empty or a remark.
///
/// # Errors
/// `Unreadable` where it is no line of a recording, and `Memory` where there is none for its bytes.
pub(crate) fn read_entry(alloc: Global, line: &[u8]) -> Result<Option<Entry>, LineFault>
    ensures ok { IfOk result (λ entry. said_by line.now ≡ Some (option_map seen_as entry)) }
    ensures err { IfErr result (λ fault. fault ≡ Unreadable → said_by line.now ≡ None) }
{
    let text = text_of(line).ok_or(LineFault::Unreadable)?;
    if says_nothing(text.as_bytes()) {
        return Ok(None);
    }
    let said = without_time(text).ok_or(LineFault::Unreadable)?;
    Ok(Some(entry_by(alloc, said)?))
}

/// What a text without a time says.
fn entry_by(alloc: Global, said: &[u8]) -> Result<Entry, LineFault>
    ensures ok { IfOk result (λ entry. seen_by said.now ≡ Some (seen_as entry)) }
    ensures err { IfErr result (λ fault. fault ≡ Unreadable → seen_by said.now ≡ None) }
{
    let (mark, behind) = said.split_first().ok_or(LineFault::Unreadable)?;
    let side = side_marked(*mark).ok_or(LineFault::Unreadable)?;
    let what = behind_mark(behind).ok_or(LineFault::Unreadable)?;
    entry_of(alloc, side, what)
}

/// What was seen of a side.
fn entry_of(alloc: Global, side: Side, what: &[u8]) -> Result<Entry, LineFault>
    ensures ok { IfOk result (λ entry. seen_of side what.now ≡ Some (seen_as entry)) }
    ensures err { IfErr result (λ fault. fault ≡ Unreadable → seen_of side what.now ≡ None) }
{
    if what == b"closed".as_slice() {
        return Ok(Entry::Ended(side, HowEnded::Closed));
    }
    if what == b"failed".as_slice() {
        return Ok(Entry::Ended(side, HowEnded::ReadFailed));
    }
    Ok(Entry::Wrote(side, bytes_of(alloc, what)?))
}

/// Whether a text is empty or a remark.
fn says_nothing(text: &[u8]) -> bool
    ensures { result ≡ says_nothing text.now }
{
    match text.split_first() {
        Some((first, _)) => *first == b'#',
        None => true,
    }
}

/// The side that a line is about, by its mark.
fn side_marked(mark: u8) -> Option<Side>
    ensures { result ≡ side_marked mark }
{
    match mark {
        b'>' => Some(Side::Client),
        b'<' => Some(Side::Server),
        _ => None,
    }
}

/// What stands behind the blank that follows a mark.
fn behind_mark(behind: &[u8]) -> Option<&[u8]>
    ensures { MatchOption result (behind_mark behind.now ≡ None) (λ what. behind_mark behind.now ≡ Some what.now) }
{
    match behind.split_first() {
        Some((first, what)) if *first == b' ' => Some(what),
        Some(_) => None,
        None => Some(behind),
    }
}
