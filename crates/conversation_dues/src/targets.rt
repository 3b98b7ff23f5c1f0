//! What an answer is for, among the contents on which something is owed.

ghost use Rattle.std.specs.Prelude.{◌≡◌, None, false, true, is_some, if◌then◌else◌};
ghost use Rattle.std.specs.List.{list_any};
ghost use Rattle.conversation_dues.specs.Found.{target_at, whole_target};
ghost use Rattle.conversation_open.specs.Open.{open_entries, contents_of, IsOpen};
ghost use Rattle.conversation_ids.specs.Ways.{fits};
ghost use Rattle.conversation_reading.specs.declared.entry.WrittenId.TheVariants.{Null};
ghost use Rattle.conversation_rules.specs.Dues.{may_be_refused, unreadable_target};
ghost use Rattle.conversation_rules.specs.Matching.{oldest, is_null_other, left_named_in, named_in, named_target, expects_null_in, null_in, null_target, parse_error_target};

use crate::sought::{Sought, first, is_there};
use conversation_ids::Way;
use conversation_open::OpenContents;
use conversation_reading::WrittenId;

/// What an answer is for, by the number of a content.
#[derive(Clone, Copy)]
pub(crate) enum Place {
    /// The first entry that fits in this way.
    EntryOf(u64, Way),
    WholeOf(u64),
}

/// The oldest entry that fits, in single contents or in batches.
fn oldest(contents: &OpenContents, batches: bool, way: Way, id: &WrittenId) -> Option<Place>
    requires { IsOpen contents.now }
    ensures { oldest batches (fits way id.now) (contents_of (open_entries contents.now)) ≡ target_at id.now (open_entries contents.now) result }
{
    match first(contents, Sought::entry(batches, way), id) {
        Some(number) => Some(Place::EntryOf(number, way)),
        None => None,
    }
}

/// The oldest content that is such a one.
fn oldest_whole(contents: &OpenContents, sought: Sought) -> Option<Place>
    requires { IsOpen contents.now }
    ensures { target_at Null (open_entries contents.now) result ≡ whole_target sought (open_entries contents.now) }
{
    match first(contents, sought, &WrittenId::Null) {
        Some(number) => Some(Place::WholeOf(number)),
        None => None,
    }
}

/// What a single answer with an id that isn't null is for.
pub(crate) fn named_target(contents: &OpenContents, id: &WrittenId) -> Option<Place>
    requires { IsOpen contents.now }
    ensures { named_target id.now (contents_of (open_entries contents.now)) ≡ target_at id.now (open_entries contents.now) result }
{
    match named_in(contents, false, id) {
        Some(target) => Some(target),
        None => named_in(contents, true, id),
    }
}

fn named_in(contents: &OpenContents, batches: bool, id: &WrittenId) -> Option<Place>
    requires { IsOpen contents.now }
    ensures { named_in batches id.now (contents_of (open_entries contents.now)) ≡ target_at id.now (open_entries contents.now) result }
{
    match oldest(contents, batches, Way::Must, id) {
        Some(target) => Some(target),
        None => left_named_in(contents, batches, id),
    }
}

/// The same among what may be left.
fn left_named_in(contents: &OpenContents, batches: bool, id: &WrittenId) -> Option<Place>
    requires { IsOpen contents.now }
    ensures { left_named_in batches id.now (contents_of (open_entries contents.now)) ≡ target_at id.now (open_entries contents.now) result }
{
    if let Some(target) = oldest(contents, batches, Way::Asks, id) {
        return Some(target);
    }
    match oldest(contents, batches, Way::Expects, id) {
        Some(target) => Some(target),
        None => oldest(contents, batches, Way::MayHave, id),
    }
}

/// What a single answer with the id null is for, where its code isn't -32700.
pub(crate) fn null_target(
    contents: &OpenContents,
    says_invalid: bool,
    is_unsure: bool,
) -> Option<Place>
    requires { IsOpen contents.now }
    ensures { null_target says_invalid is_unsure (contents_of (open_entries contents.now)) ≡ target_at Null (open_entries contents.now) result }
{
    if is_unsure {
        return expects_null_in(contents, says_invalid, false);
    }
    match null_in(contents, says_invalid, false) {
        Some(target) => Some(target),
        None => null_in(contents, says_invalid, true),
    }
}

fn null_in(contents: &OpenContents, says_invalid: bool, batches: bool) -> Option<Place>
    requires { IsOpen contents.now }
    ensures { null_in says_invalid batches (contents_of (open_entries contents.now)) ≡ target_at Null (open_entries contents.now) result }
{
    match expects_null_in(contents, says_invalid, batches) {
        Some(target) => Some(target),
        None => oldest(contents, batches, Way::MayBeNull, &WrittenId::Null),
    }
}

fn expects_null_in(contents: &OpenContents, says_invalid: bool, batches: bool) -> Option<Place>
    requires { IsOpen contents.now }
    ensures { expects_null_in says_invalid batches (contents_of (open_entries contents.now)) ≡ target_at Null (open_entries contents.now) result }
{
    let (first, second) = if says_invalid {
        (Way::ExpectsNull, Way::AsksWithNull)
    } else {
        (Way::AsksWithNull, Way::ExpectsNull)
    };
    match oldest(contents, batches, first, &WrittenId::Null) {
        Some(target) => Some(target),
        None => oldest(contents, batches, second, &WrittenId::Null),
    }
}

/// What a single -32700 with the id null is for.
pub(crate) fn parse_error_target(contents: &OpenContents, is_unsure: bool) -> Option<Place>
    requires { IsOpen contents.now }
    ensures { parse_error_target is_unsure (contents_of (open_entries contents.now)) ≡ target_at Null (open_entries contents.now) result }
{
    if let Some(target) = unreadable_target(contents) {
        return Some(target);
    }
    if let Some(target) = oldest(contents, false, Way::AsksWithNull, &WrittenId::Null) {
        return Some(target);
    }
    if is_unsure && has_huge(contents) {
        return None;
    }
    match oldest(contents, false, Way::Unnamed, &WrittenId::Null) {
        Some(target) => Some(target),
        None => named_other(contents, is_unsure),
    }
}

/// The oldest that is invalid, where no content may be refused whole.
fn named_other(contents: &OpenContents, is_unsure: bool) -> Option<Place>
    requires { IsOpen contents.now }
    ensures { (if is_unsure then None else oldest false is_null_other (contents_of (open_entries contents.now))) ≡ target_at Null (open_entries contents.now) result }
{
    if is_unsure {
        None
    } else {
        oldest(contents, false, Way::ExpectsNull, &WrittenId::Null)
    }
}

/// The oldest content that couldn't be read.
pub(crate) fn unreadable_target(contents: &OpenContents) -> Option<Place>
    requires { IsOpen contents.now }
    ensures { unreadable_target (contents_of (open_entries contents.now)) ≡ target_at Null (open_entries contents.now) result }
{
    oldest_whole(contents, Sought::Unreadable)
}

/// Whether there is one.
pub(crate) fn has_unreadable(contents: &OpenContents) -> bool
    requires { IsOpen contents.now }
    ensures { result ≡ is_some (unreadable_target (contents_of (open_entries contents.now))) }
{
    unreadable_target(contents).is_some()
}

/// Whether what is open may be refused whole: a batch, or what a reader may limit.
pub(crate) fn may_be_refused(contents: &OpenContents) -> bool
    requires { IsOpen contents.now }
    ensures { result ≡ may_be_refused (contents_of (open_entries contents.now)) }
{
    has_batch(contents) || has_huge(contents)
}

/// Whether a batch is open.
pub(crate) fn has_batch(contents: &OpenContents) -> bool
    requires { IsOpen contents.now }
    ensures { result ≡ list_any (λ due. due.is_batch) (contents_of (open_entries contents.now)) }
{
    is_there(contents, Sought::Batch, &WrittenId::Null)
}

fn has_huge(contents: &OpenContents) -> bool
    requires { IsOpen contents.now }
    ensures { result ≡ list_any (λ due. due.has_huge) (contents_of (open_entries contents.now)) }
{
    is_there(contents, Sought::Huge, &WrittenId::Null)
}
