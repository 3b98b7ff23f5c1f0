//! What is looked for among contents, and the oldest that has it.

ghost use Rattle.std.specs.Prelude.{◌≡◌, ◌<◌, Bool, false, None, is_some, MatchOption, option_and_then, option_map};
ghost use Rattle.std.specs.List.{list_any};
ghost use Rattle.std.specs.Option.{IfSome};
ghost use Rattle.conversation_dues.specs.Found.{may_be_on, place_of, first_of};
ghost use Rattle.conversation_open.specs.Open.{open_entries, is_among, is_due_by, IsOpen, IsNoneBehind, IsNoneBetween};
ghost use Rattle.conversation_ids.specs.OwedMarks.{due_has, entry_has};
ghost use Rattle.conversation_ids.specs.Ways.{fits};
ghost use Rattle.conversation_reading.specs.declared.entry.WrittenId.{WrittenId as IdValue};
ghost use Rattle.conversation_rules.specs.Matching.{place_in};
ghost use Rattle.conversation_rules.specs.Owed.{Due as DueValue, Owed as OwedValue};
ghost use Rattle.number_windows.specs.Numbered.{at};

use conversation_contents::Due;
use conversation_ids::{Way, batch_mark, huge_mark, mark_of, null_mark, unreadable_mark};
use conversation_open::{Among, OpenContents};
use conversation_reading::WrittenId;

#[derive(Clone, Copy)]
pub(crate) enum Sought {
    /// An entry of a single content.
    Single(Way),
    /// An entry of a batch.
    InBatch(Way),
    /// A request.
    Asked,
    /// A request whose cancel was seen.
    Cancelled,
    /// A content that couldn't be read.
    Unreadable,
    /// A content with a number beyond a float's range.
    Huge,
    Batch,
}

/// Where it is looked for: among such contents, by a mark.
#[derive(Clone, Copy)]
pub(crate) enum Search {
    /// On those with an entry that must be answered, and whose answer is expected to have an id of this mark.
    Awaited(Among, u128),
    /// On all that have it.
    Any(Among, u128),
}

impl Search {
    /// The next content behind `after` on which it may be.
    fn next(self, contents: &OpenContents, after: u64) -> Option<u64>
        requires { IsOpen contents.now }
        ensures { MatchOption result
            (IsNoneBehind (may_be_on self) after (open_entries contents.now))
            (λ number. (after < number) × IsNoneBetween (may_be_on self) after number (open_entries contents.now)) }
    {
        match self {
            Search::Awaited(among, mark) => contents.next_due(among, mark, after),
            Search::Any(among, mark) => contents.next_with(among, mark, after),
        }
    }
}

impl Sought {
    /// An entry, in single contents or in batches.
    pub(crate) fn entry(batches: bool, way: Way) -> Sought
        ensures { (id : IdValue) → place_of result id ≡ place_in batches (fits way id) }
    {
        if batches {
            Sought::InBatch(way)
        } else {
            Sought::Single(way)
        }
    }

    /// Where it is looked for.
    fn search(self, id: &WrittenId) -> Search
        ensures { (due : DueValue) → may_be_on result due ≡ false → place_of self id.now due ≡ None }
    {
        match self.awaited_mark(id) {
            Some(mark) => Search::Awaited(self.among(), mark),
            None => Search::Any(self.among(), self.mark(id)),
        }
    }

    /// Where only what must be answered is looked for: the mark of the id that its answer is expected to have.
    fn awaited_mark(self, id: &WrittenId) -> Option<u128>
        ensures { IfSome result (λ mark. (due : DueValue) → list_any (is_due_by mark) due.entries ≡ false →
            place_of self id.now due ≡ None) }
    {
        match self {
            Sought::Single(way) => awaited_mark(way, id),
            Sought::InBatch(way) => awaited_mark(way, id),
            Sought::Asked | Sought::Cancelled | Sought::Unreadable | Sought::Huge | Sought::Batch =>
                None,
        }
    }

    /// A mark that all contents have on which it is found.
    fn mark(self, id: &WrittenId) -> u128
        ensures { (due : DueValue) → due_has result due ≡ false → place_of self id.now due ≡ None }
    {
        match self {
            Sought::Single(way) => mark_of_way(way, id),
            Sought::InBatch(way) => mark_of_way(way, id),
            Sought::Asked => mark_of(id),
            Sought::Cancelled => mark_of(id),
            Sought::Unreadable => unreadable_mark(),
            Sought::Huge => huge_mark(),
            Sought::Batch => batch_mark(),
        }
    }

    /// Among which contents it is found.
    fn among(self) -> Among
        ensures { (id : IdValue) (due : DueValue) → is_among result due ≡ false → place_of self id due ≡ None }
    {
        match self {
            Sought::Single(_) => Among::Singles,
            Sought::InBatch(_) | Sought::Batch => Among::Batches,
            Sought::Asked | Sought::Cancelled | Sought::Unreadable | Sought::Huge => Among::All,
        }
    }

    /// Whether it is on a content.
    fn is_on(self, id: &WrittenId, due: &Due) -> bool
        ensures { result ≡ is_some (place_of self id.now due.now) }
    {
        match self {
            Sought::Single(way) => due.has(false, way, id),
            Sought::InBatch(way) => due.has(true, way, id),
            Sought::Asked => due.has_request(id),
            Sought::Cancelled => due.has_cancelled(id),
            Sought::Unreadable => due.is_unreadable(),
            Sought::Huge => due.has_huge(),
            Sought::Batch => due.is_batch(),
        }
    }
}

/// The number of the oldest content with what is looked for.
pub(crate) fn first(contents: &OpenContents, sought: Sought, id: &WrittenId) -> Option<u64>
    requires { IsOpen contents.now }
    ensures { result ≡ option_map (λ found. found.0) (first_of (place_of sought id.now) (open_entries contents.now)) }
{
    let search = sought.search(id);
    let mut after = 0;
    while let Some(number) = search.next(contents, after) {
        if is_at(contents, number, sought, id) {
            return Some(number);
        }
        after = number;
    }
    None
}

fn is_at(contents: &OpenContents, number: u64, sought: Sought, id: &WrittenId) -> bool
    requires { IsOpen contents.now }
    ensures { result ≡ is_some (option_and_then (place_of sought id.now) (at number (open_entries contents.now))) }
{
    match contents.get(number) {
        Some(due) => sought.is_on(id, due),
        None => false,
    }
}

/// Where what fits in a way must be answered: the mark of the id that its answer is expected to have.
fn awaited_mark(way: Way, id: &WrittenId) -> Option<u128>
    ensures { IfSome result (λ mark. (batches : Bool) (due : DueValue) → list_any (is_due_by mark) due.entries ≡ false →
        place_in batches (fits way id.now) due ≡ None) }
{
    match way {
        Way::Must => Some(mark_of(id)),
        _ => None,
    }
}

/// A mark that all entries have which fit in a way.
fn mark_of_way(way: Way, id: &WrittenId) -> u128
    ensures { (owed : OwedValue) → entry_has result owed ≡ false → fits way id.now owed ≡ false }
{
    match way {
        Way::Must => mark_of(id),
        Way::Asks => mark_of(id),
        Way::Expects => mark_of(id),
        Way::MayHave => mark_of(id),
        Way::AsksWithNull => null_mark(),
        Way::ExpectsNull => null_mark(),
        Way::Unnamed => null_mark(),
        Way::MayBeNull => null_mark(),
    }
}

/// Whether there is any.
pub(crate) fn is_there(contents: &OpenContents, sought: Sought, id: &WrittenId) -> bool
    requires { IsOpen contents.now }
    ensures { result ≡ is_some (first_of (place_of sought id.now) (open_entries contents.now)) }
{
    first(contents, sought, id).is_some()
}
