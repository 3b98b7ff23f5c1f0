//! What is looked for among entries, and the keys by which it is found.

ghost use Rattle.std.specs.Prelude.{◌≡◌, true};
ghost use Rattle.conversation_ids.specs.Ways.{fits};
ghost use Rattle.conversation_contents.specs.Left.{allows, has_key, holds, key_of};
ghost use Rattle.conversation_rules.specs.Owed.{Owed as OwedValue};

use conversation_ids::{Owed, Way, is_mark, mark_of, null_mark};
use conversation_reading::WrittenId;

/// By which of its ids an entry stands in an index. Each of these is apart, so that only those are looked at that fit,
/// however many others have the same id.
#[derive(Clone, Copy)]
pub(crate) enum Taking {
    /// The one that is expected, where the entry must be answered.
    Must,
    /// The one that is expected.
    Expected,
    /// One that its answer may have.
    Allowed,
}

impl Taking {
    /// Marks of ids are below 2^66.
    pub(crate) fn key(self, mark: u128) -> u128
        ensures { result ≡ key_of self mark }
    {
        match self {
            Taking::Must => mark.wrapping_add(1 << 67),
            Taking::Expected => mark.wrapping_add(1 << 66),
            Taking::Allowed => mark,
        }
    }
}

/// What is looked for among entries, by an id or by a mark.
#[derive(Clone, Copy)]
pub enum Look {
    /// An entry that fits an answer with an id.
    Fits(Way),
    /// A request with an id whose cancel was seen.
    Cancelled,
    /// One whose answer is expected to have an id of this mark.
    Expects(u128),
    /// One whose answer may have an id of this mark, whatever is expected.
    Allows(u128),
    /// A request whose cancel wasn't seen, and whose answer is expected to have an id of this mark.
    Uncancelled(u128),
}

impl Look {
    pub(crate) fn holds(self, id: &WrittenId, owed: &Owed) -> bool
        ensures { result ≡ holds self id.now owed.now }
    {
        match self {
            Look::Fits(way) => way.fits(id, owed),
            Look::Cancelled => owed.is_cancelled_request(id),
            Look::Expects(mark) => is_mark(owed.expected_mark(), mark),
            Look::Allows(mark) => allows(owed, mark),
            Look::Uncancelled(mark) => owed.is_uncancelled(mark),
        }
    }

    /// A key that all entries have for which it holds.
    pub(crate) fn key(self, id: &WrittenId) -> u128
        ensures { (owed : OwedValue) → holds self id.now owed ≡ true → has_key result owed ≡ true }
    {
        match self {
            Look::Fits(way) => key_of_way(way, id),
            Look::Cancelled => Taking::Expected.key(mark_of(id)),
            Look::Expects(mark) => Taking::Expected.key(mark),
            Look::Allows(mark) => Taking::Allowed.key(mark),
            Look::Uncancelled(mark) => Taking::Expected.key(mark),
        }
    }
}

/// A key that all entries have which fit in a way.
fn key_of_way(way: Way, id: &WrittenId) -> u128
    ensures { (owed : OwedValue) → fits way id.now owed ≡ true → has_key result owed ≡ true }
{
    match way {
        Way::Must => Taking::Must.key(mark_of(id)),
        Way::Asks => Taking::Expected.key(mark_of(id)),
        Way::Expects => Taking::Expected.key(mark_of(id)),
        Way::MayHave => Taking::Allowed.key(mark_of(id)),
        Way::AsksWithNull => Taking::Expected.key(null_mark()),
        Way::ExpectsNull => Taking::Expected.key(null_mark()),
        Way::Unnamed => Taking::Expected.key(null_mark()),
        Way::MayBeNull => Taking::Allowed.key(null_mark()),
    }
}

fn allows(owed: &Owed, mark: u128) -> bool
    ensures { result ≡ allows mark owed.now }
{
    is_mark(owed.first_mark(), mark)
        || is_mark(owed.own_mark(), mark)
        || (owed.may_be_null() && null_mark() == mark)
}
