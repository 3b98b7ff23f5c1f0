ghost use Rattle.std.specs.Prelude.{◌≡◌, ◌==◌, ◌&&◌, ◌||◌, ℕ, Some, None, true, false, not, is_some, option_map, option_and_then, if◌then◌else◌};
ghost use Rattle.std.specs.Option.{option_map_or};
ghost use Rattle.conversation_reading.specs.declared.entry.WrittenId.TheVariants.{Null};
ghost use Rattle.conversation_ids.specs.Marks.{mark_of, null_mark};
ghost use Rattle.conversation_ids.specs.Inner.{expected_as};
ghost use Rattle.conversation_ids.specs.OwedMarks.{has_mark, is_mark, marks_have, entry_has, request_has};
ghost use Rattle.conversation_rules.specs.Amounts.{is_odd, is_null};
ghost use Rattle.conversation_rules.specs.Dues.{cancelled};
ghost use Rattle.conversation_rules.specs.Matching.{is_due_for, is_request_for, expects_null, is_null_request, is_null_other, is_unnamed};
ghost use Rattle.conversation_rules.specs.Owed.{has_id, is_expected, may_have, request_owed, may_be_left, owed_on, empty_array_owed, only_params, expected_without_params};
ghost use Rattle.conversation_rules.specs.Protocols.{may_leave_null};

use crate::entry_marks::{EntryMarks, is_mark};
use crate::ids::{is_null, is_odd, same_id};
use crate::marks::{mark_of, null_mark};
use conversation_reading::{Entry, Faults, First, Kind, WrittenId};
use conversation_rules::Protocol;
use std::marker::Model;

/// The id that an answer is expected to have.
#[derive(Clone, Copy)]
pub(crate) enum Expects {
    /// That of the entry.
    ItsOwn,
    NullId,
    Nothing,
}

/// What an entry may be answered by.
#[derive(Drop)]
pub struct Owed {
    place: u64,
    must: bool,
    expects: Expects,
    own: Option<WrittenId>,
    /// Where a member stands twice: it has the id that stands first.
    first: Option<First>,
    may_be_null: bool,
    is_request: bool,
    is_cancelled: bool,
}

impl Model for Owed {
    ghost use Rattle.conversation_rules.specs.Owed.{Owed as OwedValue};

    ghost Value = { OwedValue };

    ghost use Rattle.std.specs.Prelude.{option_and_then};
    ghost use Rattle.conversation_ids.specs.Inner.{expected_as};

    ghost view = { λ o. record {
      place = o.place;
      must = o.must;
      expected = expected_as o.expects o.own;
      own = o.own;
      first = option_and_then (λ first. first.id) o.first;
      may_be_null = o.may_be_null;
      is_request = o.is_request;
      is_cancelled = o.is_cancelled;
    } };
}

impl Owed {
    /// What an entry may be answered by, if it may be at all. `place` is its place in its array, from 1, or 0. Takes no
    /// memory.
    pub fn on(protocol: Protocol, place: u64, entry: Entry) -> Option<Owed>
        ensures { result ≡ owed_on protocol place entry }
    {
        let Entry {
            kind,
            faults,
            id,
            null_params,
            first,
            ..
        } = entry;
        match kind {
            Kind::Request => {
                if first.is_some() {
                    let expects = expects_without_params(&id);
                    Some(Owed::may_be_left(place, expects, id, first))
                } else {
                    Some(Owed::request(protocol, place, id))
                }
            }
            Kind::Notification => {
                if first.is_some() {
                    Some(Owed::may_be_left(place, Expects::Nothing, None, None))
                } else {
                    None
                }
            }
            Kind::Answer => None,
            Kind::BrokenAnswer => Some(Owed::may_be_left(place, Expects::Nothing, id, first)),
            Kind::Invalid => {
                let expects = invalid_expects(&faults, null_params, &id);
                Some(Owed::may_be_left(place, expects, id, first))
            }
        }
    }

    /// What `[]` may be answered by.
    pub fn on_empty_array() -> Owed
        ensures { result ≡ empty_array_owed }
    {
        Owed::may_be_left(0, Expects::NullId, None, None)
    }

    fn request(protocol: Protocol, place: u64, id: Option<WrittenId>) -> Owed
        ensures { result ≡ request_owed protocol place id }
    {
        if is_odd_id(&id) {
            return Owed::may_be_left(place, Expects::NullId, id, None);
        }
        let must = !(may_leave_null(protocol) && is_null_id(&id));
        Owed {
            place,
            must,
            expects: Expects::ItsOwn,
            own: id,
            first: None,
            may_be_null: false,
            is_request: true,
            is_cancelled: false,
        }
    }

    fn may_be_left(
        place: u64,
        expects: Expects,
        own: Option<WrittenId>,
        first: Option<First>,
    ) -> Owed
        ensures { result ≡ may_be_left place (expected_as expects own) own (option_and_then (λ first. first.id) first) }
    {
        Owed {
            place,
            must: false,
            expects,
            own,
            first,
            may_be_null: true,
            is_request: false,
            is_cancelled: false,
        }
    }

    pub fn place(&self) -> u64
        ensures { result ≡ self.now.place }
    {
        self.place
    }

    pub fn must(&self) -> bool
        ensures { result ≡ self.now.must }
    {
        self.must
    }

    pub fn is_request(&self) -> bool
        ensures { result ≡ self.now.is_request }
    {
        self.is_request
    }

    pub fn is_cancelled(&self) -> bool
        ensures { result ≡ self.now.is_cancelled }
    {
        self.is_cancelled
    }

    pub fn may_be_null(&self) -> bool
        ensures { result ≡ self.now.may_be_null }
    {
        self.may_be_null
    }

    pub fn is_expected(&self, id: &WrittenId) -> bool
        ensures { result ≡ is_expected id.now self.now }
    {
        match self.expects {
            Expects::ItsOwn => has_id(id, &self.own),
            Expects::NullId => same_id(id, &WrittenId::Null),
            Expects::Nothing => false,
        }
    }

    /// Whether an answer is expected to have any id.
    pub fn expects_any(&self) -> bool
        ensures { result ≡ is_some self.now.expected }
    {
        match self.expects {
            Expects::ItsOwn => self.own.is_some(),
            Expects::NullId => true,
            Expects::Nothing => false,
        }
    }

    pub fn may_have(&self, id: &WrittenId) -> bool
        ensures { result ≡ may_have id.now self.now }
    {
        self.has_first(id) || has_id(id, &self.own) || (self.may_be_null && is_null(id))
    }

    fn has_first(&self, id: &WrittenId) -> bool
        ensures { result ≡ has_id id.now self.now.first }
    {
        match &self.first {
            Some(first) => has_id(id, first.id()),
            None => false,
        }
    }

    /// Whether it must be answered, and with this id.
    pub fn is_due_for(&self, id: &WrittenId) -> bool
        ensures { result ≡ is_due_for id.now self.now }
    {
        self.must && self.is_expected(id)
    }

    pub fn is_request_for(&self, id: &WrittenId) -> bool
        ensures { result ≡ is_request_for id.now self.now }
    {
        self.is_request && self.is_expected(id)
    }

    /// Whether it is a request with this id whose cancel was seen.
    pub fn is_cancelled_request(&self, id: &WrittenId) -> bool
        ensures { result ≡ (is_request_for id.now self.now && self.now.is_cancelled) }
    {
        self.is_cancelled && self.is_request_for(id)
    }

    fn expects_null(&self) -> bool
        ensures { result ≡ expects_null self.now }
    {
        match self.expects {
            Expects::ItsOwn => is_null_id(&self.own),
            Expects::NullId => true,
            Expects::Nothing => false,
        }
    }

    pub fn is_null_request(&self) -> bool
        ensures { result ≡ is_null_request self.now }
    {
        self.is_request && self.expects_null()
    }

    pub fn is_null_other(&self) -> bool
        ensures { result ≡ is_null_other self.now }
    {
        !self.is_request && self.expects_null()
    }

    pub fn is_unnamed(&self) -> bool
        ensures { result ≡ is_unnamed self.now }
    {
        self.is_null_other() && (self.own.is_none() || is_null_id(&self.own))
    }

    /// The mark of its own id.
    pub fn own_mark(&self) -> Option<u128>
        ensures { result ≡ option_map mark_of self.now.own }
    {
        id_mark(&self.own)
    }

    /// The mark of the id that its answer is expected to have.
    pub fn expected_mark(&self) -> Option<u128>
        ensures { result ≡ option_map mark_of self.now.expected }
    {
        match self.expects {
            Expects::ItsOwn => id_mark(&self.own),
            Expects::NullId => Some(null_mark()),
            Expects::Nothing => None,
        }
    }

    /// The mark of the id that stands first.
    pub fn first_mark(&self) -> Option<u128>
        ensures { result ≡ option_map mark_of self.now.first }
    {
        match &self.first {
            Some(first) => id_mark(first.id()),
            None => None,
        }
    }

    /// Whether it is found by the mark of null too, whatever its ids are.
    pub fn is_marked_null(&self) -> bool
        ensures { (mark : ℕ) → entry_has mark self.now ≡
            (has_mark mark self.now.first || (has_mark mark self.now.own || (result && null_mark == mark))) }
    {
        match self.expects {
            Expects::ItsOwn | Expects::Nothing => self.may_be_null,
            Expects::NullId => true,
        }
    }

    /// The marks by which it is found. Each is computed once.
    pub fn marks(&self) -> EntryMarks
        ensures entry { (mark : ℕ) → marks_have result mark ≡ entry_has mark self.now }
        ensures request { (mark : ℕ) → is_mark result.request mark ≡ request_has mark self.now }
    {
        let own = self.own_mark();
        EntryMarks {
            first: self.first_mark(),
            own,
            null: self.marked_null(),
            request: self.request_mark(own),
        }
    }

    fn marked_null(&self) -> Option<u128>
        ensures { (mark : ℕ) → entry_has mark self.now ≡
            (has_mark mark self.now.first || (has_mark mark self.now.own || is_mark result mark)) }
    {
        if self.is_marked_null() {
            Some(null_mark())
        } else {
            None
        }
    }

    fn request_mark(&self, own: Option<u128>) -> Option<u128>
        requires { own ≡ option_map mark_of self.now.own }
        ensures { (mark : ℕ) → is_mark result mark ≡ request_has mark self.now }
    {
        if !self.is_request || self.is_cancelled {
            return None;
        }
        match self.expects {
            Expects::ItsOwn => own,
            Expects::NullId => Some(null_mark()),
            Expects::Nothing => None,
        }
    }

    /// Whether it is found by a mark.
    pub fn has_mark(&self, mark: u128) -> bool
        ensures { result ≡ entry_has mark self.now }
    {
        let is_of_null = self.is_marked_null() && null_mark() == mark;
        is_mark(self.first_mark(), mark) || is_mark(self.own_mark(), mark) || is_of_null
    }

    /// Whether it is a request whose cancel wasn't seen, and its answer is expected to have an id of this mark.
    pub fn is_uncancelled(&self, mark: u128) -> bool
        ensures { result ≡ request_has mark self.now }
    {
        self.is_request && !self.is_cancelled && is_mark(self.expected_mark(), mark)
    }

    /// A cancel of this id was seen, which may settle that the request must be answered.
    pub fn cancel(&mut self, id: &WrittenId, settles: bool)
        ensures { self.new ≡ cancelled settles id.now self.old }
    {
        if self.is_request_for(id) {
            self.is_cancelled = true;
            self.must = self.must && !settles;
        }
    }
}

fn id_mark(id: &Option<WrittenId>) -> Option<u128>
    ensures { result ≡ option_map mark_of id.now }
{
    match id {
        Some(id) => Some(mark_of(id)),
        None => None,
    }
}

fn has_id(id: &WrittenId, other: &Option<WrittenId>) -> bool
    ensures { result ≡ has_id id.now other.now }
{
    match other {
        Some(other) => same_id(id, other),
        None => false,
    }
}

fn is_odd_id(id: &Option<WrittenId>) -> bool
    ensures { result ≡ option_map_or is_odd id.now false }
{
    match id {
        Some(id) => is_odd(id),
        None => false,
    }
}

fn is_null_id(id: &Option<WrittenId>) -> bool
    ensures { result ≡ option_map_or is_null id.now false }
{
    match id {
        Some(id) => is_null(id),
        None => false,
    }
}

/// What an invalid entry is expected to be answered by: null, or where only its params are at fault, and null, what it
/// would be without them.
fn invalid_expects(faults: &Faults, null_params: bool, id: &Option<WrittenId>) -> Expects
    ensures { expected_as result id.now ≡
        (if only_params faults.now && null_params then expected_without_params id.now else Some Null) }
{
    if only_params(faults) && null_params {
        expects_without_params(id)
    } else {
        Expects::NullId
    }
}

/// What a call is expected to be answered by as it would be without its params.
fn expects_without_params(id: &Option<WrittenId>) -> Expects
    ensures { expected_as result id.now ≡ expected_without_params id.now }
{
    if is_odd_id(id) {
        Expects::NullId
    } else {
        Expects::ItsOwn
    }
}

fn only_params(faults: &Faults) -> bool
    ensures { result ≡ only_params faults.now }
{
    let others = faults.object
        || faults.version
        || faults.method
        || faults.id
        || faults.outcome
        || faults.error;
    faults.params && !others
}

/// Whether a request with the id null may be left unanswered.
fn may_leave_null(protocol: Protocol) -> bool
    ensures { result ≡ may_leave_null protocol }
{
    match protocol {
        Protocol::JsonRpc => false,
        Protocol::Lsp
        | Protocol::Mcp
        | Protocol::Mcp20250618
        | Protocol::Mcp20250326
        | Protocol::Mcp20241105 => true,
    }
}
