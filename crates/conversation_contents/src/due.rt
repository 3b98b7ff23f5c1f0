ghost use Rattle.std.specs.Prelude.{◌≡◌, ◌++◌, ◌∷◌, ◌==◌, ◌&&◌, [], not, is_some, slice_get, length, Some, if◌then◌else◌, IfOk, IfSome, MatchOption, OnOk, OnErr};
ghost use Rattle.std.specs.List.{list_any, position_or_len};
ghost use Rattle.std.specs.Option.{option_to_list};
ghost use Rattle.conversation_contents.specs.Entries.{HaveLost};
ghost use Rattle.conversation_contents.specs.Left.{IsLeftOf};
ghost use Rattle.conversation_contents.specs.Settled.{IsSettledAt, and_removed};
ghost use Rattle.conversation_rules.specs.Dues.{is_open, cancelled_in, fit_of, unanswered_of, unanswered_entry};
ghost use Rattle.conversation_rules.specs.Matching.{place_in, is_request_for};
ghost use Rattle.conversation_rules.specs.Owed.{new_due, unreadable_due};
ghost use Rattle.conversation_ids.specs.OwedMarks.{content_has, entry_has, due_has, uncancelled_has};
ghost use Rattle.conversation_ids.specs.Ways.{fits};

use crate::content_entries::Entries;
use crate::look::Look;
use crate::taken::Settled;
use conversation_ids::{EntryMarks, Owed, Way, batch_mark, huge_mark, unreadable_mark};
use conversation_reading::WrittenId;
use conversation_rules::{Fit, Unanswered};
use std::alloc::{AllocError, Global};
use std::marker::Model;

/// What is owed on a content.
#[derive(Drop)]
pub struct Due {
    number: u64,
    offset: u64,
    entries: Entries,
    is_batch: bool,
    is_unreadable: bool,
    has_huge: bool,
}

impl Model for Due {
    ghost use Rattle.conversation_rules.specs.Owed.{Due as DueValue};

    ghost Value = { DueValue };

    ghost use Rattle.conversation_contents.specs.Entries.{AreEntries, entries_of};

    ghost view = { λ d. record {
      number = d.number;
      offset = d.offset;
      entries = entries_of d.entries;
      is_batch = d.is_batch;
      is_unreadable = d.is_unreadable;
      has_huge = d.has_huge;
    } };

    ghost invariant = { λ d. AreEntries d.entries };
}

impl Due {
    pub fn new(alloc: Global, number: u64, offset: u64, is_batch: bool, has_huge: bool) -> Due
        ensures { result ≡ new_due number offset is_batch has_huge }
    {
        Due {
            number,
            offset,
            entries: Entries::new(alloc),
            is_batch,
            is_unreadable: false,
            has_huge,
        }
    }

    pub fn unreadable(alloc: Global, number: u64, offset: u64) -> Due
        ensures { result ≡ unreadable_due number offset }
    {
        Due {
            number,
            offset,
            entries: Entries::new(alloc),
            is_batch: false,
            is_unreadable: true,
            has_huge: false,
        }
    }

    /// Its entries, where they stand in one list with no others.
    pub fn in_line(&self) -> Option<&[Owed]>
        ensures { IfSome result (λ entries. entries.now ≡ self.now.entries) }
    {
        self.entries.in_line()
    }

    /// A list in which its entries stand, and their places in it.
    pub fn placed(&self, alloc: Global) -> Result<(&[Owed], Vec<usize>), AllocError>
        ensures { IfOk result (λ all. IsLeftOf (slice_get all.0.now) all.1.items self.now.entries) }
    {
        self.entries.placed(alloc)
    }

    pub fn is_batch(&self) -> bool
        ensures { result ≡ self.now.is_batch }
    {
        self.is_batch
    }

    pub fn is_unreadable(&self) -> bool
        ensures { result ≡ self.now.is_unreadable }
    {
        self.is_unreadable
    }

    pub fn has_huge(&self) -> bool
        ensures { result ≡ self.now.has_huge }
    {
        self.has_huge
    }

    pub fn has_entries(&self) -> bool
        ensures { result ≡ not (length self.now.entries == 0) }
    {
        !self.entries.is_empty()
    }

    /// Whether it is found by a mark, as a content or by one of its entries.
    pub fn has_mark(&self, mark: u128) -> bool
        ensures { result ≡ due_has mark self.now }
    {
        self.has_content_mark(mark) || self.has_entry_mark(mark)
    }

    /// Whether a request is open on it whose cancel wasn't seen, by a mark of the id that its answer is expected to have.
    pub fn has_uncancelled(&self, mark: u128) -> bool
        ensures { result ≡ uncancelled_has mark self.now }
    {
        self.entries.any(Look::Uncancelled(mark), &WrittenId::Null)
    }

    fn has_entry_mark(&self, mark: u128) -> bool
        ensures { result ≡ list_any (entry_has mark) self.now.entries }
    {
        self.entries.any(Look::Expects(mark), &WrittenId::Null)
            || self.entries.any(Look::Allows(mark), &WrittenId::Null)
    }

    fn has_content_mark(&self, mark: u128) -> bool
        ensures { result ≡ content_has mark self.now }
    {
        (self.is_unreadable && unreadable_mark() == mark)
            || (self.has_huge && huge_mark() == mark)
            || (self.is_batch && batch_mark() == mark)
    }

    /// Whether anything on it may be answered.
    pub fn is_open(&self) -> bool
        ensures { result ≡ is_open self.now }
    {
        self.has_entries() || self.is_unreadable || self.has_huge
    }

    /// Whether an entry fits, where it is such a content.
    pub fn has(&self, batches: bool, way: Way, id: &WrittenId) -> bool
        ensures { result ≡ is_some (place_in batches (fits way id.now) self.now) }
    {
        if self.is_of(batches) {
            self.entries.any(Look::Fits(way), id)
        } else {
            false
        }
    }

    fn is_of(&self, batches: bool) -> bool
        ensures { result ≡ (if batches then self.now.is_batch else not self.now.is_batch) }
    {
        self.is_batch == batches
    }

    pub fn has_request(&self, id: &WrittenId) -> bool
        ensures { result ≡ list_any (is_request_for id.now) self.now.entries }
    {
        self.entries.any(Look::Fits(Way::Asks), id)
    }

    pub fn has_cancelled(&self, id: &WrittenId) -> bool
        ensures { result ≡ list_any (λ owed. is_request_for id.now owed && owed.is_cancelled) self.now.entries }
    {
        self.entries.any(Look::Cancelled, id)
    }

    pub fn push(&mut self, owed: Owed) -> Result<(), AllocError>
        ensures ok { OnOk result (self.new ≡ record self.old { entries = self.old.entries ++ owed ∷ [] }) }
        ensures err { OnErr result (self.new ≡ self.old) }
    {
        self.entries.push(owed)?;
        Ok(())
    }

    /// What is told of an entry of it.
    pub fn fit_of(&self, owed: &Owed) -> Fit
        ensures { result ≡ fit_of self.now owed.now }
    {
        Fit {
            in_batch: self.is_batch,
            is_request: owed.is_request(),
            is_cancelled: owed.is_cancelled(),
        }
    }

    /// Takes the first entry off that fits, and tells of it.
    pub fn take_first(&mut self, alloc: Global, way: Way, id: &WrittenId) -> Option<Settled>
        ensures settled { IsSettledAt (Some self.old) (position_or_len (fits way id.now) self.old.entries) result }
        ensures entries { self.new ≡ and_removed (position_or_len (fits way id.now) self.old.entries) self.old }
    {
        match self.entries.take_first(alloc, way, id) {
            Some(taken) => Some(Settled {
                fit: taken.fit(self.is_batch),
                marks: taken.marks,
                is_last: self.entries.is_empty(),
            }),
            None => None,
        }
    }

    /// Takes any entry off, and answers its marks.
    pub fn pop(&mut self) -> Option<EntryMarks>
        ensures lost { MatchOption result
            (self.old.entries ≡ [])
            (λ marks. HaveLost marks self.old.entries self.new.entries) }
        ensures others { self.new ≡ record self.old { entries = self.new.entries } }
    {
        self.entries.pop()
    }

    pub fn cancel(&mut self, id: &WrittenId, settles: bool)
        ensures { self.new ≡ cancelled_in settles id.now self.old }
    {
        self.entries.cancel(id, settles);
    }

    /// Puts what must be answered, and isn't, behind the others.
    pub fn put_unanswered(
        &self,
        alloc: Global,
        told: &mut Vec<Unanswered>,
    ) -> Result<(), AllocError>
        ensures { OnOk result (told.new.items ≡ told.old.items ++ unanswered_of self.now self.now.entries) }
    {
        match self.entries.in_line() {
            Some(entries) => self.put_each(entries, told),
            None => self.put_placed(alloc, told),
        }
    }

    /// Puts those that must be answered of these.
    fn put_each(&self, entries: &[Owed], told: &mut Vec<Unanswered>) -> Result<(), AllocError>
        ensures { OnOk result (told.new.items ≡ told.old.items ++ unanswered_of self.now entries.now) }
    {
        for owed in entries {
            self.put_one(owed, told)?;
        }
        Ok(())
    }

    fn put_placed(&self, alloc: Global, told: &mut Vec<Unanswered>) -> Result<(), AllocError>
        ensures { OnOk result (told.new.items ≡ told.old.items ++ unanswered_of self.now self.now.entries) }
    {
        let (entries, places) = self.entries.placed(alloc)?;
        for place in places.as_slice() {
            self.put_at(entries, *place, told)?;
        }
        Ok(())
    }

    fn put_at(
        &self,
        entries: &[Owed],
        place: usize,
        told: &mut Vec<Unanswered>,
    ) -> Result<(), AllocError>
        ensures { OnOk result (told.new.items ≡
            told.old.items ++ unanswered_of self.now (option_to_list (slice_get entries.now place))) }
    {
        if let Some(owed) = entries.get(place) {
            self.put_one(owed, told)?;
        }
        Ok(())
    }

    fn put_one(&self, owed: &Owed, told: &mut Vec<Unanswered>) -> Result<(), AllocError>
        ensures { OnOk result (told.new.items ≡ told.old.items ++ unanswered_of self.now (owed.now ∷ [])) }
    {
        if owed.must() {
            told.push(self.unanswered(owed))?;
        }
        Ok(())
    }

    fn unanswered(&self, owed: &Owed) -> Unanswered
        ensures { result ≡ unanswered_entry self.now owed.now }
    {
        Unanswered {
            number: self.number,
            offset: self.offset,
            entry: owed.place(),
            may_be_refused: self.is_batch || self.has_huge,
            may_be_answered: false,
        }
    }
}
