//! By which contents are found. Those that are no batches and batches stand apart, so that the ones aren't looked through
//! where the others are asked for.

ghost use Rattle.std.specs.Prelude.{◌≡◌, ◌<◌, ◌&&◌, ℕ, not, false, OnOk, MatchOption};
ghost use Rattle.std.specs.Borrow.{sem};
ghost use Rattle.conversation_ids.specs.OwedMarks.{content_has, due_has, is_mark, marks_have, uncancelled_has};
ghost use Rattle.conversation_open.specs.Lending.{LendsKind};
ghost use Rattle.conversation_open.specs.Marked.{has_among, earlier_of, of_kind, KeepsBoth, IsBothWithout, IsNotedAs, IsSameBothBut};
ghost use Rattle.conversation_contents.specs.Numbers.{has_number};

use crate::among::Among;
use crate::marked_contents::{MarkedContents, Which};
use conversation_contents::Due;
use conversation_ids::EntryMarks;
use std::alloc::{AllocError, Global};

#[derive(Drop)]
pub(crate) struct Index {
    singles: MarkedContents,
    batches: MarkedContents,
}

impl Index {
    /// Takes no memory.
    pub(crate) fn new(alloc: Global) -> Index
        ensures singles { (mark number : ℕ) → has_number result.singles.all mark number ≡ false }
        ensures batches { (mark number : ℕ) → has_number result.batches.all mark number ≡ false }
        ensures uncancelled_singles { (mark number : ℕ) → has_number result.singles.uncancelled mark number ≡ false }
        ensures uncancelled_batches { (mark number : ℕ) → has_number result.batches.uncancelled mark number ≡ false }
    {
        Index {
            singles: MarkedContents::new(alloc),
            batches: MarkedContents::new(alloc),
        }
    }

    /// The least number of this mark above `after`.
    pub(crate) fn next(&self, among: Among, which: Which, mark: u128, after: u64) -> Option<u64>
        ensures { MatchOption result
            ((n : ℕ) → after < n → has_among among which self.now mark n ≡ false)
            (λ number. (after < number) ×
            ((n : ℕ) → after < n → n < number → has_among among which self.now mark n ≡ false)) }
    {
        match among {
            Among::Singles => self.singles.next(which, mark, after),
            Among::Batches => self.batches.next(which, mark, after),
            Among::All => {
                earlier(
                    self.singles.next(which, mark, after),
                    self.batches.next(which, mark, after),
                )
            }
        }
    }

    /// Notes a content, whatever its entries are. On an error it may stand under some of its marks.
    pub(crate) fn note_content(&mut self, due: &Due, number: u64) -> Result<(), AllocError>
        ensures noted { OnOk result
            (IsNotedAs (λ mark. content_has mark due.now) (λ mark. false) number (of_kind due.now.is_batch self.new)) }
        ensures kept { KeepsBoth (of_kind due.now.is_batch self.new) (of_kind due.now.is_batch self.old) }
        ensures others { IsSameBothBut (λ mark. content_has mark due.now) (λ mark. false) number
            (of_kind due.now.is_batch self.new) (of_kind due.now.is_batch self.old) }
        ensures other_kind { of_kind (not due.now.is_batch) self.new ≡ of_kind (not due.now.is_batch) self.old }
    {
        self.kind(due.is_batch()).note_content(due, number)
    }

    /// Notes an entry of a content. On an error that may stand under some of these marks.
    pub(crate) fn note_entry(
        &mut self,
        is_batch: bool,
        entry: &EntryMarks,
        number: u64,
    ) -> Result<(), AllocError>
        ensures noted { OnOk result
            (IsNotedAs (marks_have entry.now) (is_mark entry.now.request) number (of_kind is_batch self.new)) }
        ensures kept { KeepsBoth (of_kind is_batch self.new) (of_kind is_batch self.old) }
        ensures others { IsSameBothBut (marks_have entry.now) (is_mark entry.now.request) number
            (of_kind is_batch self.new) (of_kind is_batch self.old) }
        ensures other_kind { of_kind (not is_batch) self.new ≡ of_kind (not is_batch) self.old }
    {
        self.kind(is_batch).note_entry(entry, number)
    }

    /// Forgets a content under the marks of an entry that it has no longer, as far as it isn't found by them still.
    pub(crate) fn forget_entry(&mut self, entry: &EntryMarks, due: &Due, number: u64)
        ensures here { IsBothWithout (λ mark. marks_have entry.now mark && not (due_has mark due.now))
            (λ mark. is_mark entry.now.request mark && not (uncancelled_has mark due.now)) number
            (of_kind due.now.is_batch self.new) (of_kind due.now.is_batch self.old) }
        ensures other_kind { of_kind (not due.now.is_batch) self.new ≡ of_kind (not due.now.is_batch) self.old }
    {
        self.kind(due.is_batch()).forget_entry(entry, due, number);
    }

    /// Forgets a content.
    pub(crate) fn forget_content(&mut self, due: Due, number: u64)
        ensures here { IsBothWithout (λ mark. due_has mark due) (λ mark. uncancelled_has mark due) number
            (of_kind due.is_batch self.new) (of_kind due.is_batch self.old) }
        ensures other_kind { of_kind (not due.is_batch) self.new ≡ of_kind (not due.is_batch) self.old }
    {
        self.kind(due.is_batch()).forget_content(due, number);
    }

    /// The contents of a kind.
    fn kind(&mut self, is_batch: bool) -> &mut MarkedContents
        ensures* writes_back { sem 𝓛 (LendsKind is_batch self.entry result) }
        ensures value { result.now ≡ of_kind is_batch self.old }
    {
        if is_batch {
            &mut self.batches
        } else {
            &mut self.singles
        }
    }
}

fn earlier(first: Option<u64>, second: Option<u64>) -> Option<u64>
    ensures { result ≡ earlier_of first second }
{
    match (first, second) {
        (Some(first), Some(second)) => Some(first.min(second)),
        (Some(first), None) => Some(first),
        (None, second) => second,
    }
}
