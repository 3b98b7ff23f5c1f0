//! Contents of one kind, by their marks. Those with a request whose cancel wasn't seen stand apart as well, since each
//! cancel looks for these, and what must be answered is mostly among them.

ghost use Rattle.std.specs.Prelude.{◌≡◌, ◌<◌, ◌&&◌, ℕ, not, false, OnOk, MatchOption};
ghost use Rattle.conversation_ids.specs.OwedMarks.{content_has, due_has, is_mark, marks_have, uncancelled_has};
ghost use Rattle.conversation_contents.specs.Numbers.{has_number};
ghost use Rattle.conversation_open.specs.Marked.{set_of, KeepsBoth, IsBothWithout, IsNotedAs, IsSameBothBut};

use crate::marking;
use conversation_contents::{Due, NumbersByMark};
use conversation_ids::EntryMarks;
use std::alloc::{AllocError, Global};

/// Which of them are looked for.
#[derive(Clone, Copy)]
pub(crate) enum Which {
    Any,
    /// Those with a request whose cancel wasn't seen, by the id that its answer is expected to have.
    Uncancelled,
}

#[derive(Drop)]
pub(crate) struct MarkedContents {
    all: NumbersByMark,
    uncancelled: NumbersByMark,
}

impl MarkedContents {
    /// Takes no memory.
    pub(crate) fn new(alloc: Global) -> MarkedContents
        ensures all { (mark number : ℕ) → has_number result.all mark number ≡ false }
        ensures uncancelled { (mark number : ℕ) → has_number result.uncancelled mark number ≡ false }
    {
        MarkedContents {
            all: NumbersByMark::new(alloc),
            uncancelled: NumbersByMark::new(alloc),
        }
    }

    /// The least number of this mark above `after`.
    pub(crate) fn next(&self, which: Which, mark: u128, after: u64) -> Option<u64>
        ensures { MatchOption result
            ((n : ℕ) → after < n → has_number (set_of which self.now) mark n ≡ false)
            (λ number. (after < number) ×
            ((n : ℕ) → after < n → n < number → has_number (set_of which self.now) mark n ≡ false)) }
    {
        match which {
            Which::Any => self.all.next(mark, after),
            Which::Uncancelled => self.uncancelled.next(mark, after),
        }
    }

    /// Notes a content, whatever its entries are. On an error it may stand under some of its marks.
    pub(crate) fn note_content(&mut self, due: &Due, number: u64) -> Result<(), AllocError>
        ensures noted { OnOk result (IsNotedAs (λ mark. content_has mark due.now) (λ mark. false) number self.new) }
        ensures kept { KeepsBoth self.new self.old }
        ensures others { IsSameBothBut (λ mark. content_has mark due.now) (λ mark. false) number self.new self.old }
    {
        marking::note_content(&mut self.all, due, number)
    }

    /// Notes an entry of a content. On an error that may stand under some of these marks.
    pub(crate) fn note_entry(&mut self, entry: &EntryMarks, number: u64) -> Result<(), AllocError>
        ensures noted { OnOk result (IsNotedAs (marks_have entry.now) (is_mark entry.now.request) number self.new) }
        ensures kept { KeepsBoth self.new self.old }
        ensures others { IsSameBothBut (marks_have entry.now) (is_mark entry.now.request) number self.new self.old }
    {
        marking::note_some(entry.request, &mut self.uncancelled, number)?;
        marking::note_entry(&mut self.all, entry, number)
    }

    /// Forgets a content under the marks of an entry that it has no longer, as far as it isn't found by them still.
    pub(crate) fn forget_entry(&mut self, entry: &EntryMarks, due: &Due, number: u64)
        ensures { IsBothWithout (λ mark. marks_have entry.now mark && not (due_has mark due.now))
            (λ mark. is_mark entry.now.request mark && not (uncancelled_has mark due.now)) number self.new self.old }
    {
        marking::forget_unless_uncancelled(&mut self.uncancelled, entry.request, due, number);
        marking::forget_entry(&mut self.all, entry, due, number);
    }

    /// Forgets a content.
    pub(crate) fn forget_content(&mut self, due: Due, number: u64)
        ensures { IsBothWithout (λ mark. due_has mark due) (λ mark. uncancelled_has mark due) number
            self.new self.old }
    {
        marking::forget_content(&mut self.all, &mut self.uncancelled, due, number);
    }
}
