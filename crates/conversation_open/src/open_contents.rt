ghost use Rattle.std.specs.Prelude.{ℕ, ◌≡◌, ◌<◌, ◌++◌, ◌∷◌, ◌&&◌, [], map, length, not, true, false, Some, is_some, if◌then◌else◌, OnOk, OnErr, MatchOption, option_and_then, option_copied};
ghost use Rattle.std.specs.Option.{option_map_or};
ghost use Rattle.conversation_open.specs.Open.{open_entries, contents_of, among_has, among_is_due, is_uncancelled_if_due, AreFixedBetween, AreFixedBehind, IsOpen, IsNoneBetween, IsNoneBehind, last_number, is_open_at, settled_at, unanswered_at};
ghost use Rattle.conversation_contents.specs.Settled.{IsSettledAt, is_empty, and_owed, and_removed, place_at};
ghost use Rattle.conversation_open.specs.Within.{IsOpenWithin};
ghost use Rattle.conversation_ids.specs.OwedMarks.{entry_has, is_mark, marks_have, request_has};
ghost use Rattle.conversation_ids.specs.Ways.{fits};
ghost use Rattle.conversation_rules.specs.Dues.{owed_more, closed, cancelled_in, fit_in, unanswered};
ghost use Rattle.conversation_rules.specs.Owed.{Due as DueValue, new_due, unreadable_due};
ghost use Rattle.number_windows.specs.Numbered.{at, without, changed_at};

use crate::among::Among;
use crate::in_window::{cancel_at, push_at, take_at};
use crate::index::Index;
use crate::marked_contents::Which;
use conversation_contents::{Due, Settled};
use conversation_ids::{EntryMarks, Owed, Way, mark_of};
use conversation_reading::WrittenId;
use conversation_rules::{Fit, Unanswered};
use number_windows::NumberWindow;
use std::alloc::{AllocError, Global};

/// The contents on which something is owed, by numbers that ascend as they come. `IsOpen` holds at each call: an index has
/// each of them under its marks, and nothing else.
#[derive(Drop)]
pub struct OpenContents {
    alloc: Global,
    dues: NumberWindow<Due>,
    index: Index,
    /// No number is greater.
    last: u64,
    /// Each entry that must be answered is a request which no cancel has reached. So these stand among the uncancelled
    /// ones of the index, and what a cancel has reached needn't be looked through. One that settles nothing ends this.
    due_are_uncancelled: bool,
}

impl OpenContents {
    /// Takes no memory.
    pub fn new(alloc: Global) -> OpenContents
        ensures entries { open_entries result ≡ [] }
        ensures stands { IsOpen result }
    {
        OpenContents {
            alloc,
            dues: NumberWindow::new(alloc),
            index: Index::new(alloc),
            last: 0,
            due_are_uncancelled: true,
        }
    }

    /// How many there are.
    pub fn len(&self) -> u64
        requires { IsOpen self.now }
        ensures { result ≡ length (open_entries self.now) }
    {
        self.dues.len()
    }

    /// The content with this number.
    pub fn get(&self, number: u64) -> Option<&Due>
        requires { IsOpen self.now }
        ensures { option_copied result ≡ at number (open_entries self.now) }
    {
        self.dues.get(number)
    }

    /// The least number behind `after` under a mark, among such contents. Just those with this mark stand there.
    pub fn next_with(&self, among: Among, mark: u128, after: u64) -> Option<u64>
        requires { IsOpen self.now }
        ensures { MatchOption result
            (IsNoneBehind (among_has among mark) after (open_entries self.now))
            (λ number. (after < number) × IsNoneBetween (among_has among mark) after number (open_entries self.now)) }
    {
        self.index.next(among, Which::Any, mark, after)
    }

    /// The same of those with an entry that must be answered, and whose answer is expected to have an id of this mark.
    /// What cancels have settled isn't looked through.
    pub fn next_due(&self, among: Among, mark: u128, after: u64) -> Option<u64>
        requires { IsOpen self.now }
        ensures { MatchOption result
            (IsNoneBehind (among_is_due among mark) after (open_entries self.now))
            (λ number. (after < number) ×
            IsNoneBetween (among_is_due among mark) after number (open_entries self.now)) }
    {
        if self.due_are_uncancelled {
            self.index.next(among, Which::Uncancelled, mark, after)
        } else {
            self.index.next(among, Which::Any, mark, after)
        }
    }

    /// Begins a content. Nothing is owed on it yet.
    pub fn open(
        &mut self,
        number: u64,
        offset: u64,
        is_batch: bool,
        has_huge: bool,
    ) -> Result<(), AllocError>
        requires { IsOpen self.old }
        ensures ok { OnOk result (contents_of (open_entries self.new) ≡
            contents_of (open_entries self.old) ++ new_due number offset is_batch has_huge ∷ []) }
        ensures err { OnErr result (open_entries self.new ≡ open_entries self.old) }
        ensures stands { IsOpen self.new }
    {
        let due = Due::new(self.alloc, number, offset, is_batch, has_huge);
        self.add(due)
    }

    /// A content that can't be read.
    pub fn open_unreadable(&mut self, number: u64, offset: u64) -> Result<(), AllocError>
        requires { IsOpen self.old }
        ensures ok { OnOk result (contents_of (open_entries self.new) ≡
            contents_of (open_entries self.old) ++ unreadable_due number offset ∷ []) }
        ensures err { OnErr result (open_entries self.new ≡ open_entries self.old) }
        ensures stands { IsOpen self.new }
    {
        let due = Due::unreadable(self.alloc, number, offset);
        self.add(due)
    }

    /// Adds a content without entries.
    fn add(&mut self, due: Due) -> Result<(), AllocError>
        requires stands { IsOpen self.old }
        requires none { due.entries ≡ [] }
        ensures ok { OnOk result (contents_of (open_entries self.new) ≡ contents_of (open_entries self.old) ++ due ∷ []) }
        ensures err { OnErr result (open_entries self.new ≡ open_entries self.old) }
        ensures stands { IsOpen self.new }
    {
        let number = match self.last.checked_add(1) {
            Some(number) => number,
            None => return Err(AllocError),
        };
        self.dues.make_room()?;
        if let Err(error) = self.index.note_content(&due, number) {
            self.index.forget_content(due, number);
            return Err(error);
        }
        self.dues.push(number, due);
        self.last = number;
        Ok(())
    }

    /// One more entry of the last content.
    pub fn owe(&mut self, owed: Owed) -> Result<(), AllocError>
        requires { IsOpen self.old }
        ensures ok { OnOk result (contents_of (open_entries self.new) ≡ owed_more owed (contents_of (open_entries self.old))) }
        ensures err { OnErr result (open_entries self.new ≡ open_entries self.old) }
        ensures stands { IsOpen self.new }
    {
        let number = match self.last_number() {
            Some(number) => number,
            None => return Ok(()),
        };
        let entry = owed.marks();
        if let Err(error) = self.owe_under(number, &entry, owed) {
            self.forget(number, &entry);
            return Err(error);
        }
        Ok(())
    }

    /// One more entry of a content, which has these marks. On an error the content may stand under some of them already.
    fn owe_under(&mut self, number: u64, entry: &EntryMarks, owed: Owed) -> Result<(), AllocError>
        requires stands { IsOpen self.old }
        requires there { is_some (at number (open_entries self.old)) ≡ true }
        requires entry { (mark : ℕ) → marks_have entry.now mark ≡ entry_has mark owed }
        requires request { (mark : ℕ) → is_mark entry.now.request mark ≡ request_has mark owed }
        ensures ok { OnOk result
            (open_entries self.new ≡ changed_at number (and_owed owed) (open_entries self.old)) }
        ensures stands { OnOk result (IsOpen self.new) }
        ensures err { OnErr result (open_entries self.new ≡ open_entries self.old) }
        ensures within { OnErr result (IsOpenWithin entry.now number self.new) }
    {
        let is_batch = self.is_batch_at(number);
        self.index.note_entry(is_batch, entry, number)?;
        self.due_are_uncancelled &= is_uncancelled_if_due(&owed);
        push_at(self.alloc, &mut self.dues, number, owed)
    }

    /// The last content has no more entries: it is forgotten where nothing on it may be answered.
    pub fn close(&mut self)
        requires { IsOpen self.old }
        ensures entries { contents_of (open_entries self.new) ≡ closed (contents_of (open_entries self.old)) }
        ensures stands { IsOpen self.new }
    {
        if let Some(number) = self.last_number() {
            if !self.is_open_at(number) {
                self.remove(number);
            }
        }
    }

    /// A cancel of the requests with this id was seen.
    pub fn cancel(&mut self, id: &WrittenId, settles: bool)
        requires { IsOpen self.old }
        ensures entries { contents_of (open_entries self.new) ≡ map (cancelled_in settles id.now) (contents_of (open_entries self.old)) }
        ensures stands { IsOpen self.new }
    {
        let mut after = 0;
        while let Some(number) = self.next_to_cancel(id, settles, after) {
            self.cancel_in(number, id, settles);
            after = number;
        }
    }

    /// The next content that a cancel may change.
    fn next_to_cancel(&self, id: &WrittenId, settles: bool, after: u64) -> Option<u64>
        requires { IsOpen self.now }
        ensures { MatchOption result
            (AreFixedBehind (cancelled_in settles id.now) after (open_entries self.now))
            (λ number. (after < number) × AreFixedBetween (cancelled_in settles id.now) after number (open_entries self.now)) }
    {
        let mark = mark_of(id);
        if self.may_change_cancelled(settles) {
            self.next_with(Among::All, mark, after)
        } else {
            self.index.next(Among::All, Which::Uncancelled, mark, after)
        }
    }

    /// Whether a cancel may change what another one has reached: one that settles may, where that one left it due.
    fn may_change_cancelled(&self, settles: bool) -> bool
        ensures { result ≡ (settles && not self.now.due_are_uncancelled) }
    {
        settles && !self.due_are_uncancelled
    }

    fn cancel_in(&mut self, number: u64, id: &WrittenId, settles: bool)
        requires { IsOpen self.old }
        ensures entries { open_entries self.new ≡ changed_at number (cancelled_in settles id.now) (open_entries self.old) }
        ensures stands { IsOpen self.new }
    {
        self.due_are_uncancelled &= settles;
        cancel_at(self.alloc, &mut self.dues, number, id, settles);
        self.forget(number, &EntryMarks::of_request(mark_of(id)));
    }

    /// Takes the first entry off a content that fits, and tells of it. The content is forgotten where that was its last.
    pub fn settle_first(&mut self, number: u64, way: Way, id: &WrittenId) -> Option<Fit>
        requires { IsOpen self.old }
        ensures fit { result ≡ option_and_then (fit_in (place_at (fits way id.now) (at number (open_entries self.old))))
            (at number (open_entries self.old)) }
        ensures entries { open_entries self.new ≡
            settled_at number (place_at (fits way id.now) (at number (open_entries self.old))) (open_entries self.old) }
        ensures stands { IsOpen self.new }
    {
        match self.take_in(number, way, id) {
            Some(settled) => {
                self.remove_if(settled.is_last, number);
                Some(settled.fit)
            }
            None => {
                self.remove_if(self.is_empty_at(number), number);
                None
            }
        }
    }

    fn remove_if(&mut self, is_last: bool, number: u64)
        requires { IsOpen self.old }
        ensures entries { open_entries self.new ≡
            (if is_last then without number (open_entries self.old) else open_entries self.old) }
        ensures stands { IsOpen self.new }
    {
        if is_last {
            self.remove(number);
        }
    }

    /// Takes a content off.
    pub fn remove(&mut self, number: u64)
        requires { IsOpen self.old }
        ensures entries { open_entries self.new ≡ without number (open_entries self.old) }
        ensures stands { IsOpen self.new }
    {
        if let Some(due) = self.dues.remove(number) {
            self.index.forget_content(due, number);
        }
    }

    /// Puts the requests that must be answered, and aren't, behind the others.
    pub fn put_unanswered(&self, told: &mut Vec<Unanswered>) -> Result<(), AllocError>
        requires { IsOpen self.now }
        ensures { OnOk result (told.new.items ≡ told.old.items ++ unanswered (contents_of (open_entries self.now))) }
    {
        let mut after = 0;
        while let Some(number) = self.dues.next(after) {
            self.put_unanswered_at(number, told)?;
            after = number;
        }
        Ok(())
    }

    fn put_unanswered_at(&self, number: u64, told: &mut Vec<Unanswered>) -> Result<(), AllocError>
        requires { IsOpen self.now }
        ensures { OnOk result (told.new.items ≡ told.old.items ++ unanswered_at number (open_entries self.now)) }
    {
        match self.dues.get(number) {
            Some(due) => due.put_unanswered(self.alloc, told),
            None => Ok(()),
        }
    }

    /// The number of the content that came last. It is looked for only where that one has gone already.
    fn last_number(&self) -> Option<u64>
        requires { IsOpen self.now }
        ensures { result ≡ last_number (open_entries self.now) }
    {
        if self.has(self.last) {
            return Some(self.last);
        }
        let mut number = match self.dues.first() {
            Some(first) => first,
            None => return None,
        };
        while let Some(next) = self.dues.next(number) {
            number = next;
        }
        Some(number)
    }

    fn has(&self, number: u64) -> bool
        requires { IsOpen self.now }
        ensures { result ≡ is_some (at number (open_entries self.now)) }
    {
        match self.dues.get(number) {
            Some(_) => true,
            None => false,
        }
    }

    fn is_batch_at(&self, number: u64) -> bool
        requires { IsOpen self.now }
        ensures { (due : DueValue) → at number (open_entries self.now) ≡ Some due → result ≡ due.is_batch }
    {
        match self.dues.get(number) {
            Some(due) => due.is_batch(),
            None => false,
        }
    }

    fn is_open_at(&self, number: u64) -> bool
        requires { IsOpen self.now }
        ensures { result ≡ is_open_at number (open_entries self.now) }
    {
        match self.dues.get(number) {
            Some(due) => due.is_open(),
            None => true,
        }
    }

    fn is_empty_at(&self, number: u64) -> bool
        requires { IsOpen self.now }
        ensures { result ≡ option_map_or is_empty (at number (open_entries self.now)) false }
    {
        match self.dues.get(number) {
            Some(due) => !due.has_entries(),
            None => false,
        }
    }

    /// Takes the first entry off a content that fits, and tells of it. The content stays.
    fn take_in(&mut self, number: u64, way: Way, id: &WrittenId) -> Option<Settled>
        requires { IsOpen self.old }
        ensures settled { IsSettledAt (at number (open_entries self.old))
            (place_at (fits way id.now) (at number (open_entries self.old))) result }
        ensures entries { open_entries self.new ≡
            changed_at number (and_removed (place_at (fits way id.now) (at number (open_entries self.old)))) (open_entries self.old) }
        ensures stands { IsOpen self.new }
    {
        match take_at(self.alloc, &mut self.dues, number, way, id) {
            Some(settled) => {
                self.forget(number, &settled.marks);
                Some(settled)
            }
            None => None,
        }
    }

    /// Forgets a content under marks that it has no longer.
    fn forget(&mut self, number: u64, entry: &EntryMarks)
        requires { IsOpenWithin entry.now number self.old }
        ensures entries { open_entries self.new ≡ open_entries self.old }
        ensures stands { IsOpen self.new }
    {
        if let Some(due) = self.dues.get(number) {
            self.index.forget_entry(entry, due, number);
        }
    }
}

fn is_uncancelled_if_due(owed: &Owed) -> bool
    ensures { result ≡ is_uncancelled_if_due owed.now }
{
    !owed.must() || (owed.is_request() && !owed.is_cancelled())
}
