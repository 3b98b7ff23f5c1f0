//! What is kept of a content in the index.

ghost use Rattle.std.specs.List.{list_any};
ghost use Rattle.std.specs.Prelude.{◌≡◌, ◌==◌, ◌&&◌, ℕ, OnOk, not, true, false};
ghost use Rattle.conversation_contents.specs.Numbers.{has_number, Keeps};
ghost use Rattle.conversation_open.specs.Marked.{IsSameButUnder, IsWithout, StandsUnder};
ghost use Rattle.conversation_ids.specs.OwedMarks.{content_has, entry_has, due_has, is_mark, marks_have, uncancelled_has};

use conversation_contents::{Due, NumbersByMark};
use conversation_ids::{EntryMarks, batch_mark, huge_mark, unreadable_mark};
use std::alloc::AllocError;

/// Notes a content, whatever its entries are. On an error it may stand under some of these marks.
pub(crate) fn note_content(
    marks: &mut NumbersByMark,
    due: &Due,
    number: u64,
) -> Result<(), AllocError>
    ensures noted { OnOk result (StandsUnder (λ mark. content_has mark due.now) number marks.new) }
    ensures kept { Keeps marks.new marks.old }
    ensures others { IsSameButUnder (λ mark. content_has mark due.now) number marks.new marks.old }
{
    note_if(due.is_unreadable(), marks, unreadable_mark(), number)?;
    note_if(due.has_huge(), marks, huge_mark(), number)?;
    note_if(due.is_batch(), marks, batch_mark(), number)
}

/// Notes an entry of a content. On an error that may stand under some of these marks.
pub(crate) fn note_entry(
    marks: &mut NumbersByMark,
    entry: &EntryMarks,
    number: u64,
) -> Result<(), AllocError>
    ensures noted { OnOk result (StandsUnder (λ mark. marks_have entry.now mark) number marks.new) }
    ensures kept { Keeps marks.new marks.old }
    ensures others { IsSameButUnder (λ mark. marks_have entry.now mark) number marks.new marks.old }
{
    note_some(entry.first, marks, number)?;
    note_some(entry.own, marks, number)?;
    note_some(entry.null, marks, number)
}

/// Notes a number under a mark, where there is one.
pub(crate) fn note_some(
    mark: Option<u128>,
    marks: &mut NumbersByMark,
    number: u64,
) -> Result<(), AllocError>
    ensures noted { OnOk result (StandsUnder (λ m. is_mark mark m) number marks.new) }
    ensures kept { Keeps marks.new marks.old }
    ensures others { IsSameButUnder (λ m. is_mark mark m) number marks.new marks.old }
{
    match mark {
        Some(mark) => note_if(true, marks, mark, number),
        None => Ok(()),
    }
}

/// Notes a number under a mark, where it has that.
fn note_if(
    holds: bool,
    marks: &mut NumbersByMark,
    mark: u128,
    number: u64,
) -> Result<(), AllocError>
    ensures noted { OnOk result (StandsUnder (λ m. holds && mark == m) number marks.new) }
    ensures kept { Keeps marks.new marks.old }
    ensures others { IsSameButUnder (λ m. holds && mark == m) number marks.new marks.old }
{
    if holds {
        marks.add(mark, number)
    } else {
        Ok(())
    }
}

/// Forgets a content under the marks of an entry that it has no longer, as far as it isn't found by them still.
pub(crate) fn forget_entry(marks: &mut NumbersByMark, entry: &EntryMarks, due: &Due, number: u64)
    ensures { IsWithout (λ mark. marks_have entry.now mark && not (due_has mark due.now)) number marks.new marks.old }
{
    forget_unless_left(marks, entry.first, due, number);
    forget_unless_left(marks, entry.own, due, number);
    forget_unless_left(marks, entry.null, due, number);
}

fn forget_unless_left(marks: &mut NumbersByMark, mark: Option<u128>, due: &Due, number: u64)
    ensures { IsWithout (λ m. is_mark mark m && not (due_has m due.now)) number marks.new marks.old }
{
    if let Some(mark) = mark {
        if !due.has_mark(mark) {
            marks.remove(mark, number);
        }
    }
}

/// The same for the mark of a request, where none with that is left whose cancel wasn't seen.
pub(crate) fn forget_unless_uncancelled(
    marks: &mut NumbersByMark,
    mark: Option<u128>,
    due: &Due,
    number: u64,
)
    ensures { IsWithout (λ m. is_mark mark m && not (uncancelled_has m due.now)) number marks.new marks.old }
{
    if let Some(mark) = mark {
        if !due.has_uncancelled(mark) {
            marks.remove(mark, number);
        }
    }
}

/// Forgets a content, with its requests.
pub(crate) fn forget_content(
    marks: &mut NumbersByMark,
    uncancelled: &mut NumbersByMark,
    due: Due,
    number: u64,
)
    ensures marks { IsWithout (λ mark. due_has mark due) number marks.new marks.old }
    ensures requests { IsWithout (λ mark. uncancelled_has mark due) number uncancelled.new uncancelled.old }
{
    forget_if(due.is_unreadable(), marks, unreadable_mark(), number);
    forget_if(due.has_huge(), marks, huge_mark(), number);
    forget_if(due.is_batch(), marks, batch_mark(), number);
    forget_entries(marks, uncancelled, due, number);
}

/// Forgets a content under the marks of its entries.
fn forget_entries(marks: &mut NumbersByMark, uncancelled: &mut NumbersByMark, due: Due, number: u64)
    ensures marks { IsWithout (λ mark. list_any (entry_has mark) due.entries) number marks.new marks.old }
    ensures requests { IsWithout (λ mark. uncancelled_has mark due) number uncancelled.new uncancelled.old }
{
    let mut due = due;
    while let Some(entry) = due.pop() {
        forget_marks(marks, &entry, number);
        forget_some(uncancelled, entry.request, number);
    }
}

fn forget_marks(marks: &mut NumbersByMark, entry: &EntryMarks, number: u64)
    ensures { IsWithout (λ mark. marks_have entry.now mark) number marks.new marks.old }
{
    forget_some(marks, entry.first, number);
    forget_some(marks, entry.own, number);
    forget_some(marks, entry.null, number);
}

fn forget_some(marks: &mut NumbersByMark, mark: Option<u128>, number: u64)
    ensures { IsWithout (λ m. is_mark mark m) number marks.new marks.old }
{
    if let Some(mark) = mark {
        marks.remove(mark, number);
    }
}

fn forget_if(holds: bool, marks: &mut NumbersByMark, mark: u128, number: u64)
    ensures { IsWithout (λ m. holds && mark == m) number marks.new marks.old }
{
    if holds {
        marks.remove(mark, number);
    }
}
