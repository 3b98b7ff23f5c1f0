//! The batch that an array of answers is for.

ghost use Rattle.std.specs.Prelude.{◌≡◌, true, false, is_some, option_map, count_by, IfOk};
ghost use Rattle.std.specs.List.{list_any};
ghost use Rattle.std.specs.Option.{option_map_or, is_none};
ghost use Rattle.conversation_dues.specs.Answered.{is_answered};
ghost use Rattle.conversation_dues.specs.Found.{first_of, whole_if};
ghost use Rattle.conversation_contents.specs.Left.{index_of};
ghost use Rattle.conversation_dues.specs.declared.batches.Answer.{Answer as AnswerValue};
ghost use Rattle.conversation_open.specs.Open.{open_entries, contents_of, IsOpen};
ghost use Rattle.conversation_ids.specs.OwedMarks.{due_has};
ghost use Rattle.conversation_rules.specs.Dues.{array_target, ids_read};
ghost use Rattle.conversation_rules.specs.Matching.{is_guess, left_batch_target};
ghost use Rattle.conversation_rules.specs.Owed.{Due as DueValue};
ghost use Rattle.number_windows.specs.Numbered.{at};

use crate::arrays::{can_be_answered, is_just, is_just_due};
use crate::targets::has_batch;
use conversation_contents::Due;
use conversation_ids::{mark_of, null_mark};
use conversation_open::{Among, OpenContents};
use conversation_reading::WrittenId;
use std::alloc::{AllocError, Global};

/// The number of the batch that an array of answers with these ids is for: the oldest from which just these are expected,
/// first where an answer must come, else the oldest whose answer they can be.
pub(crate) fn array_target(
    alloc: Global,
    contents: &OpenContents,
    ids: &[Option<WrittenId>],
) -> Result<Option<u64>, AllocError>
    requires { IsOpen contents.now }
    ensures { IfOk result (λ number. array_target ids.now (contents_of (open_entries contents.now)) ≡
        option_map (λ n. index_of n (open_entries contents.now)) number) }
{
    if !has_named(ids) {
        return Ok(None);
    }
    match first_batch(alloc, Answer::JustDue, contents, ids)? {
        Some(number) => Ok(Some(number)),
        None => left_array_target(alloc, contents, ids),
    }
}

/// The same where no answer must come of a batch from which just these ids are expected.
fn left_array_target(
    alloc: Global,
    contents: &OpenContents,
    ids: &[Option<WrittenId>],
) -> Result<Option<u64>, AllocError>
    requires stands { IsOpen contents.now }
    requires named { list_any is_some ids.now ≡ true }
    ensures { IfOk result (λ number.
        left_batch_target (ids_read ids.now) (count_by is_none ids.now) (contents_of (open_entries contents.now)) ≡
        option_map (λ n. index_of n (open_entries contents.now)) number) }
{
    match first_batch(alloc, Answer::Just, contents, ids)? {
        Some(number) => Ok(Some(number)),
        None => first_batch(alloc, Answer::Possible, contents, ids),
    }
}

/// Whether it has to be guessed for which batch such an array is: one is open, and just these ids are expected from none.
pub(crate) fn is_guess(
    alloc: Global,
    contents: &OpenContents,
    ids: &[Option<WrittenId>],
) -> Result<bool, AllocError>
    requires { IsOpen contents.now }
    ensures { IfOk result (λ b. b ≡ is_guess (ids_read ids.now) (contents_of (open_entries contents.now))) }
{
    if !has_named(ids) {
        return Ok(false);
    }
    if !has_batch(contents) {
        return Ok(false);
    }
    let expected = first_batch(alloc, Answer::Just, contents, ids)?;
    Ok(expected.is_none())
}

/// Whether any id can be read.
fn has_named(ids: &[Option<WrittenId>]) -> bool
    ensures { result ≡ list_any is_some ids.now }
{
    ids.iter().any(|id| id.is_some())
}

/// Of a batch whose answer an array is.
#[derive(Clone, Copy)]
enum Answer {
    /// Just these ids are expected, and an answer must come.
    JustDue,
    /// Just these ids are expected.
    Just,
    /// It can be its answer.
    Possible,
}

/// The oldest batch whose answer they are.
fn first_batch(
    alloc: Global,
    answer: Answer,
    contents: &OpenContents,
    ids: &[Option<WrittenId>],
) -> Result<Option<u64>, AllocError>
    requires stands { IsOpen contents.now }
    requires named { list_any is_some ids.now ≡ true }
    ensures { IfOk result (λ number. number ≡
        option_map (λ found. found.0) (first_of (whole_if (is_answered answer ids.now)) (open_entries contents.now))) }
{
    let mark = first_mark(ids);
    let mut after = 0;
    while let Some(number) = contents.next_with(Among::Batches, mark, after) {
        if is_answered_at(alloc, answer, contents, number, ids)? {
            return Ok(Some(number));
        }
        after = number;
    }
    Ok(None)
}

fn is_answered_at(
    alloc: Global,
    answer: Answer,
    contents: &OpenContents,
    number: u64,
    ids: &[Option<WrittenId>],
) -> Result<bool, AllocError>
    requires { IsOpen contents.now }
    ensures { IfOk result (λ b. b ≡ option_map_or (is_answered answer ids.now) (at number (open_entries contents.now)) false) }
{
    match contents.get(number) {
        Some(due) => is_answered(alloc, answer, due, ids),
        None => Ok(false),
    }
}

fn is_answered(
    alloc: Global,
    answer: Answer,
    due: &Due,
    ids: &[Option<WrittenId>],
) -> Result<bool, AllocError>
    ensures { IfOk result (λ b. b ≡ is_answered answer ids.now due.now) }
{
    match answer {
        Answer::JustDue => is_just_due(alloc, due, ids),
        Answer::Just => is_just(alloc, due, ids),
        Answer::Possible => {
            let unnamed = ids.iter().filter(|id| id.is_none()).count();
            can_be_answered(alloc, due, ids, unnamed)
        }
    }
}

/// The mark of the first id that can be read.
fn first_mark(ids: &[Option<WrittenId>]) -> u128
    requires { list_any is_some ids.now ≡ true }
    ensures { (answer : AnswerValue) (due : DueValue) → due_has result due ≡ false → is_answered answer ids.now due ≡ false }
{
    for id in ids {
        if let Some(id) = id {
            return mark_of(id);
        }
    }
    null_mark()
}
