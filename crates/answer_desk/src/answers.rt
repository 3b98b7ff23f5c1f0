ghost use Rattle.std.specs.Prelude.{◌≡◌, ◌≤◌, ◌==◌, ◌↔◌, [], IfOk, length, map, take, option_map, option_to_list, Bool, true, Some, None, if◌then◌else◌, false};
ghost use Rattle.std.specs.List.{filter_map, list_all};
ghost use Rattle.rpc_messages.specs.Dues.{answer_seen, unit_text as text_of_answers};
ghost use Rattle.answer_desk.specs.Seen.{part_of, waiting_of};
ghost use Rattle.answer_desk.specs.Waiting.{part_answer, unit_text, is_finished};

use crate::waiting_unit::{Due, WaitingUnit};
use open_numbers::{Kept, Numbers};
use rpc_messages::{Answer, Kind, Standard, put_unit_answer};
use std::alloc::{AllocError, Global};
use std::slice;

/// The room that is made at once for each answer of a unit, in bytes. A long id, result or error takes more.
const ROOM: usize = 64;

/// Puts the text that a unit is answered with into an empty text, and tells whether there is one.
pub(crate) fn put_text(
    alloc: Global,
    text: &mut Vec<u8>,
    numbers: &Numbers,
    unit: &WaitingUnit,
) -> Result<bool, AllocError>
    requires { text.old.items ≡ [] }
    ensures { IfOk result (λ some. unit_text (waiting_of numbers.now unit.now) ≡
        (if some then Some text.new.items else None)) }
{
    match unit.dues.as_slice() {
        [due] => put_answer(alloc, text, numbers, unit.kind, *due),
        dues => put_answers(alloc, text, numbers, unit.kind, dues),
    }
}

/// The same for a unit of one entry. It makes no list.
fn put_answer(
    alloc: Global,
    text: &mut Vec<u8>,
    numbers: &Numbers,
    kind: Kind,
    due: Due,
) -> Result<bool, AllocError>
    requires { text.old.items ≡ [] }
    ensures { IfOk result (λ some. text_of_answers kind
        (option_to_list (part_answer (part_of numbers.now due))) ≡
        (if some then Some text.new.items else None)) }
{
    match answer_of(numbers, due) {
        Some(answer) => put_unit_answer(alloc, text, kind, slice::from_ref(&answer)),
        None => Ok(false),
    }
}

fn put_answers(
    alloc: Global,
    text: &mut Vec<u8>,
    numbers: &Numbers,
    kind: Kind,
    dues: &[Due],
) -> Result<bool, AllocError>
    requires { text.old.items ≡ [] }
    ensures { IfOk result (λ some. text_of_answers kind
        (filter_map part_answer (map (part_of numbers.now) dues.now)) ≡
        (if some then Some text.new.items else None)) }
{
    let answers = answers_of(alloc, numbers, dues)?;
    if answers.is_empty() {
        return Ok(false);
    }
    text.reserve(answers.len().saturating_add(1).saturating_mul(ROOM))?;
    put_unit_answer(alloc, text, kind, answers.as_slice())
}

/// The answers of a unit's entries, in their order.
fn answers_of<'a>(
    alloc: Global,
    numbers: &'a Numbers,
    dues: &[Due],
) -> Result<Vec<Answer<'a>>, AllocError>
    ensures { IfOk result (λ answers. map answer_seen answers.items ≡
        filter_map part_answer (map (part_of numbers.now) dues.now)) }
{
    let mut answers = Vec::with_capacity(alloc, count_answered(dues))?;
    for due in dues {
        if let Some(answer) = answer_of(numbers, *due) {
            answers.push(answer)?;
        }
    }
    Ok(answers)
}

/// How many of the entries may have an answer. A contract doesn't speak of room, so it says nothing here.
fn count_answered(dues: &[Due]) -> usize {
    let mut count = 0;
    for due in dues {
        if !matches!(due, Due::Nothing) {
            count += 1;
        }
    }
    count
}

fn answer_of<'a>(numbers: &'a Numbers, due: Due) -> Option<Answer<'a>>
    ensures { option_map answer_seen result ≡ part_answer (part_of numbers.now due) }
{
    match due {
        Due::ParseError => Some(Answer::Error(Standard::ParseError)),
        Due::InvalidRequest => Some(Answer::Error(Standard::InvalidRequest)),
        Due::Nothing => None,
        Due::Answer(number) => match numbers.kept(number) {
            Some(Kept::Answered { id, reply }) => Some(Answer::Reply(id, reply)),
            Some(Kept::Open(_)) | None => None,
        },
    }
}

/// How many of the first entries are finished. All before `from` are known to be.
pub(crate) fn count_finished(numbers: &Numbers, dues: &[Due], from: usize) -> usize
    requires { list_all is_finished (take from (map (part_of numbers.now) dues.now)) ≡ true }
    ensures within { result ≤ length dues.now }
    ensures front { list_all is_finished (take result (map (part_of numbers.now) dues.now)) ≡ true }
    ensures whole { (result == length dues.now) ≡
        list_all is_finished (map (part_of numbers.now) dues.now) }
{
    for index in from..dues.len() {
        if !is_part_finished(numbers, dues[index]) {
            return index;
        }
    }
    dues.len()
}

/// Whether all of these may be finished, where all before `from` are known to be: it looks at one.
pub(crate) fn may_be_finished(numbers: &Numbers, dues: &[Due], from: usize) -> bool
    ensures { result ≡ false → list_all is_finished (map (part_of numbers.now) dues.now) ≡ false }
{
    match dues.get(from) {
        Some(due) => is_part_finished(numbers, *due),
        None => true,
    }
}

fn is_part_finished(numbers: &Numbers, due: Due) -> bool
    ensures { result ≡ is_finished (part_of numbers.now due) }
{
    match due {
        Due::ParseError | Due::InvalidRequest | Due::Nothing => true,
        Due::Answer(number) => match numbers.kept(number) {
            Some(Kept::Open(call)) => call.id.is_none(),
            Some(Kept::Answered { .. }) | None => true,
        },
    }
}
