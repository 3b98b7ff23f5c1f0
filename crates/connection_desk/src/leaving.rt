//! The answers that can go out, and those that stay.

ghost use Rattle.std.specs.Prelude.{◌≡◌, length, IfOk, OnOk, OnErr, is_some, unwrap_or};
ghost use Rattle.connection_history.specs.Counts.{capped};
ghost use Rattle.connection_history.specs.declared.order.Order.TheVariants.{AsAnswered, AsCame};
ghost use Rattle.connection_steps.specs.Steps.{complete_front, incomplete_rest, leaving, staying};
ghost use Rattle.connection_desk.specs.Desks.{answer_count, answer_texts, with_texts};
ghost use Rattle.connection_desk.specs.Inner.{OnlyAt, complete_at, complete_text_at, rest_of};
ghost use Rattle.outbox.specs.Output.{OnlyPutSince};
ghost use Rattle.open_calls.specs.Numbered.{Ascending};
ghost use Rattle.owed_answers.specs.Owed.{unit_texts};

use connection_history::Order;
use open_calls::{an_entry_changes_or_goes, numbers_above_one};
use outbox::Outbox;
use owed_answers::{Owed, OwedAnswers};
use std::alloc::AllocError;

/// Lets the answers go out that can, where the one at this place may have become complete; all or nothing. Says how many they
/// are.
pub(crate) fn let_out(
    order: Order,
    owed: &mut OwedAnswers,
    place: u64,
    outbox: &mut Outbox,
    room: &mut Vec<u8>,
) -> Result<u64, AllocError>
    requires { OnlyAt order place owed.old.owed }
    ensures owed { OnOk result
        (owed.new ≡ record owed.old { owed = staying order owed.old.owed }) }
    ensures outbox { OnOk result (outbox.new ≡
        with_texts (answer_texts (leaving order owed.old.owed)) outbox.old) }
    ensures count { IfOk result (λ count.
        count ≡ capped (answer_count (leaving order owed.old.owed))) }
    ensures owed_err { OnErr result (owed.new ≡ owed.old) }
    ensures outbox_err { OnErr result (outbox.new ≡ outbox.old) }
{
    match order {
        Order::AsAnswered => let_out_one(owed, place, outbox, room),
        Order::AsCame => let_out_front(owed, outbox, room),
    }
}

/// As answered, none but the unit at this place can be complete.
fn let_out_one(
    owed: &mut OwedAnswers,
    place: u64,
    outbox: &mut Outbox,
    room: &mut Vec<u8>,
) -> Result<u64, AllocError>
    requires { OnlyAt AsAnswered place owed.old.owed }
    ensures owed { OnOk result
        (owed.new ≡ record owed.old { owed = staying AsAnswered owed.old.owed }) }
    ensures outbox { OnOk result (outbox.new ≡
        with_texts (answer_texts (leaving AsAnswered owed.old.owed)) outbox.old) }
    ensures count { IfOk result (λ count.
        count ≡ capped (answer_count (leaving AsAnswered owed.old.owed))) }
    ensures owed_err { OnErr result (owed.new ≡ owed.old) }
    ensures outbox_err { OnErr result (outbox.new ≡ outbox.old) }
{
    numbers_above_one::<Owed>();
    let Some(count) = write_complete(owed, place, outbox, room)? else {
        return Ok(0);
    };
    owed.remove(place);
    Ok(count)
}

/// Writes the answer of the unit at this place, where it is complete. Says then how many that is, one or none. Places ascend,
/// so no other unit has this one.
fn write_complete(
    owed: &OwedAnswers,
    place: u64,
    outbox: &mut Outbox,
    room: &mut Vec<u8>,
) -> Result<Option<u64>, AllocError>
    ensures complete { IfOk result (λ count. is_some count ≡ complete_at place owed.now.owed) }
    ensures count { IfOk result (λ count.
        unwrap_or count 0 ≡ length (complete_text_at place owed.now.owed)) }
    ensures ok { OnOk result (outbox.new ≡
        with_texts (complete_text_at place owed.now.owed) outbox.old) }
    ensures err { OnErr result (outbox.new ≡ outbox.old) }
    ensures ascending { Ascending owed.now.owed }
{
    let Some(unit) = owed.get(place) else {
        return Ok(None);
    };
    if unit.lacking() != 0 {
        return Ok(None);
    }
    let count = write_unit(unit, outbox, room)?;
    Ok(Some(count))
}

/// Writes the answer of a unit that is complete, and says how many that is, one or none.
fn write_unit(unit: &Owed, outbox: &mut Outbox, room: &mut Vec<u8>) -> Result<u64, AllocError>
    ensures count { IfOk result (λ count. count ≡ length (unit_texts unit.now)) }
    ensures ok { OnOk result (outbox.new ≡ with_texts (unit_texts unit.now) outbox.old) }
    ensures err { OnErr result (outbox.new ≡ outbox.old) }
{
    if !unit.has_answer() {
        return Ok(0);
    }
    room.clear();
    unit.put_text(room)?;
    outbox.put_from(room)?;
    Ok(1)
}

/// As came, the units in front can be complete.
fn let_out_front(
    owed: &mut OwedAnswers,
    outbox: &mut Outbox,
    room: &mut Vec<u8>,
) -> Result<u64, AllocError>
    ensures owed { OnOk result
        (owed.new ≡ record owed.old { owed = staying AsCame owed.old.owed }) }
    ensures outbox { OnOk result (outbox.new ≡
        with_texts (answer_texts (leaving AsCame owed.old.owed)) outbox.old) }
    ensures count { IfOk result (λ count.
        count ≡ capped (answer_count (leaving AsCame owed.old.owed))) }
    ensures owed_err { OnErr result (owed.new ≡ owed.old) }
    ensures outbox_err { OnErr result (outbox.new ≡ outbox.old) }
{
    let mark = outbox.mark();
    match write_each(owed, owed.first(), outbox, room) {
        Ok((stays, count)) => {
            remove_in_front(owed, stays);
            Ok(count)
        }
        Err(refused) => {
            outbox.back_to(mark);
            Err(refused)
        }
    }
}

/// Writes the answers of the units that are complete, from this place on up to the first that isn't. Answers the place of
/// that one, and how many answers were written. Where not all are written, some of them may be.
pub(crate) fn write_each(
    owed: &OwedAnswers,
    from: Option<u64>,
    outbox: &mut Outbox,
    room: &mut Vec<u8>,
) -> Result<(Option<u64>, u64), AllocError>
    ensures stays { IfOk result (λ written.
        rest_of written.0 owed.now.owed ≡ incomplete_rest (rest_of from owed.now.owed)) }
    ensures count { IfOk result (λ written. written.1 ≡
        capped (answer_count (complete_front (rest_of from owed.now.owed)))) }
    ensures ok { OnOk result (outbox.new ≡
        with_texts (answer_texts (complete_front (rest_of from owed.now.owed))) outbox.old) }
    ensures err { OnErr result (OnlyPutSince outbox.old outbox.new) }
{
    numbers_above_one::<Owed>();
    let mut next = from;
    let mut count: u64 = 0;
    while let Some(place) = next {
        let Some(more) = write_complete(owed, place, outbox, room)? else {
            break;
        };
        count = count.saturating_add(more);
        next = owed.next(place);
    }
    Ok((next, count))
}

/// The units in front of this place are owed nothing any more; where there is none, all.
pub(crate) fn remove_in_front(owed: &mut OwedAnswers, stays: Option<u64>)
    ensures { owed.new ≡ record owed.old { owed = rest_of stays owed.old.owed } }
{
    numbers_above_one::<Owed>();
    an_entry_changes_or_goes::<Owed>();
    while let Some(place) = owed.first() {
        if stays == Some(place) {
            break;
        }
        owed.remove(place);
    }
}
