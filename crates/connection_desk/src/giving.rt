//! An answer is given its text.

ghost use Rattle.std.specs.Prelude.{◌≡◌, [], Some, IfOk, OnOk, OnErr, length};
ghost use Rattle.connection_history.specs.Counts.{capped};
ghost use Rattle.connection_history.specs.declared.order.Order.TheVariants.{AsAnswered, AsCame};
ghost use Rattle.connection_steps.specs.Steps.{leaving, staying};
ghost use Rattle.open_calls.specs.Numbered.{changed_at, first_number};
ghost use Rattle.owed_answers.specs.Owed.{given, unit_texts};
ghost use Rattle.connection_desk.specs.Desks.{answer_count, answer_texts, with_texts};

use crate::leaving::{remove_in_front, write_each};
use connection_history::Order;
use open_calls::{an_entry_changes_or_goes, numbers_above_one};
use outbox::Outbox;
use owed_answers::{Owed, OwedAnswers};
use std::alloc::{AllocError, Global};

/// Gives a slot of the unit at this place the text in the room, and lets the answers go out that can then, all or nothing.
/// Says how many they are. What is in the room then has no meaning.
pub(crate) fn give(
    alloc: Global,
    order: Order,
    owed: &mut OwedAnswers,
    place: u64,
    slot: u64,
    room: &mut Vec<u8>,
    outbox: &mut Outbox,
) -> Result<u64, AllocError>
    requires { leaving order owed.old.owed ≡ [] }
    ensures owed { OnOk result (owed.new ≡ record owed.old {
      owed = staying order
          (changed_at place (given slot room.old.items) owed.old.owed);
    }) }
    ensures outbox { OnOk result (outbox.new ≡ with_texts
        (answer_texts (leaving order
        (changed_at place (given slot room.old.items) owed.old.owed)))
        outbox.old) }
    ensures count { IfOk result (λ count. count ≡ capped
        (answer_count (leaving order
        (changed_at place (given slot room.old.items) owed.old.owed)))) }
    ensures owed_err { OnErr result (owed.new ≡ owed.old) }
    ensures outbox_err { OnErr result (outbox.new ≡ outbox.old) }
{
    match order {
        Order::AsAnswered => give_as_answered(alloc, owed, place, slot, room, outbox),
        Order::AsCame if owed.first() == Some(place) => {
            give_front(alloc, owed, place, slot, room, outbox)
        }
        Order::AsCame => give_behind(alloc, owed, place, slot, room),
    }
}

/// Where the unit is complete then, its answer goes out, and the text is put into no slot.
fn give_as_answered(
    alloc: Global,
    owed: &mut OwedAnswers,
    place: u64,
    slot: u64,
    room: &mut Vec<u8>,
    outbox: &mut Outbox,
) -> Result<u64, AllocError>
    requires { leaving AsAnswered owed.old.owed ≡ [] }
    ensures owed { OnOk result (owed.new ≡ record owed.old {
      owed = staying AsAnswered
          (changed_at place (given slot room.old.items) owed.old.owed);
    }) }
    ensures outbox { OnOk result (outbox.new ≡ with_texts
        (answer_texts (leaving AsAnswered
        (changed_at place (given slot room.old.items) owed.old.owed)))
        outbox.old) }
    ensures count { IfOk result (λ count. count ≡ capped
        (answer_count (leaving AsAnswered
        (changed_at place (given slot room.old.items) owed.old.owed)))) }
    ensures owed_err { OnErr result (owed.new ≡ owed.old) }
    ensures outbox_err { OnErr result (outbox.new ≡ outbox.old) }
{
    numbers_above_one::<Owed>();
    an_entry_changes_or_goes::<Owed>();
    let Some(unit) = owed.get_mut(place) else {
        return Ok(0);
    };
    if !unit.is_complete_with(slot) {
        unit.give(alloc, slot, room.as_slice())?;
        return Ok(0);
    }
    let count = write_with(alloc, unit, slot, room, outbox)?;
    owed.remove(place);
    Ok(count)
}

/// Writes the answer that the unit has once this slot is given the text in the room, and says how many that is, one or none.
/// What is in the room then has no meaning.
fn write_with(
    alloc: Global,
    unit: &Owed,
    slot: u64,
    room: &mut Vec<u8>,
    outbox: &mut Outbox,
) -> Result<u64, AllocError>
    ensures count { IfOk result (λ count.
        count ≡ length (unit_texts (given slot room.old.items unit.now))) }
    ensures ok { OnOk result (outbox.new ≡
        with_texts (unit_texts (given slot room.old.items unit.now)) outbox.old) }
    ensures err { OnErr result (outbox.new ≡ outbox.old) }
{
    if !unit.has_answer_with(slot, room.as_slice()) {
        return Ok(0);
    }
    if unit.is_alone(slot) {
        outbox.put_from(room)?;
        return Ok(1);
    }
    let mut text = Vec::new(alloc);
    unit.put_text_with(&mut text, slot, room.as_slice())?;
    outbox.put_from(&mut text)?;
    Ok(1)
}

/// As came, of the first unit: where it is complete then, its answer goes out, and those of the units behind it that are.
fn give_front(
    alloc: Global,
    owed: &mut OwedAnswers,
    place: u64,
    slot: u64,
    room: &mut Vec<u8>,
    outbox: &mut Outbox,
) -> Result<u64, AllocError>
    requires first { first_number owed.old.owed ≡ Some place }
    requires settled { leaving AsCame owed.old.owed ≡ [] }
    ensures owed { OnOk result (owed.new ≡ record owed.old {
      owed = staying AsCame
          (changed_at place (given slot room.old.items) owed.old.owed);
    }) }
    ensures outbox { OnOk result (outbox.new ≡ with_texts
        (answer_texts (leaving AsCame
        (changed_at place (given slot room.old.items) owed.old.owed)))
        outbox.old) }
    ensures count { IfOk result (λ count. count ≡ capped
        (answer_count (leaving AsCame
        (changed_at place (given slot room.old.items) owed.old.owed)))) }
    ensures owed_err { OnErr result (owed.new ≡ owed.old) }
    ensures outbox_err { OnErr result (outbox.new ≡ outbox.old) }
{
    numbers_above_one::<Owed>();
    an_entry_changes_or_goes::<Owed>();
    let Some(unit) = owed.get_mut(place) else {
        return Ok(0);
    };
    if !unit.is_complete_with(slot) {
        unit.give(alloc, slot, room.as_slice())?;
        return Ok(0);
    }
    let mark = outbox.mark();
    let count = write_with(alloc, unit, slot, room, outbox)?;
    match write_each(owed, owed.next(place), outbox, room) {
        Ok((stays, more)) => {
            remove_in_front(owed, stays);
            Ok(count.saturating_add(more))
        }
        Err(refused) => {
            outbox.back_to(mark);
            Err(refused)
        }
    }
}

/// As came, of a unit behind the first. The first isn't complete, so nothing goes out.
fn give_behind(
    alloc: Global,
    owed: &mut OwedAnswers,
    place: u64,
    slot: u64,
    room: &[u8],
) -> Result<u64, AllocError>
    ensures owed { OnOk result (owed.new ≡ record owed.old {
      owed = changed_at place (given slot room.now) owed.old.owed;
    }) }
    ensures count { IfOk result (λ count. count ≡ 0) }
    ensures owed_err { OnErr result (owed.new ≡ owed.old) }
{
    owed.give(alloc, place, slot, room)?;
    Ok(0)
}
