//! Sets of numbers that are marked, and the room that is made for them.

ghost use Rattle.rpc_messages.specs.declared.key.TheConstants.{MOST_NUMBERS};
ghost use Rattle.std.specs.Prelude.{◌≡◌, ◌<◌, ◌≤◌, ◌+◌, ℕ, IfOk, OnOk, OnErr, true, false};
ghost use Rattle.number_set.specs.Numbers.{HasRoom, is_in, with_mark};
ghost use Rattle.answer_desk.specs.Desk.{view as desk_view};
ghost use Rattle.peer_events.specs.Stages.{stage_at as stage_in_list};
ghost use Rattle.peer_events.specs.Turning.{is_ready_stage};

use crate::stages::is_ready_at;
use answer_desk::Desk;
use number_set::{DenseWindow, NumberSet};
use peer_events::Stage;
use rpc_messages::MOST_NUMBERS;
use std::alloc::{AllocError, Global};

/// The room that a set of numbers has at least.
const ROOM: u32 = 64;

/// The numbers have room up to here, and not beyond.
const END: u32 = MOST_NUMBERS + 1;

/// Puts a number in, or takes it out.
#[inline(always)]
pub(crate) fn set_mark(set: &mut NumberSet, number: u32, is_in: bool)
    requires { is_in ≡ true → HasRoom set.old number }
    ensures { set.new ≡ with_mark is_in number set.old }
{
    if is_in {
        set.insert(number);
    } else {
        set.remove(number);
    }
}

/// Marks, of the numbers from `first` up to `end`, those whose handlers are ready.
pub(crate) fn mark_ready(
    set: &mut NumberSet,
    desk: &Desk,
    stages: &DenseWindow<Stage>,
    first: u32,
    end: u32,
)
    requires order { first ≤ end }
    requires room { (n : ℕ) → first ≤ n → n < end →
        is_ready_stage (desk_view desk.now) (stage_in_list stages.now n) ≡ true →
        HasRoom set.old n }
    ensures within { (n : ℕ) → first ≤ n → n < end →
        is_in set.new n ≡ is_ready_stage (desk_view desk.now) (stage_in_list stages.now n) }
    ensures below { (n : ℕ) → n < first → is_in set.new n ≡ is_in set.old n }
    ensures beyond { (n : ℕ) → end ≤ n → is_in set.new n ≡ is_in set.old n }
    ensures room { (n : ℕ) → HasRoom set.old n → HasRoom set.new n }
{
    for number in first..end {
        let is_ready = is_ready_at(desk, stages, number);
        set_mark(set, number, is_ready);
    }
}

/// Makes room for the numbers up to `end`, where `first` is the lowest that isn't gone and all that
/// are in are below `end`. It makes twice the room that they need, so that it is made seldom.
pub(crate) fn make_room(set: &mut NumberSet, first: u32, end: u32) -> Result<(), AllocError>
    requires order { first ≤ end }
    requires most { end ≤ MOST_NUMBERS + 1 }
    requires room { (n : ℕ) → is_in set.old n ≡ true → (first ≤ n) × (n < end) }
    ensures same { (n : ℕ) → is_in set.new n ≡ is_in set.old n }
    ensures err { OnErr result (set.new ≡ set.old) }
    ensures room { OnOk result ((n : ℕ) → first ≤ n → n < end → HasRoom set.new n) }
{
    if end <= first || (set.has_room(first) && set.has_room(end - 1)) {
        return Ok(());
    }
    let room = (end - first).max(ROOM);
    set.make_room(first, END.min(end + room))
}

pub(crate) fn set_with_room(alloc: Global) -> Result<NumberSet, AllocError>
    ensures room { IfOk result (λ set. HasRoom set 0) }
    ensures none { IfOk result (λ set. (n : ℕ) → is_in set n ≡ false) }
{
    let mut set = NumberSet::new(alloc);
    set.make_room(0, ROOM)?;
    Ok(set)
}

pub(crate) fn set_with_zero(alloc: Global) -> Result<NumberSet, AllocError>
    ensures room { IfOk result (λ set. HasRoom set 0) }
    ensures zero { IfOk result (λ set. is_in set 0 ≡ true) }
    ensures others { IfOk result (λ set. (n : ℕ) → 0 < n → is_in set n ≡ false) }
{
    let mut set = set_with_room(alloc)?;
    set.insert(0);
    Ok(set)
}
