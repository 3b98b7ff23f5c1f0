ghost use Rattle.std.specs.Prelude.{◌≡◌, ◌≤◌, ◌++◌, [], option_to_list, IfOk, OnOk, OnErr, flat_map, length, map, take, drop, true};
ghost use Rattle.std.specs.List.{filter_map};
ghost use Rattle.std.specs.VecDeque.{deque_len};
ghost use Rattle.lsp_frames.specs.Frames.{written};
ghost use Rattle.open_numbers.specs.Kept.{kept_at, open_number};
ghost use Rattle.answer_desk.specs.Seen.{waiting_of};
ghost use Rattle.answer_desk.specs.Waiting.{unit_text, whole_front, behind_front};
ghost use Rattle.open_numbers.specs.Requests.{IsOutOfReach};
ghost use Rattle.answer_desk.specs.Inner.Units.{ascends, front_finished, requests_in, requests_of, without_answers};

use crate::answers::{count_finished, put_text};
use crate::waiting_unit::{Due, WaitingUnit};
use json_values::Items;
use lsp_frames::put_frame;
use open_numbers::Numbers;
use std::alloc::{AllocError, Global};
use std::collections::VecDeque;
use std::mem;

/// So many bytes of a text that serves again are kept.
const MOST_KEPT: usize = 64 * 1024;

/// The longest front of whole units: how many they are, and how many parts of the unit behind them are finished.
#[derive(Clone, Copy)]
pub struct Front {
    pub count: usize,
    pub finished_parts: usize,
}

impl Front {
    /// The first `finished_parts` parts of the first unit are known to be finished.
    pub fn find(numbers: &Numbers, units: &VecDeque<WaitingUnit>, finished_parts: usize) -> Front
        requires { front_finished finished_parts
            (map (waiting_of numbers.now) units.now.items) ≡ true }
        ensures inside { result.count ≤ deque_len units.now }
        ensures whole { map (waiting_of numbers.now) (take result.count units.now.items) ≡
            whole_front (map (waiting_of numbers.now) units.now.items) }
        ensures behind { drop result.count (map (waiting_of numbers.now) units.now.items) ≡
            behind_front (map (waiting_of numbers.now) units.now.items) }
        ensures finished { front_finished result.finished_parts
            (drop result.count (map (waiting_of numbers.now) units.now.items)) ≡ true }
    {
        let mut known = finished_parts;
        for count in 0..units.len() {
            let unit = &units[count];
            let finished_parts = count_finished(numbers, unit.dues.as_slice(), known);
            if finished_parts != unit.dues.len() {
                return Front {
                    count,
                    finished_parts,
                };
            }
            known = 0;
        }
        Front {
            count: units.len(),
            finished_parts: 0,
        }
    }
}

/// The texts that the first `count` units are answered with.
pub(crate) fn texts_of(
    alloc: Global,
    numbers: &Numbers,
    units: &VecDeque<WaitingUnit>,
    count: usize,
) -> Result<Vec<Items<u8>>, AllocError>
    requires { count ≤ deque_len units.now }
    ensures { IfOk result (λ texts. texts.items ≡
        filter_map unit_text (map (waiting_of numbers.now) (take count units.now.items))) }
{
    let mut texts = Vec::new(alloc);
    for index in 0..count {
        push_text(alloc, &mut texts, numbers, &units[index])?;
    }
    Ok(texts)
}

fn push_text(
    alloc: Global,
    texts: &mut Vec<Items<u8>>,
    numbers: &Numbers,
    unit: &WaitingUnit,
) -> Result<(), AllocError>
    ensures { OnOk result (texts.new.items ≡
        texts.old.items ++ option_to_list (unit_text (waiting_of numbers.now unit.now))) }
{
    let mut text = Vec::new(alloc);
    if put_text(alloc, &mut text, numbers, unit)? {
        texts.push(Items::from(text))?;
    }
    Ok(())
}

/// Puts these texts behind the bytes, each in a frame, and tells how many they are. Each is made in the same text.
pub(crate) fn put_frames(
    alloc: Global,
    bytes: &mut Vec<u8>,
    text: &mut Vec<u8>,
    numbers: &Numbers,
    units: &VecDeque<WaitingUnit>,
    count: usize,
) -> Result<usize, AllocError>
    requires { count ≤ deque_len units.now }
    ensures bytes { OnOk result (bytes.new.items ≡ bytes.old.items ++ flat_map written
        (filter_map unit_text (map (waiting_of numbers.now) (take count units.now.items)))) }
    ensures count { IfOk result (λ answers. answers ≡
        length (filter_map unit_text (map (waiting_of numbers.now) (take count units.now.items)))) }
    ensures err { OnErr result (bytes.new.items ≡ bytes.old.items) }
{
    let before = bytes.len();
    let mut answers = 0;
    for index in 0..count {
        text.clear();
        match put_unit_frame(alloc, bytes, text, numbers, &units[index]) {
            Ok(more) => answers += more,
            Err(refused) => {
                bytes.truncate(before);
                return Err(refused);
            }
        }
    }
    Ok(answers)
}

/// Puts the frame of the text that a unit is answered with behind the bytes, and tells how many it is. The text is made in
/// an empty one, which serves for all units.
fn put_unit_frame(
    alloc: Global,
    bytes: &mut Vec<u8>,
    text: &mut Vec<u8>,
    numbers: &Numbers,
    unit: &WaitingUnit,
) -> Result<usize, AllocError>
    requires { text.old.items ≡ [] }
    ensures bytes { OnOk result (bytes.new.items ≡ bytes.old.items ++
        flat_map written (option_to_list (unit_text (waiting_of numbers.now unit.now)))) }
    ensures count { IfOk result (λ count.
        count ≡ length (option_to_list (unit_text (waiting_of numbers.now unit.now)))) }
    ensures few { IfOk result (λ count. count ≤ 1) }
    ensures err { OnErr result (bytes.new.items ≡ bytes.old.items) }
{
    if !put_text(alloc, text, numbers, unit)? {
        return Ok(0);
    }
    put_frame(bytes, text.as_slice())?;
    Ok(1)
}

/// Lets go of a text that has grown large.
pub(crate) fn let_go_of_large(alloc: Global, text: &mut Vec<u8>) {
    if text.capacity() > MOST_KEPT {
        drop(mem::replace(text, Vec::new(alloc)));
    }
}

/// Lets go of the first units, and of their answers.
pub(crate) fn drop_front(numbers: &mut Numbers, units: &mut VecDeque<WaitingUnit>, count: usize)
    requires { ascends 0 (length numbers.old) (requests_of units.old.items) ≡ true }
    ensures units { units.new.items ≡ drop count units.old.items }
    ensures numbers { map open_number numbers.new ≡ map open_number numbers.old }
    ensures left { map (waiting_of numbers.new) units.new.items ≡
        drop count (map (waiting_of numbers.old) units.old.items) }
    ensures ascends { ascends 0 (length numbers.new) (requests_of units.new.items) ≡ true }
    ensures opening { IsOutOfReach (kept_at numbers.old 0) → IsOutOfReach (kept_at numbers.new 0) }
{
    for _unit in 0..count {
        if let Some(unit) = units.pop_front() {
            forget_answers(numbers, unit.dues.as_slice());
            drop(unit);
        }
    }
}

fn forget_answers(numbers: &mut Numbers, dues: &[Due])
    ensures { numbers.new ≡ without_answers (requests_in dues.now) numbers.old }
{
    for due in dues {
        if let Due::Answer(number) = due {
            numbers.forget(*number);
        }
    }
}
