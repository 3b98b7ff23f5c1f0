//! What the table gives once nobody shares it.
ghost use Rattle.std.specs.Prelude.{◌≡◌, ◌+◌, ◌<◌, ◌≤◌, [], ◌++◌, if◌then◌else◌, vec_len, vec_capacity};
ghost use Rattle.std.specs.Option.{option_to_list};
ghost use Rattle.std.specs.Mem.Slots.{slots_items, slots_len, IsFull};
ghost use Rattle.job_slots.specs.Inner.Kept.{is_kept, kept};

use crate::word::{DONE, READY};
use atomic_table::Closed;
use std::alloc::Global;

// Puts the job of a slot behind the others where the word says that it is at home, and else drops what was there.
fn keep<J: Drop>(jobs: &mut Vec<J>, word: u64, held: Option<J>)
    requires { vec_len jobs.old < vec_capacity jobs.old }
    ensures items { jobs.new.items ≡
        jobs.old.items ++ (if is_kept word then option_to_list held else []) }
    ensures room { (vec_len jobs.new ≤ vec_len jobs.old + 1)
        × (vec_capacity jobs.new ≡ vec_capacity jobs.old) }
{
    if word == READY || word == DONE {
        if let Some(job) = held {
            jobs.push_reserved(job);
        }
    }
}

// The jobs at home, by slot.
pub(crate) fn gather<J: Drop>(mut closed: Closed<Option<J>, Global>, mut room: Vec<J>) -> Vec<J>
    requires full { IsFull closed.words × IsFull closed.slots
        × (slots_len closed.words ≡ slots_len closed.slots) }
    requires room { (vec_len room ≡ 0) × (slots_len closed.slots ≤ vec_capacity room) }
    ensures { result.items ≡ kept (slots_items closed.words) (slots_items closed.slots) }
{
    for slot in 0..closed.slot_count() {
        let word = closed.word(slot);
        keep(&mut room, word, closed.take(slot));
    }
    closed.free();
    room
}
