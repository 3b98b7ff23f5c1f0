//! A few entries that stand side by side, with ascending numbers.

ghost use Rattle.std.specs.Prelude.{◌≡◌, ℕ, ◌<◌, ◌≤◌, length, take, remove, slice_index_or, true, Some, None, IsSome, IfSome, IfNone, IfOk, IfErr, option_copied};
ghost use Rattle.std.specs.VecDeque.{deque_len, deque_capacity};
ghost use Rattle.number_windows.specs.Numbered.{at, without, changed_at, first_above, Below, Ascending};

use std::collections::VecDeque;
use std::mem;

/// Where the entry with this number stands.
pub fn place<T>(block: &VecDeque<(u64, T)>, number: u64) -> Option<usize>
    requires { Ascending block.now.items }
    ensures found { IfSome result (λ i. (i < length block.now.items) ×
        ((d : ℕ × T) → (slice_index_or block.now.items i d).0 ≡ number)) }
    ensures missing { IfNone result (at number block.now.items ≡ None) }
{
    match guess(block, number) {
        Some(index) => Some(index),
        None => search(block, number),
    }
}

/// Where the entry with this number stands if none is missing between the first and it.
fn guess<T>(block: &VecDeque<(u64, T)>, number: u64) -> Option<usize>
    ensures { IfSome result (λ i. (i < length block.now.items) ×
        ((d : ℕ × T) → (slice_index_or block.now.items i d).0 ≡ number)) }
{
    let (first, _) = block.front()?;
    let index = number.checked_sub(*first)? as usize;
    match block.get(index) {
        Some((other, _)) if *other == number => Some(index),
        _ => None,
    }
}

fn search<T>(block: &VecDeque<(u64, T)>, number: u64) -> Option<usize>
    requires { Ascending block.now.items }
    ensures found { IfSome result (λ i. (i < length block.now.items) ×
        ((d : ℕ × T) → (slice_index_or block.now.items i d).0 ≡ number)) }
    ensures missing { IfNone result (at number block.now.items ≡ None) }
{
    let index = below(block, number);
    match block.get(index) {
        Some((other, _)) if *other == number => Some(index),
        _ => None,
    }
}

/// How many of the entries have smaller numbers.
fn below<T>(block: &VecDeque<(u64, T)>, number: u64) -> usize
    ensures within { result ≤ length block.now.items }
    ensures below { Below number (take result block.now.items) }
    ensures others { (d : ℕ × T) → result < length block.now.items →
        number ≤ (slice_index_or block.now.items result d).0 }
{
    let mut index = 0;
    while index < block.len() && block[index].0 < number {
        index += 1;
    }
    index
}

/// The value with this number.
pub fn get<T>(block: &VecDeque<(u64, T)>, number: u64) -> Option<&T>
    requires { Ascending block.now.items }
    ensures { option_copied result ≡ at number block.now.items }
{
    match place(block, number) {
        Some(index) => Some(&block[index].1),
        None => None,
    }
}

/// Takes the value with this number out. The block keeps its room.
pub fn take_out<T: Drop>(block: &mut VecDeque<(u64, T)>, number: u64) -> Option<T>
    requires { Ascending block.old.items }
    ensures value { result ≡ at number block.old.items }
    ensures items { block.new.items ≡ without number block.old.items }
    ensures len { deque_len block.new ≤ deque_len block.old }
    ensures room { deque_capacity block.new ≡ deque_capacity block.old }
{
    let index = place(block, number)?;
    let (_, value) = take_at(block, index)?;
    Some(value)
}

/// Takes the entry at this place out: at either end at once, and elsewhere by moving those in front of it up by one.
/// `VecDeque::remove` moves the shorter side, by 12 KB of code for each type of value; a block has at most 32 entries, and
/// most go from its front.
fn take_at<T: Drop>(block: &mut VecDeque<(u64, T)>, index: usize) -> Option<(u64, T)>
    requires { index < length block.old.items }
    ensures value { IfSome result (λ entry. entry ≡ slice_index_or block.old.items index entry) }
    ensures some { IsSome result }
    ensures items { block.new.items ≡ remove block.old.items index }
    ensures len { deque_len block.new ≤ deque_len block.old }
    ensures room { deque_capacity block.new ≡ deque_capacity block.old }
{
    if index + 1 == block.len() {
        return block.pop_back();
    }
    let mut taken = block.pop_front()?;
    for i in 0..index {
        taken = mem::replace(&mut block[i], taken);
    }
    Some(taken)
}

/// Of a block that has few entries for its room, the room that it doesn't need goes.
pub fn give_back_room<T>(block: &mut VecDeque<(u64, T)>)
    ensures items { block.new.items ≡ block.old.items }
    ensures len { deque_len block.new ≡ deque_len block.old }
{
    if block.len() <= block.capacity() / 4 {
        block.shrink_to(block.len());
    }
}

/// Puts this value in the place of the one with this number, and answers what stood there. Where there is none the value
/// comes back.
pub fn put_in<T: Drop>(block: &mut VecDeque<(u64, T)>, number: u64, value: T) -> Result<T, T>
    requires { Ascending block.old.items }
    ensures was { IfOk result (λ was. at number block.old.items ≡ Some was) }
    ensures missing { IfErr result (λ back. (back ≡ value) × (at number block.old.items ≡ None)) }
    ensures items { block.new.items ≡ changed_at number (λ _. value) block.old.items }
    ensures len { deque_len block.new ≡ deque_len block.old }
    ensures room { deque_capacity block.new ≡ deque_capacity block.old }
{
    match place(block, number) {
        Some(index) => Ok(mem::replace(&mut block[index].1, value)),
        None => Err(value),
    }
}

/// The first entry above `after`.
pub fn first_above<T>(block: &VecDeque<(u64, T)>, after: u64) -> Option<&(u64, T)>
    requires { Ascending block.now.items }
    ensures { option_copied result ≡ first_above after block.now.items }
{
    match guess(block, after) {
        Some(index) => block.get(index + 1),
        None => search_above(block, after),
    }
}

/// The same of a block in any order.
pub fn search_above<T>(block: &VecDeque<(u64, T)>, after: u64) -> Option<&(u64, T)>
    ensures { option_copied result ≡ first_above after block.now.items }
{
    for entry in block {
        if after < entry.0 {
            return Some(entry);
        }
    }
    None
}

/// Whether the first entry has this number or a smaller one.
pub fn begins_up_to<T>(block: &VecDeque<(u64, T)>, number: u64) -> bool
    ensures { result ≡ true → (0 < length block.now.items) ×
        ((d : ℕ × T) → (slice_index_or block.now.items 0 d).0 ≤ number) }
{
    match block.front() {
        Some((first, _)) => *first <= number,
        None => false,
    }
}
