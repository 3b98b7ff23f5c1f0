//! A set of numbers: what is in, at which place, as its room moves on.
use crate::rows::each_act;
use Act::{Contains, HasRoom, Holds, Put, Remove, Room};
use number_set::NumberSet;
use std::alloc::Global;
use std::test::Fail;

enum Act {
    /// Makes room for the numbers from the first to before the last.
    Room(u32, u32),
    /// Puts a number in that there is room for.
    Put(u32),
    Remove(u32),
    Contains(u32, bool),
    HasRoom(u32, bool),
    /// These are all the numbers.
    Holds(&'static [u32]),
}

/// Whether these are all the numbers of the set, each at its place.
fn holds(set: &NumberSet, numbers: &[u32]) -> bool {
    let mut place = 0u32;
    for number in numbers {
        if set.at(place) != Some(*number) {
            return false;
        }
        place = place.saturating_add(1);
    }
    set.len() == place && set.at(place).is_none()
}

fn makes_room(set: &mut NumberSet, first: u32, end: u32) -> Result<bool, Fail> {
    if first > end || end > 2_000 {
        return Ok(false);
    }
    set.make_room(first, end)?;
    Ok(true)
}

fn puts(set: &mut NumberSet, number: u32) -> bool {
    if !set.has_room(number) {
        return false;
    }
    set.insert(number);
    true
}

fn comes_out(_alloc: Global, set: &mut NumberSet, act: &Act) -> Result<bool, Fail> {
    match act {
        Act::Room(first, end) => makes_room(set, *first, *end),
        Act::Put(number) => Ok(puts(set, *number)),
        Act::Remove(number) => {
            set.remove(*number);
            Ok(true)
        }
        Act::Contains(number, contains) => Ok(set.contains(*number) == *contains),
        Act::HasRoom(number, has) => Ok(set.has_room(*number) == *has),
        Act::Holds(numbers) => Ok(holds(set, numbers)),
    }
}

const PLACES: &[Act] = &[
    Holds(&[]),
    Room(1, 8),
    Put(7),
    Put(1),
    Put(4),
    Put(4),
    Holds(&[1, 4, 7]),
    Remove(4),
    Remove(5),
    Contains(1, true),
    Contains(4, false),
    HasRoom(0, false),
    HasRoom(8, false),
    Holds(&[1, 7]),
];

const MOVES: &[Act] = &[
    Room(0, 3),
    Put(0),
    Put(2),
    Room(2, 1000),
    Holds(&[2]),
    Put(999),
    Holds(&[2, 999]),
    Room(999, 1001),
    Holds(&[999]),
    Room(5, 5),
    Holds(&[]),
];

/// Acts at a new set, and what they show.
const ROWS: &[(&str, &[Act])] = &[
    ("numbers stand at their places", PLACES),
    ("room moves on with the numbers in it", MOVES),
];

#[test]
fn numbers_stand_in_their_room(rt: HostRuntime) -> Result<(), Fail> {
    for (name, acts) in ROWS {
        let mut set = NumberSet::new(rt.alloc());
        let played = each_act(&rt, rt.alloc(), name, &mut set, acts, comes_out);
        drop(set);
        played?;
    }
    Ok(())
}
