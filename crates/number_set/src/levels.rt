//! Levels of counts: the marks of numbers, 0 or 1, then the sums of each two counts below, up to a single count.

ghost use Rattle.std.specs.Prelude.{◌≡◌, ◌<◌, ◌*◌, IfOk, length, map};
ghost use Rattle.number_set.specs.Levels.{HasPlace, HasOne, HasWay, AreSmall, AreSums, lowest, go_down, found_below, one_more, one_less, pair_sums};

use std::alloc::{AllocError, Global};

/// The levels over these marks.
pub fn levels_over(alloc: Global, marks: Vec<u32>) -> Result<Vec<Vec<u32>>, AllocError>
    requires { AreSmall marks.items }
    ensures sums { IfOk result (λ levels. AreSums (map (λ counts. counts.items) levels.items)) }
    ensures lowest { IfOk result (λ levels.
        lowest (map (λ counts. counts.items) levels.items) ≡ marks.items) }
{
    let mut levels = Vec::new(alloc);
    let mut counts = marks;
    while counts.len() > 1 {
        let sums = sums_of_pairs(alloc, counts.as_slice())?;
        levels.push(counts)?;
        counts = sums;
    }
    levels.push(counts)?;
    Ok(levels)
}

/// The sums of each two counts, and the last count alone where their number is odd.
fn sums_of_pairs(alloc: Global, counts: &[u32]) -> Result<Vec<u32>, AllocError>
    requires { AreSmall counts.now }
    ensures { IfOk result (λ sums. sums.items ≡ pair_sums counts.now) }
{
    let mut sums = Vec::with_capacity(alloc, counts.len().div_ceil(2))?;
    let mut place = 0;
    while place + 1 < counts.len() {
        sums.push(counts[place] + counts[place + 1])?;
        place += 2;
    }
    if place < counts.len() {
        sums.push(counts[place])?;
    }
    Ok(sums)
}

/// Counts one more at this place, on each level.
pub fn count_one_more(levels: &mut [Vec<u32>], place: usize)
    requires { HasPlace place (map (λ counts. counts.items) levels.old) }
    ensures { map (λ counts. counts.items) levels.new ≡
        one_more place (map (λ counts. counts.items) levels.old) }
{
    let mut at = place;
    for level in 0..levels.len() {
        levels[level][at] += 1;
        at /= 2;
    }
}

/// Counts one less at this place, on each level.
pub fn count_one_less(levels: &mut [Vec<u32>], place: usize)
    requires { HasOne place (map (λ counts. counts.items) levels.old) }
    ensures { map (λ counts. counts.items) levels.new ≡
        one_less place (map (λ counts. counts.items) levels.old) }
{
    let mut at = place;
    for level in 0..levels.len() {
        levels[level][at] -= 1;
        at /= 2;
    }
}

/// A place, and how many marks are left to go over from it on.
#[derive(Clone, Copy)]
pub struct Found {
    pub place: usize,
    pub left: u32,
}

/// The place of the mark that so many marks stand before: from the single count at the top down, to the left or the right of
/// the two counts below.
pub fn find_place(levels: &[Vec<u32>], before: u32) -> Found
    requires { HasWay (map (λ counts. counts.items) levels.now) before }
    ensures { result ≡ found_below (map (λ counts. counts.items) levels.now) before }
{
    match levels.split_first() {
        Some((counts, above)) => step_down(counts.as_slice(), find_place(above, before)),
        None => Found {
            place: 0,
            left: before,
        },
    }
}

fn step_down(counts: &[u32], found: Found) -> Found
    requires place { 2 * found.place < length counts.now }
    ensures { result ≡ go_down counts.now found }
{
    let place = 2 * found.place;
    if found.left < counts[place] {
        Found {
            place,
            left: found.left,
        }
    } else {
        Found {
            place: place + 1,
            left: found.left - counts[place],
        }
    }
}
