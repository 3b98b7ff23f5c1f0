ghost use Rattle.std.specs.Prelude.{◌≡◌, ◌+◌, ◌<◌, ◌≤◌, ◌++◌, ◌^◌, [], ◌∷◌, OnOk, OnErr, Some, None, MatchOption, IfOk, IfSome, IfNone, length, map, take, slice_set, option_copied};
ghost use Rattle.rpc_messages.specs.declared.key.TheConstants.{MOST_NUMBERS};
ghost use Rattle.open_numbers.specs.declared.kept.Kept.TheVariants.{Open};
ghost use Rattle.open_numbers.specs.OpenCalls.{new_number};
ghost use Rattle.open_numbers.specs.Replies.{put_into, given_by};
ghost use Rattle.open_numbers.specs.Kept.{kept_at, kept_in, open_number, slot_in, with_put, with_taken, with_reach, with_answer, without_answer};
ghost use Rattle.open_numbers.specs.Numbers.{with_marks_below, IsIndexed, IsLowestReached, IsFirstReached, IsFirstReachedFrom};

use crate::kept::Kept;
use crate::open_call::OpenCall;
use crate::replies::Put;
use crate::requests_by_id::{RequestsById, is_reached_by};
use crate::spare_blocks::SpareBlocks;
use number_set::DenseWindow;
use rpc_messages::{Id, Reply};
use std::alloc::{AllocError, Global};
use std::marker::Model;

/// So many last numbers stand in no index: a cancel looks at each of them.
const RECENT: u32 = 128;

/// What stands for each number, seen by contracts as a list from number 0 on, with nothing for a number that is over.
#[derive(Drop)]
pub struct Numbers {
    window: DenseWindow<Option<Box<Kept>>>,
    /// The open requests before the number `recent` that no cancel has reached. Those from it on are found in the window.
    earlier: RequestsById,
    recent: u32,
    spare: SpareBlocks,
}

impl Model for Numbers {
    ghost use Rattle.std.specs.Prelude.{List, Option, map};
    ghost use Rattle.std.specs.Coded.{codes};
    ghost use Rattle.json_values.specs.Codes.{coded_data};
    ghost use Rattle.open_numbers.specs.declared.kept.Kept.{Kept};
    ghost use Rattle.open_numbers.specs.Kept.{kept_in};
    ghost use Rattle.open_numbers.specs.Numbers.{IsIndexed};

    ghost Value = { List (Option Kept) };

    ghost coded = { Prim.hlevel (codes, coded_data) };

    ghost view = { λ n. map kept_in n.window };

    ghost invariant = { λ n. IsIndexed (map kept_in n.window) n.earlier n.recent };
}

impl Numbers {
    /// The number 0 is over from the start. Takes no memory.
    pub fn new(alloc: Global) -> Numbers
        ensures { result ≡ None ∷ [] }
    {
        Numbers {
            window: DenseWindow::new(alloc),
            earlier: RequestsById::new(alloc),
            recent: 0,
            spare: SpareBlocks::new(alloc),
        }
    }

    /// The number 0 is open, as a call without an id is.
    pub fn with_opening(alloc: Global, most: u32) -> Result<Numbers, AllocError>
        ensures { IfOk result (λ numbers. numbers ≡ Some (Open (new_number None most)) ∷ []) }
    {
        let opening = Kept::open(alloc, None, most)?;
        Ok(Numbers {
            window: DenseWindow::with_first(alloc, Some(opening))?,
            earlier: RequestsById::new(alloc),
            recent: 0,
            spare: SpareBlocks::new(alloc),
        })
    }

    /// The number that the next call takes.
    pub fn next(&self) -> u32
        ensures next { result ≡ length self.now }
        ensures some { 0 < result }
    {
        self.window.len()
    }

    /// A block for a call as it arrives: one that has served before, where there is one.
    #[inline(always)]
    pub fn block(
        &mut self,
        alloc: Global,
        id: Option<Id>,
        most: u32,
    ) -> Result<Box<Kept>, AllocError>
        ensures kept { IfOk result (λ kept. kept.value ≡ Open (new_number id most)) }
        ensures same { self.new ≡ self.old }
    {
        let number = OpenCall::new(alloc, id, most)?;
        match self.spare.take() {
            Some(mut kept) => {
                *kept = Kept::Open(number);
                Ok(kept)
            }
            None => Ok(Box::new(alloc, Kept::Open(number))?),
        }
    }

    /// One new number.
    pub fn push(&mut self, call: Box<Kept>) -> Result<(), AllocError>
        requires room { length self.old ≤ MOST_NUMBERS }
        ensures ok { OnOk result (self.new ≡ self.old ++ Some (call.value) ∷ []) }
        ensures err { OnErr result (self.new ≡ self.old) }
    {
        let before = self.window.len();
        self.spare.make_room()?;
        self.window.push(Some(call))?;
        self.index_or_take_back(before)
    }

    /// New numbers.
    pub fn append(&mut self, calls: Vec<Option<Box<Kept>>>) -> Result<(), AllocError>
        requires room { length self.old + length calls.items ≤ MOST_NUMBERS + 1 }
        ensures ok { OnOk result (self.new ≡ self.old ++ map kept_in calls.items) }
        ensures err { OnErr result (self.new ≡ self.old) }
    {
        let before = self.window.len();
        self.spare.make_room()?;
        self.window.append(calls)?;
        self.index_or_take_back(before)
    }

    /// Puts the numbers into the index that aren't recent any more. Where there is no memory for that, the numbers from
    /// `before` on are taken back.
    #[inline(always)]
    fn index_or_take_back(&mut self, before: u32) -> Result<(), AllocError>
        requires { (0 < before) × (before ≤ length self.old) }
        ensures ok { OnOk result (self.new ≡ self.old) }
        ensures err { OnErr result (self.new ≡ take before self.old) }
    {
        let end = self.window.len().saturating_sub(RECENT);
        if let Err(refused) = index(&mut self.earlier, &mut self.recent, &self.window, end) {
            unindex(&mut self.earlier, &mut self.recent, &self.window, before);
            self.window.truncate(before);
            return Err(refused);
        }
        Ok(())
    }

    /// What is kept of a number, where it isn't over.
    pub fn kept(&self, number: u32) -> Option<&Kept>
        ensures { MatchOption result (kept_at self.now number ≡ None) (λ kept.
            kept_at self.now number ≡ Some kept.now) }
    {
        kept_of(&self.window, number)
    }

    /// What is kept of a number that is open.
    pub fn open_number(&self, number: u32) -> Option<&OpenCall>
        ensures { MatchOption result (open_number (kept_at self.now number) ≡ None) (λ n.
            open_number (kept_at self.now number) ≡ Some n.now) }
    {
        match self.kept(number) {
            Some(Kept::Open(call)) => Some(call),
            Some(Kept::Answered { .. }) | None => None,
        }
    }

    pub fn put_reply(&mut self, number: u32, turn: u32, reply: Reply) -> Put
        ensures put { result ≡ put_into (slot_in (kept_at self.old number) turn) }
        ensures after { self.new ≡
            slice_set self.old number (with_put turn reply (kept_at self.old number)) }
    {
        match self.window.value_mut(number) {
            Some(kept) => kept.put_reply(turn, reply),
            None => {
                drop(reply);
                Put::Unknown
            }
        }
    }

    pub fn take_reply(&mut self, number: u32, turn: u32, is_closed: bool) -> Option<Reply>
        ensures reply { result ≡ given_by is_closed (slot_in (kept_at self.old number) turn) }
        ensures after { self.new ≡
            slice_set self.old number (with_taken turn is_closed (kept_at self.old number)) }
    {
        match self.window.value_mut(number) {
            Some(kept) => kept.take_reply(turn, is_closed),
            None => None,
        }
    }

    /// A cancel of this id that stands before the number `before` in the stream.
    pub fn mark(&mut self, id: &Id, before: u32)
        ensures { self.new ≡ with_marks_below id.now before self.old }
    {
        while self.reach(id, before).is_some() {}
    }

    /// Marks the lowest request of this id that no cancel has reached, if it is below `before`.
    pub fn reach(&mut self, id: &Id, before: u32) -> Option<u32>
        ensures lowest { IsLowestReached id.now before self.old result }
        ensures none { IfNone result (self.new ≡ self.old) }
        ensures some { IfSome result (λ n.
            self.new ≡ slice_set self.old n (with_reach (kept_at self.old n))) }
    {
        let number = self.lowest(id)?;
        if number >= before {
            return None;
        }
        self.earlier.remove(id, number);
        match self.window.value_mut(number) {
            Some(kept) => kept.mark(),
            None => {}
        }
        Some(number)
    }

    /// The lowest request of this id that no cancel has reached.
    fn lowest(&self, id: &Id) -> Option<u32>
        ensures { IsFirstReached id.now self.now result }
    {
        match self.earlier.lowest(id) {
            Some(number) => Some(number),
            None => find_recent(&self.window, self.recent, id),
        }
    }

    /// The end of an open number: a request keeps its answer.
    pub fn finish(&mut self, number: u32, reply: Reply)
        ensures { self.new ≡
            slice_set self.old number (with_answer reply (kept_at self.old number)) }
    {
        if number < self.recent {
            self.earlier
                .remove_kept(number, kept_of(&self.window, number));
        }
        answer(&mut self.window, number, reply, &mut self.spare);
    }

    /// An answer that was released is kept no longer.
    pub fn forget(&mut self, number: u32)
        ensures { self.new ≡ slice_set self.old number (without_answer (kept_at self.old number)) }
    {
        if self.open_number(number).is_none() {
            give_up(&mut self.window, number, &mut self.spare);
        }
    }

    /// Gives memory back that the numbers before have left.
    #[inline(always)]
    pub fn shrink(&mut self)
        ensures { self.new ≡ self.old }
    {
        self.window.shrink();
    }
}

fn kept_of(window: &DenseWindow<Option<Box<Kept>>>, number: u32) -> Option<&Kept>
    ensures { option_copied result ≡ kept_at (map kept_in window.now) number }
{
    match window.value(number) {
        Some(kept) => Some(kept),
        None => None,
    }
}

/// Puts the numbers before `end` into the index.
fn index(
    earlier: &mut RequestsById,
    recent: &mut u32,
    window: &DenseWindow<Option<Box<Kept>>>,
    end: u32,
) -> Result<(), AllocError>
    requires end { end ≤ length window.now }
    requires indexed { IsIndexed (map kept_in window.now) earlier.old recent.old }
    ensures { IsIndexed (map kept_in window.now) earlier.new recent.new }
{
    while *recent < end {
        earlier.add_kept(*recent, kept_of(window, *recent))?;
        *recent += 1;
    }
    Ok(())
}

/// Takes the numbers from `end` on out of the index.
fn unindex(
    earlier: &mut RequestsById,
    recent: &mut u32,
    window: &DenseWindow<Option<Box<Kept>>>,
    end: u32,
)
    requires { IsIndexed (map kept_in window.now) earlier.old recent.old }
    ensures indexed { IsIndexed (map kept_in window.now) earlier.new recent.new }
    ensures end { recent.new ≤ end }
{
    while *recent > end {
        *recent -= 1;
        earlier.remove_kept(*recent, kept_of(window, *recent));
    }
}

/// The lowest request of this id from the number `recent` on that no cancel has reached.
fn find_recent(window: &DenseWindow<Option<Box<Kept>>>, recent: u32, id: &Id) -> Option<u32>
    ensures { IsFirstReachedFrom recent id.now (map kept_in window.now) result }
{
    for number in recent.max(window.first())..window.len() {
        if is_reached_by(kept_of(window, number), id) {
            return Some(number);
        }
    }
    None
}

/// The end of an open number: a request keeps its answer.
fn answer(
    window: &mut DenseWindow<Option<Box<Kept>>>,
    number: u32,
    reply: Reply,
    spare: &mut SpareBlocks,
)
    ensures { map kept_in window.new ≡
        slice_set (map kept_in window.old) number (with_answer reply (kept_at (map kept_in window.old) number)) }
{
    let is_kept = match window.value_mut(number) {
        Some(kept) => kept.answer(reply),
        None => {
            drop(reply);
            return;
        }
    };
    if !is_kept {
        give_up(window, number, spare);
    }
}

/// Lets go of what stands for a number that is over. Its block serves again, where there is room for it.
fn give_up(window: &mut DenseWindow<Option<Box<Kept>>>, number: u32, spare: &mut SpareBlocks)
    ensures { map kept_in window.new ≡ slice_set (map kept_in window.old) number None }
{
    if let Some(kept) = window.take(number) {
        spare.keep(kept);
    }
}
