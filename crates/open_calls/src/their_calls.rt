ghost use Rattle.std.specs.Prelude.{◌≡◌, ℕ, ◌==◌, ◌&&◌, true, false, if◌then◌else◌, ◌+◌, ◌-◌, ◌<◌, ◌≤◌, ◌^◌, ◌++◌, ◌∷◌, [], length, OnOk, OnErr, IfOk, Option, Some, None, option_copied};
ghost use Rattle.number_windows.specs.Windows.{window_entries, IsWindow};
ghost use Rattle.open_calls.specs.Theirs.{cancelled, is_reached};
ghost use Rattle.open_calls.specs.Inner.{is_listed, passes, IsFirst, IsNext, IsNumberIndex};
ghost use Rattle.message_ids.specs.declared.id.Id.{Id};
ghost use Rattle.message_ids.specs.Ids.{has_id, same_id};
ghost use Rattle.number_windows.specs.Numbered.{at, without, up_to, changed_at, Below, Ascending};

use crate::numbers_by_id::NumbersById;
use crate::their_call::TheirCall;
use message_ids::Id;
use number_windows::NumberWindow;
use std::alloc::{AllocError, Global};
use std::marker::Model;

/// So many calls that came last aren't in the index. A cancel compares its id with theirs, so most calls are answered before
/// they cost a place there.
const RECENT: u64 = 128;

/// The other side's calls that are open. They have the numbers 1, 2, .. in the order in which they came.
#[derive(Drop)]
pub struct TheirCalls {
    /// How many came. `IsTheirs` holds: no number is greater, and the index has just the numbers that are said here.
    came: u64,
    /// Those that are open, by their numbers.
    calls: NumberWindow<TheirCall>,
    /// The index has the calls up to this number. At most `RECENT` came behind it.
    indexed: u64,
    /// Of those calls the numbers of the requests that no cancel has reached.
    by_id: NumbersById,
}

impl Model for TheirCalls {
    ghost use Rattle.open_calls.specs.Theirs.{TheirState};

    ghost Value = { TheirState };

    ghost use Rattle.open_calls.specs.Inner.{IsTheirs};
    ghost use Rattle.number_windows.specs.Windows.{window_entries};

    ghost view = { λ a. record { came = a.came; calls = window_entries a.calls } };

    ghost invariant = { λ a. IsTheirs a.came a.calls a.indexed a.by_id };
}

impl TheirCalls {
    ghost use Rattle.open_calls.specs.Theirs.{new_call, reached, cancelled_at};

    pub fn new(alloc: Global) -> TheirCalls
        ensures { result ≡ record { came = 0; calls = [] } }
    {
        TheirCalls {
            came: 0,
            calls: NumberWindow::new(alloc),
            indexed: 0,
            by_id: NumbersById::new(alloc),
        }
    }

    /// How many are open.
    pub fn len(&self) -> u64
        ensures { result ≡ length self.now.calls }
    {
        self.calls.len()
    }

    /// How many came. No call that is open has a greater number. Numbers ascend.
    pub fn came(&self) -> u64
        ensures came { result ≡ self.now.came }
        ensures numbers { up_to self.now.came self.now.calls ≡ self.now.calls }
        ensures ascending { Ascending self.now.calls }
    {
        self.came
    }

    /// Takes a call in, whose answer belongs into this slot of the unit at this place, and answers its number. A
    /// notification has no id.
    pub fn add(&mut self, id: Option<Id>, place: u64, slot: u64) -> Result<u64, AllocError>
        requires { self.old.came < 2 ^ 64 - 1 }
        ensures number { IfOk result (λ number. number ≡ self.old.came + 1) }
        ensures ok { OnOk result (self.new ≡ record {
          came = self.old.came + 1;
          calls = self.old.calls ++ (self.old.came + 1, new_call id place slot) ∷ [];
        }) }
        ensures err { OnErr result (self.new ≡ self.old) }
    {
        let number = self.came + 1;
        self.calls.make_room()?;
        let indexed = index_older(&mut self.by_id, &self.calls, self.indexed, self.came)?;
        self.indexed = indexed;
        let call = TheirCall {
            id,
            is_cancelled: false,
            place,
            slot,
        };
        self.calls.push(number, call);
        self.came = number;
        Ok(number)
    }

    /// All calls with numbers above this one are as if they had never come.
    pub fn take_back(&mut self, came: u64)
        requires { came ≤ self.old.came }
        ensures { self.new ≡ record { came = came; calls = up_to came self.old.calls } }
    {
        while self.came > came {
            self.close_last();
        }
    }

    /// The call that came last is as if it had never come.
    fn close_last(&mut self)
        requires { 0 < self.old.came }
        ensures { self.new ≡ record {
          came = self.old.came - 1;
          calls = without self.old.came self.old.calls;
        } }
    {
        let number = self.came;
        drop(self.close(number));
        self.came = number - 1;
        self.indexed = self.indexed.min(self.came);
    }

    /// The call with this number, where it is open.
    pub fn get(&self, number: u64) -> Option<&TheirCall>
        ensures { option_copied result ≡ at number self.now.calls }
    {
        self.calls.get(number)
    }

    /// The call with this number isn't open any more.
    pub fn close(&mut self, number: u64) -> Option<TheirCall>
        ensures call { result ≡ at number self.old.calls }
        ensures state { self.new ≡ record self.old { calls = without number self.old.calls } }
    {
        let call = match self.calls.remove(number) {
            Some(call) => call,
            None => return None,
        };
        forget_call(&mut self.by_id, &call, number, self.indexed);
        Some(call)
    }

    /// Cancels the first request with this id and at most this number that no cancel has reached, and answers its number.
    /// Numbers ascend, so no other call has it.
    pub fn reach_up_to(&mut self, id: &Id, most: u64) -> Option<u64>
        ensures number { result ≡ reached id.now (up_to most self.old.calls) }
        ensures state { self.new ≡ record self.old {
          calls = cancelled_at (reached id.now (up_to most self.old.calls)) self.old.calls;
        } }
        ensures ascending { Ascending self.old.calls }
    {
        let number = match self.first_with(id) {
            Some(number) if number <= most => number,
            _ => return None,
        };
        cancel(&mut self.calls, number);
        forget(&mut self.by_id, id, number, self.indexed);
        Some(number)
    }

    /// The number of the first request with this id that no cancel has reached.
    fn first_with(&self, id: &Id) -> Option<u64>
        ensures { IsFirst (λ k. passes (is_reached id.now) (at k self.now.calls)) result }
    {
        match self.by_id.least(id) {
            Some(number) => Some(number),
            None => first_behind(&self.calls, self.indexed, id),
        }
    }
}

/// Cancels the call with this number, where it is open.
fn cancel(calls: &mut NumberWindow<TheirCall>, number: u64)
    requires { IsWindow calls.old }
    ensures entries { window_entries calls.new ≡ changed_at number cancelled (window_entries calls.old) }
    ensures window { IsWindow calls.new }
{
    if let Some(call) = calls.get_mut(number) {
        call.is_cancelled = true;
    }
}

/// The number of the first request behind `after` with this id that no cancel has reached.
fn first_behind(calls: &NumberWindow<TheirCall>, after: u64, id: &Id) -> Option<u64>
    requires { IsWindow calls.now }
    ensures { IsNext (λ k. passes (is_reached id.now) (at k (window_entries calls.now))) after result }
{
    let mut after = after;
    while let Some((number, call)) = calls.first_above(after) {
        if is_open_request(call, id) {
            return Some(*number);
        }
        after = *number;
    }
    None
}

/// Whether a call is a request with this id that no cancel has reached.
fn is_open_request(call: &TheirCall, id: &Id) -> bool
    ensures { result ≡ is_reached id.now call.now }
{
    match &call.id {
        Some(own) => own == id && !call.is_cancelled,
        None => false,
    }
}

/// Where `RECENT` calls aren't in the index, the oldest of them goes there. Answers up to which number they are there now.
fn index_older(
    by_id: &mut NumbersById,
    calls: &NumberWindow<TheirCall>,
    indexed: u64,
    came: u64,
) -> Result<u64, AllocError>
    requires window { IsWindow calls.now }
    requires within { indexed ≤ came }
    requires few { came ≤ indexed + 128 }
    requires numbered { Below (came + 1) (window_entries calls.now) }
    requires index { IsNumberIndex by_id.old (up_to indexed (window_entries calls.now)) }
    ensures ok { IfOk result (λ now. (now ≤ came) × (came < now + 128) ×
        IsNumberIndex by_id.new (up_to now (window_entries calls.now))) }
    ensures err { OnErr result (IsNumberIndex by_id.new (up_to indexed (window_entries calls.now))) }
{
    if came - indexed < RECENT {
        return Ok(indexed);
    }
    match calls.first_above(indexed) {
        Some((next, call)) if *next == indexed + 1 => {
            note(by_id, call, *next)?;
            Ok(*next)
        }
        Some((next, _)) => Ok(*next - 1),
        None => Ok(came),
    }
}

/// Puts the number of a request that no cancel has reached into the index.
fn note(by_id: &mut NumbersById, call: &TheirCall, number: u64) -> Result<(), AllocError>
    ensures ok { OnOk result ((q : Id) (k : ℕ) → is_listed by_id.new q k ≡
        (if is_reached q call.now && (number == k) then true else is_listed by_id.old q k)) }
    ensures err { OnErr result ((q : Id) (k : ℕ) →
        is_listed by_id.new q k ≡ is_listed by_id.old q k) }
{
    match &call.id {
        Some(id) if !call.is_cancelled => by_id.add(id, number),
        _ => Ok(()),
    }
}

/// Takes the number of a request out of the index, where it is up to `indexed`.
fn forget(by_id: &mut NumbersById, id: &Id, number: u64, indexed: u64)
    ensures older { number ≤ indexed → (q : Id) (k : ℕ) → is_listed by_id.new q k ≡
        (if same_id id.now q && (number == k) then false else is_listed by_id.old q k) }
    ensures newer { indexed < number → (q : Id) (k : ℕ) →
        is_listed by_id.new q k ≡ is_listed by_id.old q k }
{
    if number <= indexed {
        by_id.remove(id, number);
    }
}

/// The same of a call. A notification isn't there.
fn forget_call(by_id: &mut NumbersById, call: &TheirCall, number: u64, indexed: u64)
    ensures older { number ≤ indexed → (q : Id) (k : ℕ) → is_listed by_id.new q k ≡
        (if has_id q call.now.id && (number == k) then false else is_listed by_id.old q k) }
    ensures newer { indexed < number → (q : Id) (k : ℕ) →
        is_listed by_id.new q k ≡ is_listed by_id.old q k }
{
    if let Some(id) = &call.id {
        forget(by_id, id, number, indexed);
    }
}
