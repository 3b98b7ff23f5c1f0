ghost use Rattle.std.specs.Prelude.{◌≡◌, ℕ, ◌==◌, ◌&&◌, true, false, if◌then◌else◌, ◌+◌, ◌-◌, ◌<◌, ◌≤◌, ◌^◌, ◌++◌, ◌∷◌, [], length, OnOk, OnErr, IfOk, MatchOption, Option, Some, None, is_some};
ghost use Rattle.open_calls.specs.Inner.{passes, has_key, is_of, IsNext, IsKeyIndex};
ghost use Rattle.number_windows.specs.Windows.{window_entries, IsWindow};
ghost use Rattle.open_calls.specs.declared.own_call.OwnCall.{OwnCall};
ghost use Rattle.number_windows.specs.Numbered.{at, without, up_to, changed_at, Above, Below, Ascending};

use crate::keys_by_caller::KeysByCaller;
use crate::own_call::OwnCall;
use number_windows::NumberWindow;
use std::alloc::{AllocError, Global};
use std::marker::Model;
use std::mem;

/// So many calls that were made last aren't in the index, so most have their reply before they cost a place there. They are
/// looked through at the end of each call of the other side, and are few for that.
const RECENT: u64 = 4;

/// Our calls that wait for a reply. They have the keys 1, 2, .. in the order in which they were made.
#[derive(Drop)]
pub struct OwnCalls {
    /// How many were made. `IsOwn` holds: no key is greater, and the index has just the keys that are said here.
    made: u64,
    /// Those that wait, by their keys.
    waiting: NumberWindow<OwnCall>,
    /// The index has the calls up to this key. At most `RECENT` were made behind it.
    indexed: u64,
    /// The keys of those calls, by their callers. An index of those that aren't withdrawn would make each call dearer, for
    /// the sake of a cancel that passes over withdrawn ones; and what is cancelled ends them all.
    by_caller: KeysByCaller,
}

impl Model for OwnCalls {
    ghost use Rattle.open_calls.specs.Own.{OwnState};

    ghost Value = { OwnState };

    ghost use Rattle.open_calls.specs.Inner.{IsOwn};
    ghost use Rattle.number_windows.specs.Windows.{window_entries};

    ghost view = { λ a. record { made = a.made; waiting = window_entries a.waiting } };

    ghost invariant = { λ a. IsOwn a.made a.waiting a.indexed a.by_caller };
}

impl OwnCalls {
    ghost use Rattle.open_calls.specs.Own.{new_call, new_calls, withdrawn, without_caller, next_wanted};

    pub fn new(alloc: Global) -> OwnCalls
        ensures { result ≡ record { made = 0; waiting = [] } }
    {
        OwnCalls {
            made: 0,
            waiting: NumberWindow::new(alloc),
            indexed: 0,
            by_caller: KeysByCaller::new(alloc),
        }
    }

    /// How many wait.
    pub fn len(&self) -> u64
        ensures { result ≡ length self.now.waiting }
    {
        self.waiting.len()
    }

    /// How many were made.
    pub fn made(&self) -> u64
        ensures { result ≡ self.now.made }
    {
        self.made
    }

    /// Makes so many calls on behalf of this caller, and answers the key of the first.
    pub fn make(&mut self, caller: u64, count: u64) -> Result<u64, AllocError>
        requires { self.old.made + count < 2 ^ 53 }
        ensures first { IfOk result (λ first. first ≡ self.old.made + 1) }
        ensures ok { OnOk result (self.new ≡ record {
          made = self.old.made + count;
          waiting = self.old.waiting ++ new_calls self.old.made caller count;
        }) }
        ensures err { OnErr result (self.new ≡ self.old) }
    {
        let made = self.made;
        for _index in 0..count {
            match self.make_one(caller) {
                Ok(()) => {}
                Err(refused) => {
                    self.take_back(made);
                    return Err(refused);
                }
            }
        }
        Ok(made + 1)
    }

    fn make_one(&mut self, caller: u64) -> Result<(), AllocError>
        requires { self.old.made < 2 ^ 53 }
        ensures ok { OnOk result (self.new ≡ record {
          made = self.old.made + 1;
          waiting = self.old.waiting ++ (self.old.made + 1, new_call caller) ∷ [];
        }) }
        ensures err { OnErr result (self.new ≡ self.old) }
    {
        let key = self.made + 1;
        self.waiting.make_room()?;
        let indexed = index_older(&mut self.by_caller, &self.waiting, self.indexed, self.made)?;
        self.indexed = indexed;
        let call = OwnCall {
            caller,
            is_withdrawn: false,
        };
        self.waiting.push(key, call);
        self.made = key;
        Ok(())
    }

    /// All calls with keys above this one are as if they had never been made.
    fn take_back(&mut self, made: u64)
        requires { made ≤ self.old.made }
        ensures { self.new ≡ record { made = made; waiting = up_to made self.old.waiting } }
    {
        while self.made > made {
            self.remove_last();
        }
    }

    /// The call that was made last is as if it had never been made.
    fn remove_last(&mut self)
        requires { 0 < self.old.made }
        ensures { self.new ≡ record {
          made = self.old.made - 1;
          waiting = without self.old.made self.old.waiting;
        } }
    {
        let key = self.made;
        self.remove(key);
        self.made = key - 1;
        self.indexed = self.indexed.min(self.made);
    }

    /// The call with this key, where it waits.
    pub fn get(&self, key: u64) -> Option<OwnCall>
        ensures { result ≡ at key self.now.waiting }
    {
        self.waiting.get(key).copied()
    }

    /// Marks the call with this key as withdrawn, where it waits.
    pub fn withdraw(&mut self, key: u64)
        ensures { self.new ≡ record self.old { waiting = changed_at key withdrawn self.old.waiting } }
    {
        let Some(call) = self.waiting.get_mut(key) else {
            return;
        };
        call.is_withdrawn = true;
    }

    /// The call with this key doesn't wait any more. Says whether it did.
    pub fn remove(&mut self, key: u64) -> bool
        ensures was { result ≡ is_some (at key self.old.waiting) }
        ensures state { self.new ≡ record self.old { waiting = without key self.old.waiting } }
    {
        let Some(call) = self.waiting.remove(key) else {
            return false;
        };
        forget(&mut self.by_caller, call.caller, key, self.indexed);
        true
    }

    /// No call of this caller waits any more.
    pub fn end_caller(&mut self, caller: u64)
        ensures { self.new ≡ record self.old { waiting = without_caller caller self.old.waiting } }
    {
        while let Some(key) = self.next_key(caller, 0) {
            self.remove(key);
        }
    }

    /// No call waits any more. Those that did come as calls of their own, with the same keys. Takes no memory.
    pub fn take_waiting(&mut self, alloc: Global) -> OwnCalls
        ensures calls { result ≡ self.old }
        ensures state { self.new ≡ record self.old { waiting = [] } }
    {
        let none = OwnCalls {
            made: self.made,
            waiting: NumberWindow::new(alloc),
            indexed: self.made,
            by_caller: KeysByCaller::new(alloc),
        };
        mem::replace(self, none)
    }

    /// The first call that waits doesn't wait any more. Answers its key.
    pub fn pop_first(&mut self) -> Option<u64>
        ensures first { MatchOption result (self.old.waiting ≡ [])
            (λ key. (call : OwnCall) × (self.old.waiting ≡ (key, call) ∷ self.new.waiting)) }
        ensures none { result ≡ None → self.new ≡ self.old }
        ensures made { self.new.made ≡ self.old.made }
    {
        let key = match self.waiting.first() {
            Some(key) => key,
            None => return None,
        };
        self.remove(key);
        Some(key)
    }

    /// The least key above `after` of a call of this caller that isn't withdrawn. Keys ascend, and are above 0.
    pub fn next_of(&self, caller: u64, after: u64) -> Option<u64>
        ensures key { result ≡ next_wanted caller after self.now.waiting }
        ensures positive { Above 0 self.now.waiting }
        ensures ascending { Ascending self.now.waiting }
    {
        let mut next = self.next_key(caller, after);
        while let Some(key) = next {
            if !self.is_withdrawn(key) {
                break;
            }
            next = self.next_key(caller, key);
        }
        next
    }

    /// The least key above `after` of a call of this caller. Keys ascend, are above 0, and none is above the last.
    fn next_key(&self, caller: u64, after: u64) -> Option<u64>
        ensures next { IsNext (λ k. passes (is_of caller) (at k self.now.waiting)) after result }
        ensures positive { Above 0 self.now.waiting }
        ensures numbered { Below (self.now.made + 1) self.now.waiting }
        ensures ascending { Ascending self.now.waiting }
    {
        match self.by_caller.next(caller, after) {
            Some(key) => Some(key),
            None => first_behind(&self.waiting, self.indexed.max(after), caller),
        }
    }

    /// Whether the call with this key is withdrawn and waits.
    fn is_withdrawn(&self, key: u64) -> bool
        ensures { result ≡ passes (λ call. call.is_withdrawn) (at key self.now.waiting) }
    {
        match self.waiting.get(key) {
            Some(call) => call.is_withdrawn,
            None => false,
        }
    }
}

/// The least key above `after` of a call of this caller, one by one.
fn first_behind(waiting: &NumberWindow<OwnCall>, after: u64, caller: u64) -> Option<u64>
    requires { IsWindow waiting.now }
    ensures { IsNext (λ k. passes (is_of caller) (at k (window_entries waiting.now))) after result }
{
    let mut after = after;
    while let Some((key, call)) = waiting.first_above(after) {
        if call.caller == caller {
            return Some(*key);
        }
        after = *key;
    }
    None
}

/// Where `RECENT` calls aren't in the index, the oldest of them goes there. Answers up to which key they are there now.
fn index_older(
    by_caller: &mut KeysByCaller,
    waiting: &NumberWindow<OwnCall>,
    indexed: u64,
    made: u64,
) -> Result<u64, AllocError>
    requires window { IsWindow waiting.now }
    requires within { indexed ≤ made }
    requires few { made ≤ indexed + 4 }
    requires numbered { Below (made + 1) (window_entries waiting.now) }
    requires index { IsKeyIndex by_caller.old (up_to indexed (window_entries waiting.now)) }
    ensures ok { IfOk result (λ now. (now ≤ made) × (made < now + 4) ×
        IsKeyIndex by_caller.new (up_to now (window_entries waiting.now))) }
    ensures err { OnErr result (IsKeyIndex by_caller.new (up_to indexed (window_entries waiting.now))) }
{
    if made - indexed < RECENT {
        return Ok(indexed);
    }
    match waiting.first_above(indexed) {
        Some((next, call)) if *next == indexed + 1 => {
            by_caller.add(call.caller, *next)?;
            Ok(*next)
        }
        Some((next, _)) => Ok(*next - 1),
        None => Ok(made),
    }
}

/// Takes a key out of the index, where it is up to `indexed`.
fn forget(by_caller: &mut KeysByCaller, caller: u64, key: u64, indexed: u64)
    ensures older { key ≤ indexed → (c k : ℕ) → has_key by_caller.new c k ≡
        (if (caller == c) && (key == k) then false else has_key by_caller.old c k) }
    ensures newer { indexed < key → (c k : ℕ) → has_key by_caller.new c k ≡ has_key by_caller.old c k }
{
    if key <= indexed {
        by_caller.remove(caller, key);
    }
}
