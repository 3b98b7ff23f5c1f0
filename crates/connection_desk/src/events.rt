ghost use Rattle.std.specs.Prelude.{◌≡◌, ◌≤◌, ◌<◌, ◌+◌, ◌++◌, ◌∷◌, [], Option, Some, None, option_to_list, OnOk, IsTrue, ◌↔◌};
ghost use Rattle.std.specs.VecDeque.{deque_capacity};
ghost use Rattle.connection_history.specs.declared.event.Event.TheVariants.{Over as over_told};
ghost use Rattle.connection_desk.specs.Inner.{untold_of, room_of, unanswered_events, IsOpenEnded};

use connection_history::{Close, Event};
use open_calls::OwnCalls;
use std::alloc::{AllocError, Global};
use std::collections::VecDeque;
use std::mem;

/// Room for so many events is kept for those to come, some 28 KB. A batch may bring millions.
const MOST_KEPT: usize = 256;

/// What the host hasn't been told yet. The calls that wait when the input ends aren't turned into events before they are told.
#[derive(Drop)]
pub struct Events {
    alloc: Global,
    /// All but what is told at the end.
    pub(crate) items: VecDeque<Event>,
    /// The calls that waited when the input ended.
    pub(crate) unanswered: OwnCalls,
    /// How the input ended, until it is told.
    pub(crate) over: Option<Close>,
}

impl Events {
    pub fn new(alloc: Global) -> Events
        ensures untold { untold_of result ≡ [] }
        ensures open { IsOpenEnded result }
    {
        Events {
            alloc,
            items: VecDeque::new(alloc),
            unanswered: OwnCalls::new(alloc),
            over: None,
        }
    }

    pub fn is_empty(&self) -> bool
        ensures { IsTrue result ↔ (untold_of self.now ≡ []) }
    {
        if self.items.front().is_some() {
            return false;
        }
        if self.unanswered.len() > 0 {
            return false;
        }
        self.over.is_none()
    }

    /// Makes room for so many more events.
    pub fn reserve(&mut self, count: usize) -> Result<(), AllocError>
        ensures untold { untold_of self.new ≡ untold_of self.old }
        ensures open { IsOpenEnded self.old → IsOpenEnded self.new }
        ensures room { OnOk result (count ≤ room_of self.new) }
    {
        self.items.reserve(count)
    }

    /// Puts an event behind the others. There is room for it. It is a part of its callers: as a call it would take the
    /// event's 14 words behind a pointer, so they would be moved twice more.
    #[inline(always)]
    pub fn push(&mut self, event: Event)
        requires room { 0 < room_of self.old }
        requires open { IsOpenEnded self.old }
        ensures untold { untold_of self.new ≡ untold_of self.old ++ event ∷ [] }
        ensures open { IsOpenEnded self.new }
        ensures room { room_of self.new + 1 ≡ room_of self.old }
    {
        let put = self.items.push_back(event);
        drop(put);
    }

    /// The input is over: what waited is told, and then how it ended.
    pub fn end(&mut self, unanswered: OwnCalls, close: Close)
        requires { IsOpenEnded self.old }
        ensures { untold_of self.new ≡
            untold_of self.old ++ unanswered_events unanswered ++ over_told close ∷ [] }
    {
        self.unanswered = unanswered;
        self.over = Some(close);
    }

    /// The next event.
    pub fn next(&mut self) -> Option<Event>
        ensures untold { untold_of self.old ≡ option_to_list result ++ untold_of self.new }
        ensures none { result ≡ None → untold_of self.new ≡ [] }
        ensures open { IsOpenEnded self.old → IsOpenEnded self.new }
        ensures kept { self.new.items.items ≡ [] → deque_capacity self.new.items ≤ 256 }
    {
        if let Some(event) = self.items.pop_front() {
            self.let_go_of_room();
            return Some(event);
        }
        self.let_go_of_room();
        if let Some(key) = self.unanswered.pop_first() {
            return Some(Event::Unanswered { key });
        }
        let close = self.over?;
        self.over = None;
        Some(Event::Over(close))
    }

    /// Room for many events is given back once all are told, also where none came: what a large batch took isn't kept.
    fn let_go_of_room(&mut self)
        ensures items { self.new.items.items ≡ self.old.items.items }
        ensures unanswered { self.new.unanswered ≡ self.old.unanswered }
        ensures over { self.new.over ≡ self.old.over }
        ensures kept { self.new.items.items ≡ [] → deque_capacity self.new.items ≤ 256 }
    {
        if self.items.is_empty() && self.items.capacity() > MOST_KEPT {
            // Of a queue that is made from a `Vec` it is said that it has no room.
            let none = VecDeque::from_vec(Vec::new(self.alloc));
            drop(mem::replace(&mut self.items, none));
        }
    }
}
