//! The rooms of handlers that are over, kept for further calls.

ghost use Rattle.rpc_messages.specs.declared.key.TheConstants.{MOST_NUMBERS};
ghost use Rattle.std.specs.Prelude.{◌≡◌, ◌≢◌, ◌≤◌, ◌<◌, IfOk, length};
ghost use Rattle.std.specs.Arc.{arc_value};
ghost use Rattle.handler_future.specs.State.{new_state, program_at};

use handler_future::{Handler, Room};
use method_steps::Table;
use rpc_messages::{Call, Params};
use std::alloc::{AllocError, Global};
use std::sync::Arc;

/// So many rooms are kept at most.
const MOST_KEPT: usize = 256;

/// The rooms of handlers that are over. A new handler takes one of them.
pub(crate) struct Spare {
    alloc: Global,
    rooms: Vec<Room>,
    ghost few: { length rooms.items ≤ 256 },
}

// Written out, so that whoever drops one makes a call, and knows nothing of what is in it.
impl Drop for Spare {
    fn drop(self) {
        let Spare { alloc: _, rooms } = self;
        drop(rooms);
    }
}

impl Spare {
    /// None yet, with room for all that will be kept.
    pub(crate) fn new(alloc: Global) -> Result<Spare, AllocError> {
        Ok(Spare {
            alloc,
            rooms: Vec::with_capacity(alloc, MOST_KEPT)?,
        })
    }

    /// A handler that runs a method for a call, before its first poll.
    pub(crate) fn handler(
        &mut self,
        table: &Table,
        method: u32,
        number: u32,
        call: Arc<Call>,
    ) -> Result<Handler, AllocError>
        requires method { method < length table.now.methods }
        requires number { (1 ≤ number) × (number ≤ MOST_NUMBERS) }
        requires params { (arc_value call).params ≢ Params.Fractional }
        ensures { IfOk result (λ handler. handler
            ≡ new_state number (program_at table.now.methods method call)) }
    {
        match self.rooms.pop() {
            Some(room) => Handler::in_room(room, table, method, number, call),
            None => Handler::new(self.alloc, table, method, number, call),
        }
    }

    /// Keeps the room of a handler that is over, while there are few.
    pub(crate) fn keep(&mut self, handler: Handler) {
        if self.rooms.len() < MOST_KEPT && self.rooms.len() < self.rooms.capacity() {
            self.rooms.push_reserved(handler.into_room());
        } else {
            drop(handler);
        }
    }
}
