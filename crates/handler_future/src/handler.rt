ghost use Rattle.std.specs.Prelude.{◌≡◌, ◌≢◌, ◌≤◌, ◌<◌, ◌==◌, [], length, All, IfOk, IfErr, OnOk, OnErr, is_ok, unwrap_or};
ghost use Rattle.std.specs.Arc.{arc_value};
ghost use Rattle.std.specs.List.{list_any};
ghost use Rattle.rpc_messages.specs.declared.params.Params.TheVariants as Params;
ghost use Rattle.rpc_messages.specs.declared.key.TheConstants.{MOST_NUMBERS};
ghost use Rattle.method_templates.specs.declared.limits.TheConstants.{MOST_CALLS};
ghost use Rattle.method_templates.specs.Steps.{AreWithinLimits, calls_of};
ghost use Rattle.method_steps.specs.Steps.{shared_steps, steps_at};
ghost use Rattle.handler_future.specs.Front.{HasTurnsUpTo, unheard, last_turns};
ghost use Rattle.handler_future.specs.Inner.Handler.{params_in};
ghost use Rattle.handler_future.specs.Rooms.{IsVacant};
ghost use Rattle.handler_future.specs.State.{new_state, opening_state, program_at, with_heard, IsPoll};

use crate::course::Course;
use crate::message::Message;
use crate::outcome::{NotWaiting, Outcome};
use crate::phase::Phase;
use crate::room::Room;
use crate::run::{Run, clear, hear, poll, restart};
use method_steps::Table;
use method_templates::{Locals, Step};
use rpc_messages::{Call, Reply};
use std::alloc::{AllocError, Global};
use std::marker::Model;
use std::sync::Arc;

/// The run of one method. It is one pointer, so that who passes it on moves no more than that.
pub struct Handler {
    run: Box<Run>,
}

// Written out, so that whoever drops one makes a call, and knows nothing of what is in it.
impl Drop for Handler {
    fn drop(self) {
        let Handler { run } = self;
        drop(run);
    }
}

impl Model for Handler {
    ghost use Rattle.std.specs.Coded.{codes};
    ghost use Rattle.json_values.specs.Codes.{coded_data};
    ghost use Rattle.method_templates.specs.Shape.{coded_shape};
    ghost use Rattle.handler_future.specs.State.{HandlerState};

    ghost Value = { HandlerState };

    ghost coded = { Prim.hlevel (codes, coded_data, coded_shape) };

    ghost use Rattle.handler_future.specs.Inner.Handler.{state_of, IsHandler};

    ghost view = { state_of };

    ghost invariant = { IsHandler };
}

impl Handler {
    /// A handler of the table's method, for the call of this number, 1 to 1,000,000.
    pub fn new(
        alloc: Global,
        table: &Table,
        method: u32,
        number: u32,
        call: Arc<Call>,
    ) -> Result<Handler, AllocError>
        requires method { method < length table.now.methods }
        requires number { (1 ≤ number) × (number ≤ MOST_NUMBERS) }
        requires params { (arc_value call).params ≢ Params.Fractional }
        ensures { IfOk result (λ handler. handler
            ≡ new_state number (program_at table.now.methods method call)) }
    {
        let steps = steps_of(alloc, table, method)?;
        Handler::before_polls(alloc, number, Some(call), steps)
    }

    /// The handler of the table's opening, where it has one. Its number is 0; no call runs it, so its register `params` is null.
    pub fn opening(alloc: Global, table: &Table) -> Result<Option<Handler>, AllocError>
        ensures { IfOk result (λ handler. handler ≡ opening_state table.now.opening) }
    {
        match table.opening_steps() {
            Some(steps) => {
                let steps = Arc::try_clone(steps)?;
                let handler = Handler::before_polls(alloc, 0, None, steps)?;
                Ok(Some(handler))
            }
            None => Ok(None),
        }
    }

    /// A handler of the steps, for a call or for none.
    fn before_polls(
        alloc: Global,
        number: u32,
        call: Option<Arc<Call>>,
        steps: Arc<Vec<Step>>,
    ) -> Result<Handler, AllocError>
        requires { AreWithinLimits (shared_steps steps) }
        ensures { IfOk result (λ handler. handler ≡ new_state number
            (record { steps = shared_steps steps; params = params_in call })) }
    {
        let registers = Locals::new(alloc)?;
        let run = Run {
            alloc,
            number,
            call,
            steps,
            course: Course {
                place: 0,
                registers,
                turn: 1,
                asked: 0,
                heard_before: 0,
                messages: Vec::new(alloc),
                waits: Vec::new(alloc),
                heard: Vec::new(alloc),
            },
            phase: Phase::UnderWay,
        };
        Ok(Handler {
            run: Box::new(alloc, run)?,
        })
    }

    /// The same as `new`, in the room of a handler that is over.
    pub fn in_room(
        room: Room,
        table: &Table,
        method: u32,
        number: u32,
        call: Arc<Call>,
    ) -> Result<Handler, AllocError>
        requires method { method < length table.now.methods }
        requires number { (1 ≤ number) × (number ≤ MOST_NUMBERS) }
        requires params { (arc_value call).params ≢ Params.Fractional }
        ensures { IfOk result (λ handler. handler
            ≡ new_state number (program_at table.now.methods method call)) }
    {
        let Room { mut run } = room;
        let steps = steps_of(run.alloc, table, method)?;
        restart(&mut run, number, call, steps)?;
        Ok(Handler { run })
    }

    /// The room of a handler that is over. All else that it held is let go, its call too.
    pub fn into_room(self) -> Room
        ensures { IsVacant result.run.value }
    {
        let Handler { mut run } = self;
        clear(&mut run);
        Room { run }
    }

    /// The number of its call; 0 for an opening.
    pub fn number(&self) -> u32
        ensures { result ≡ self.now.number }
    {
        self.run.number
    }

    /// A poll: runs steps until the method ends or waits for a reply, which is `None`.
    pub fn advance(&mut self) -> Option<Outcome>
        ensures { IsPoll self.old self.new result }
    {
        poll(&mut self.run)
    }

    /// The turns awaited and not heard, ascending.
    pub fn waits(&self) -> &[u32]
        ensures value { result.now ≡ self.now.waits }
        ensures last { result.now ≡ unheard self.now.heard (last_turns self.now.messages) }
        ensures within { All (λ turn.
            (1 ≤ turn) × (turn ≤ calls_of self.now.program.steps)) result.now }
    {
        self.run.course.waits.as_slice()
    }

    /// Takes the reply to an awaited call; one to any other call is given back. Takes no memory.
    pub fn hear(&mut self, turn: u32, reply: Reply) -> Result<(), NotWaiting>
        ensures awaited { is_ok result ≡ list_any (λ wait. wait == turn) self.old.waits }
        ensures ok { OnOk result (self.new ≡ with_heard self.old turn reply) }
        ensures back { IfErr result (λ refused. refused.reply ≡ reply) }
        ensures err { OnErr result (self.new ≡ self.old) }
        ensures waits { self.new.waits ≡ unheard self.new.heard (last_turns self.new.messages) }
    {
        hear(&mut self.run, turn, reply)
    }

    /// All made so far.
    pub fn messages(&self) -> &[Message]
        ensures value { result.now ≡ self.now.messages }
        ensures turns { All (HasTurnsUpTo (calls_of self.now.program.steps)) result.now }
        ensures few { calls_of self.now.program.steps ≤ MOST_CALLS }
    {
        self.run.course.messages.as_slice()
    }

    /// All heard so far.
    pub fn heard(&self) -> &[(u32, Reply)]
        ensures { result.now ≡ self.now.heard }
    {
        self.run.course.heard.as_slice()
    }
}

/// The steps of the table's method, shared.
fn steps_of(alloc: Global, table: &Table, method: u32) -> Result<Arc<Vec<Step>>, AllocError>
    ensures steps { IfOk result (λ steps.
        shared_steps steps ≡ unwrap_or (steps_at table.now.methods method) []) }
    ensures limits { IfOk result (λ steps. AreWithinLimits (shared_steps steps)) }
{
    match table.steps(method) {
        Some(steps) => Arc::try_clone(steps),
        None => Ok(Arc::new(alloc, Vec::new(alloc))?),
    }
}
