//! What a session keeps of units and numbers.

ghost use Rattle.rpc_messages.specs.declared.key.TheConstants.{MOST_NUMBERS};
ghost use Rattle.std.specs.Prelude.{◌≡◌, ◌≢◌, ◌<◌, ◌≤◌, ◌+◌, ◌-◌, ◌++◌, ◌↔◌, ◌⊎◌, [], ℕ, IsTrue, IfOk, IfSome, OnOk, OnErr, MatchOption, length, flat_map, map, slice_get, slice_set, None, true, false, max};
ghost use Rattle.lsp_frames.specs.Frames.{written};
ghost use Rattle.number_set.specs.Numbers.{HasRoom, is_in, with_mark};
ghost use Rattle.rpc_messages.specs.Numbering.{unit_numbers};
ghost use Rattle.rpc_messages.specs.Unit.{unit_seen};
ghost use Rattle.answer_desk.specs.Desk.{view as desk_view};
ghost use Rattle.answer_desk.specs.State.{is_open, number_at, reply_of, without_reply, with_reply, with_reached, with_end, IsLowestInReach, front_texts, without_front};
ghost use Rattle.open_numbers.specs.OpenCalls.{is_marked_number};
ghost use Rattle.peer_events.specs.declared.stage.Stage.TheVariants.{Gone};
ghost use Rattle.peer_events.specs.Stages.{is_gone, stage_at as stage_in_list};
ghost use Rattle.peer_events.specs.Core.{Core, stage_at, with_stage, with_desk};
ghost use Rattle.peer_events.specs.Hearing.{is_ready};
ghost use Rattle.peer_events.specs.Taking.{opened};
ghost use Rattle.peer_events.specs.Turning.{start, closed, ready, is_ready_stage, written_stage};
ghost use Rattle.session_runs.specs.Runs.{NothingDue, StageFits, is_idle, is_live, has_unwritten, is_more_than, unwritten_numbers};

use crate::admission::enter;
use crate::arrival::numbers_of;
use crate::marks::{make_room, mark_ready, set_mark, set_with_room, set_with_zero};
use crate::spare::Spare;
use crate::stages::{has_unwritten, is_ready_at, is_ready_stage};
use answer_desk::Desk;
use handler_future::Handler;
use json_values::Items;
use method_steps::Table;
use number_set::{DenseWindow, NumberSet};
use peer_events::Stage;
use rpc_messages::{Id, Reply, Unit};
use std::alloc::{AllocError, Global};
use std::marker::Model;

/// The desk and the stage of each number, and which numbers are ready and which have something to
/// write. Both sets have room for each number that isn't gone, so that no change of a stage takes
/// memory.
#[derive(Drop)]
pub struct Runs {
    desk: Desk,
    stages: DenseWindow<Stage>,
    ready: NumberSet,
    unwritten: NumberSet,
    /// Handlers that are over. Contracts don't see them.
    spare: Spare,
}

impl Model for Runs {
    ghost use Rattle.std.specs.Coded.{codes};
    ghost use Rattle.json_values.specs.Codes.{coded_data};
    ghost use Rattle.method_templates.specs.Shape.{coded_shape};
    ghost use Rattle.answer_desk.specs.Desk.{view as desk_view};
    ghost use Rattle.peer_events.specs.Core.{Core};
    ghost use Rattle.session_runs.specs.Runs.{AreRuns};

    ghost Value = { Core };

    ghost coded = { Prim.hlevel (codes, coded_data, coded_shape) };

    ghost view = { λ r. record { desk = desk_view r.desk; stages = r.stages } };

    ghost invariant = { λ r. AreRuns (record { desk = desk_view r.desk; stages = r.stages }) r.ready r.unwritten };
}

impl Runs {
    /// Before the first unit. The opening's handler is ready, where the table has one.
    pub fn new(alloc: Global, table: &Table) -> Result<Runs, AllocError>
        ensures { IfOk result (λ runs. runs ≡ start table.now) }
    {
        match Handler::opening(alloc, table)? {
            None => Ok(Runs {
                desk: Desk::new(alloc),
                stages: DenseWindow::new(alloc),
                ready: NumberSet::new(alloc),
                unwritten: NumberSet::new(alloc),
                spare: Spare::new(alloc)?,
            }),
            Some(handler) => Ok(Runs {
                stages: DenseWindow::with_first(alloc, Stage::Idle(handler, 0))?,
                ready: set_with_zero(alloc)?,
                unwritten: set_with_room(alloc)?,
                spare: Spare::new(alloc)?,
                desk: Desk::with_opening(alloc, table.opening_most())?,
            }),
        }
    }

    /// The number that the next call takes.
    pub fn next_number(&self) -> u32
        ensures next { result ≡ length self.now.stages }
        ensures few { result ≤ MOST_NUMBERS + 1 }
        ensures some { 0 < result }
    {
        self.stages.len()
    }

    /// The stage of a number, where it isn't gone.
    pub fn stage(&self, number: u32) -> Option<&Stage>
        ensures stage { MatchOption result (stage_at self.now number ≡ Gone)
            (λ stage. stage_at self.now number ≡ stage.now) }
        ensures fits { IfSome result (λ stage. StageFits self.now.desk number stage.now) }
    {
        self.stages.get(number)
    }

    /// Whether nothing is left to do or to write.
    pub fn are_done(&self) -> bool
        ensures { IsTrue result ↔ (((n : ℕ) → stage_at self.now n ≡ Gone)
            × (self.now.desk.units ≡ [])) }
    {
        self.stages.are_gone() && self.desk.is_empty()
    }

    /// How many handlers are ready.
    pub fn ready_len(&self) -> u32
        ensures { result ≡ length (ready self.now) }
    {
        self.ready.len()
    }

    /// The handler at a place of those that are ready, ascending.
    pub fn ready_at(&self, place: u32) -> Option<u32>
        ensures number { result ≡ slice_get (ready self.now) place }
        ensures ready { IfSome result (λ n. is_ready_stage self.now.desk (stage_at self.now n)
            ≡ true) }
    {
        self.ready.at(place)
    }

    /// How many numbers have something to write.
    pub fn unwritten_len(&self) -> u32
        ensures { result ≡ length (unwritten_numbers self.now) }
    {
        self.unwritten.len()
    }

    /// The number at a place of those that have something to write, ascending. Where there is not even a first, each stage
    /// is as it is once all is written.
    pub fn unwritten_at(&self, place: u32) -> Option<u32>
        ensures number { result ≡ slice_get (unwritten_numbers self.now) place }
        ensures none { place ≡ 0 → result ≡ None →
            map written_stage self.now.stages ≡ self.now.stages }
    {
        self.unwritten.at(place)
    }

    /// Whether something may be due: where nothing is, a drain changes nothing.
    pub fn has_due(&self) -> bool
        ensures { result ≡ false → NothingDue self.now }
    {
        self.unwritten.len() > 0 || self.desk.has_due()
    }

    /// Opens a unit: each of its calls takes a number.
    pub fn open(&mut self, alloc: Global, table: &Table, unit: &Unit) -> Result<(), AllocError>
        requires { length self.old.stages + unit_numbers (unit_seen unit.now) ≤ MOST_NUMBERS + 1 }
        ensures ok { OnOk result (self.new ≡ opened table.now self.old (unit_seen unit.now)) }
        ensures err { OnErr result (self.new ≡ self.old) }
    {
        let first = self.stages.len();
        let end = first + numbers_of(unit) as u32;
        let lowest = self.stages.first();
        make_room(&mut self.ready, lowest, end)?;
        make_room(&mut self.unwritten, lowest, end)?;
        enter(
            alloc,
            table,
            &mut self.spare,
            &mut self.desk,
            &mut self.stages,
            unit,
        )?;
        mark_ready(&mut self.ready, &self.desk, &self.stages, first, end);
        Ok(())
    }

    /// Puts a number into another stage, and gives the one that it was in. It stands within what calls it, where the stage
    /// tells at once that the number is neither ready nor has anything to write.
    #[inline(always)]
    pub fn replace(&mut self, number: u32, stage: Stage) -> Stage
        requires here { is_gone (stage_at self.old number) ≡ false }
        requires fits { StageFits self.old.desk number stage }
        ensures before { result ≡ stage_at self.old number }
        ensures after { self.new ≡ with_stage self.old number stage }
    {
        let is_ready = is_ready_stage(&self.desk, &stage);
        let is_unwritten = has_unwritten(&stage);
        set_mark(&mut self.ready, number, is_ready);
        set_mark(&mut self.unwritten, number, is_unwritten);
        self.stages.replace(number, stage)
    }

    /// Keeps a handler that is over for a further call.
    #[inline(always)]
    pub fn keep(&mut self, handler: Handler)
        ensures { self.new ≡ self.old }
    {
        self.spare.keep(handler);
    }

    /// Keeps the first reply to a call of an open number.
    pub fn put_reply(&mut self, number: u32, turn: u32, reply: Reply)
        ensures { self.new ≡ with_desk self.old (with_reply self.old.desk number turn reply) }
    {
        self.desk.put_reply(number, turn, reply);
        let is_ready = is_ready_at(&self.desk, &self.stages, number);
        set_mark(&mut self.ready, number, is_ready);
    }

    /// Takes a reply off the board, for a handler that isn't among the runs now.
    pub fn take_reply(&mut self, number: u32, turn: u32) -> Option<Reply>
        requires { is_idle (stage_at self.old number) ≡ false }
        ensures reply { result ≡ reply_of self.old.desk number turn }
        ensures after { self.new ≡ with_desk self.old (without_reply self.old.desk number turn) }
    {
        self.desk.take_reply(number, turn)
    }

    /// One step of a cancel of this id: the lowest request before a number that it reaches is marked.
    pub fn reach(&mut self, id: &Id, before: u32) -> Option<u32>
        ensures lowest { IsLowestInReach self.old.desk id.now before result }
        ensures after { self.new ≡ with_desk self.old (with_reached self.old.desk result) }
    {
        self.desk.reach(id, before)
    }

    /// Whether a cancel has reached the number.
    pub fn is_marked(&self, number: u32) -> bool
        ensures { result ≡ is_marked_number (number_at self.now.desk number) }
    {
        self.desk.is_marked(number)
    }

    /// The end of an open number, whose handler isn't among the runs any more. It stands within what calls it, as a large
    /// answer is handed on.
    #[inline(always)]
    pub fn finish(&mut self, number: u32, answer: Reply)
        requires open { is_open self.old.desk number ≡ true }
        requires over { is_live (stage_at self.old number) ≡ false }
        ensures { self.new ≡ with_desk self.old (with_end self.old.desk number answer) }
    {
        self.desk.finish(number, answer);
    }

    /// No further reply comes, so all handlers that are here are ready.
    pub fn close_board(&mut self)
        ensures { self.new ≡ closed self.old }
    {
        self.desk.close_board();
        let first = self.stages.first();
        let end = self.stages.len();
        mark_ready(&mut self.ready, &self.desk, &self.stages, first, end);
    }

    /// Puts the answers that are due behind the bytes, as frames, and tells how many they are.
    pub fn release_to(&mut self, bytes: &mut Vec<u8>) -> Result<usize, AllocError>
        ensures count { IfOk result (λ count. count ≡ length (front_texts self.old.desk)) }
        ensures bytes { OnOk result (bytes.new.items ≡ bytes.old.items ++ flat_map written
            (front_texts self.old.desk)) }
        ensures ok { OnOk result (self.new ≡ with_desk self.old (without_front self.old.desk)) }
        ensures err { OnErr result (self.new ≡ self.old) }
    {
        self.desk.release_to(bytes)
    }

    /// Takes the answers that are due, as texts.
    pub fn release(&mut self) -> Result<Items<Items<u8>>, AllocError>
        ensures texts { IfOk result (λ texts. texts ≡ front_texts self.old.desk) }
        ensures ok { OnOk result (self.new ≡ with_desk self.old (without_front self.old.desk)) }
        ensures err { OnErr result (self.new ≡ self.old) }
    {
        self.desk.release()
    }

    /// Gives memory back that finished numbers have left.
    #[inline(always)]
    pub fn shrink(&mut self)
        ensures { self.new ≡ self.old }
    {
        self.stages.shrink();
    }
}
