//! One session of a peer.

ghost use Rattle.std.specs.Prelude.{◌≡◌, ◌↔◌, ◌<◌, ◌≤◌, ◌+◌, ℕ, IsTrue, IfOk, IfSome, OnErr, OnOk, is_none, length, take, option_map, None, true, false, ◌-◌, ◌^◌, min, if◌then◌else◌};
ghost use Rattle.std.specs.Io.KnownBytes.{Appends};
ghost use Rattle.lsp_frames.specs.Devices.{HandsOnAll};
ghost use Rattle.rpc_messages.specs.Unit.{unit_of};
ghost use Rattle.peer_events.specs.Turning.{due_bytes, ready};
ghost use Rattle.stream_framing.specs.declared.framing.Framing.TheVariants.{Frames, Lines};
ghost use Rattle.peer_session.specs.Events.{ended, TakesUnit, LeavesAt, picked, with_job_back, DrainsIn, DrainsTo, CountsDrain};
ghost use Rattle.peer_session.specs.Framings.{due_in};
ghost use Rattle.peer_session.specs.HandedOn.{HandsOn, HasHandedOn};
ghost use Rattle.peer_session.specs.SessionState.{SessionState, IsDone, new_session, report_of};

use crate::drain_fault::DrainFault;
use crate::job::Job;
use crate::limits::Limits;
use crate::passing::take_unit;
use crate::reading::read_unit;
use crate::report::{Close, Report};
use crate::taken::Taken;
use crate::turning::{come_back, leave};
use crate::writing::{NOTHING, Written, put_due};
use handler_future::Outcome;
use lsp_frames::{Frame, Sink, put_all};
use method_steps::Table;
use rpc_messages::UnitReader;
use session_runs::{Runs, numbers_of};
use std::alloc::{AllocError, Global};
use stream_framing::Framing;

/// So much room for output is kept from one drain to the next, in bytes.
const KEPT_ROOM: usize = 65_536;

/// A session of a peer: it takes contents, hands handlers out and takes them back, and writes what
/// is due.
pub struct Session<'a> {
    alloc: Global,
    table: &'a Table,
    limits: Limits,
    /// Reads the contents, over the same room.
    reader: UnitReader,
    runs: Runs,
    /// What the last drain has put, and room for the next.
    output: Vec<u8>,
    close: Option<Close>,
    written: Written,
    polls: u64,
    /// Whether a sink has failed.
    is_broken: bool,
    /// Whether a handler has found no memory.
    has_failed: bool,
}

// Written out, so that whoever drops one makes a call, and knows nothing of what is in it.
impl Drop for Session<'_> {
    fn drop(self) {
        let Session {
            alloc: _,
            table: _,
            limits: _,
            reader,
            runs,
            output,
            close: _,
            written: _,
            polls: _,
            is_broken: _,
            has_failed: _,
        } = self;
        drop(reader);
        drop(runs);
        drop(output);
    }
}

impl<'a> Session<'a> {
    ghost use Rattle.peer_session.specs.Session.{view};

    /// A session before its first content.
    #[tactic(auto, unfolding(crate::specs::Session::view))]
    pub fn new(alloc: Global, table: &'a Table, limits: Limits) -> Result<Session<'a>, AllocError>
        ensures { IfOk result (λ session. view session ≡ new_session table.now limits) }
    {
        Ok(Session {
            alloc,
            table,
            limits,
            reader: UnitReader::new(alloc),
            runs: Runs::new(alloc, table)?,
            output: Vec::new(alloc),
            close: None,
            written: NOTHING,
            polls: 0,
            is_broken: false,
            has_failed: false,
        })
    }

    /// Whether contents are taken: the input isn't over.
    #[tactic(auto, unfolding(crate::specs::Session::view))]
    pub fn is_open(&self) -> bool
        ensures { result ≡ is_none (view self.now).close }
    {
        self.close.is_none()
    }

    /// Whether the input is over, and nothing is left to do or to write.
    #[tactic(auto, unfolding(crate::specs::Session::view))]
    pub fn is_done(&self) -> bool
        ensures { IsTrue result ↔ IsDone (view self.now) }
    {
        self.close.is_some() && !self.is_broken && !self.has_failed && self.runs.are_done()
    }

    /// What was taken and written so far. Before the end of the input, `end` is `Close::Clean`.
    #[tactic(auto, unfolding(crate::specs::Session::view))]
    pub fn report(&self) -> Report
        ensures { result ≡ report_of (view self.now) }
    {
        Report {
            end: self.close.unwrap_or(Close::Clean),
            numbers: u64::from(self.runs.next_number()) - 1,
            messages: self.written.messages,
            call_frames: self.written.call_frames,
            answers: self.written.answers,
            polls: self.polls,
        }
    }

    /// Takes a content, and goes through its entries in order. A session that is over takes none.
    ///
    /// # Errors
    /// Where there is no memory; the session is unchanged, and the content may be taken again.
    pub fn take(&mut self, frame: &Frame) -> Result<Taken, AllocError>
        requires { (view self.old).close ≡ None }
        ensures ok { IfOk result (λ taken. TakesUnit (view self.old)
            (unit_of frame.now.foreign frame.now.content) taken (view self.new)) }
        ensures err { OnErr result (view self.new ≡ view self.old) }
    {
        let unit = read_unit(&mut self.reader, self.table, frame)?;
        let left = self
            .limits
            .numbers
            .saturating_sub(self.runs.next_number() - 1);
        if numbers_of(&unit) > left as usize {
            drop(unit);
            self.end(Close::Full);
            return Ok(Taken::Full);
        }
        take_unit(&mut self.runs, self.alloc, self.table, unit)?;
        Ok(Taken::Taken)
    }

    /// The input is over: no further content or reply comes. After an end it changes nothing.
    #[tactic(auto, unfolding(crate::specs::Session::view))]
    pub fn end(&mut self, close: Close)
        ensures { view self.new ≡ ended (view self.old) close }
    {
        if self.close.is_none() {
            self.close = Some(close);
            self.runs.close_board();
        }
    }

    /// How many handlers are ready.
    #[tactic(auto, unfolding(crate::specs::Session::view))]
    pub fn count_ready(&self) -> u32
        ensures { result ≡ length (ready (view self.now).core) }
    {
        self.runs.ready_len()
    }

    /// Of r handlers that are ready, by number, the one at place `pick` modulo r goes out, with the
    /// replies that it waited for heard. Takes no memory.
    #[tactic(auto, unfolding(crate::specs::Session::view))]
    pub fn next_job(&mut self, pick: u32) -> Option<Job>
        ensures leaves { LeavesAt (view self.old) pick (option_map (λ job. job.handler) result)
            (view self.new) }
        ensures unturned { IfSome result (λ job. (job.outcome ≡ None) × (job.polls ≡ 0)) }
        ensures number { IfSome result
            (λ job. job.handler.number ≡ picked (view self.old).core pick) }
    {
        let count = self.runs.ready_len();
        if count == 0 {
            return None;
        }
        let handler = leave(&mut self.runs, pick % count)?;
        Some(Job::new(handler))
    }

    /// Takes back a job that was out, after its turn. Takes no memory.
    #[tactic(auto, unfolding(crate::specs::Session::view))]
    pub fn back(&mut self, job: Job)
        ensures { view self.new ≡ with_job_back (view self.old) job.handler job.outcome job.polls }
    {
        let Job {
            handler,
            outcome,
            polls,
        } = job;
        self.polls = self.polls.saturating_add(polls);
        if let Some(Outcome::Failed) = outcome {
            self.has_failed = true;
        }
        come_back(&mut self.runs, handler, outcome);
        self.runs.shrink();
    }

    /// Writes what is due, in one piece where the sink takes it so: what the handlers that aren't
    /// out have sent, by number, and then the answers that are due, each in a frame.
    ///
    /// # Errors
    /// `Memory` where there is no memory, or a handler found none: nothing was written, and the
    /// session is unchanged. `Write` where the sink failed, now or before: some of the bytes, from
    /// their front, were taken.
    pub fn drain<S: Sink>(&mut self, sink: &mut S) -> Result<(), DrainFault>
        ensures drains { DrainsTo (view self.old) (S.bytes_taken sink.old) result (view self.new)
            (S.bytes_taken sink.new) }
        ensures cause { CountsDrain (view self.old) (S.failures sink.old) result
            (S.failures sink.new) }
        ensures handed_on { 0 < length (due_bytes (view self.old).core) →
            OnOk result (HandsOnAll (S.handed_on sink.new) (S.bytes_taken sink.new)) }
        ensures flushed { HandsOn S.handed_on S.bytes_taken sink.old result sink.new }
    {
        self.drain_in(Framing::Frames, sink)
    }

    /// The same, with each text as the framing writes it.
    ///
    /// # Errors
    /// As `drain`'s. In lines, where there is no memory for what is due, that may be lost: the session then writes nothing any
    /// more, as behind a handler that found none.
    pub fn drain_in<S: Sink>(&mut self, framing: Framing, sink: &mut S) -> Result<(), DrainFault>
        ensures drains { DrainsIn framing (view self.old) (S.bytes_taken sink.old) result
            (view self.new) (S.bytes_taken sink.new) }
        ensures cause { CountsDrain (view self.old) (S.failures sink.old) result
            (S.failures sink.new) }
        ensures handed_on { 0 < length (due_in framing (view self.old).core) →
            OnOk result (HandsOnAll (S.handed_on sink.new) (S.bytes_taken sink.new)) }
        ensures flushed { HandsOn S.handed_on S.bytes_taken sink.old result sink.new }
    {
        if self.is_broken {
            return Err(DrainFault::Write);
        }
        if self.has_failed {
            return Err(DrainFault::Memory);
        }
        self.written.counts_fit();
        if !self.runs.has_due() {
            return Ok(());
        }
        self.output.clear();
        let Ok(written) = put_due(self.alloc, framing, &mut self.runs, &mut self.output) else {
            // (what lines let go of would be missing from what is written next)
            self.has_failed = may_lose(framing);
            return Err(DrainFault::Memory);
        };
        self.written = self.written.and(written);
        let is_written = write(sink, self.output.as_slice());
        self.forget_output();
        self.runs.shrink();
        if is_written {
            Ok(())
        } else {
            self.is_broken = true;
            Err(DrainFault::Write)
        }
    }

    /// The output is written. Room that one large answer has taken isn't kept.
    fn forget_output(&mut self)
        ensures { view self.new ≡ view self.old }
    {
        self.output.clear();
        if self.output.capacity() > KEPT_ROOM {
            self.output = Vec::new(self.alloc);
        }
    }
}

/// Whether what is due may be lost where there is no memory for it.
fn may_lose(framing: Framing) -> bool
    ensures frames { framing ≡ Frames → result ≡ false }
    ensures lines { framing ≡ Lines → result ≡ true }
{
    matches!(framing, Framing::Lines)
}

/// Writes all the bytes and hands them on, where there are any, and tells whether that was done.
fn write<S: Sink>(sink: &mut S, bytes: &[u8]) -> bool
    ensures cause { S.failures sink.new
        ≡ (if result then S.failures sink.old else min (S.failures sink.old + 1) (2 ^ 64 - 1)) }
    ensures all { result ≡ true →
        Appends (S.bytes_taken sink.old) (S.bytes_taken sink.new) bytes.now }
    ensures part { result ≡ false → (count : ℕ) × Appends (S.bytes_taken sink.old)
        (S.bytes_taken sink.new) (take count bytes.now) }
    ensures handed_on { result ≡ true → 0 < length bytes.now →
        HandsOnAll (S.handed_on sink.new) (S.bytes_taken sink.new) }
    ensures flushed { result ≡ true → HasHandedOn S.handed_on S.bytes_taken sink.old sink.new }
{
    if bytes.is_empty() {
        return true;
    }
    match put_all(sink, bytes) {
        Ok(()) => sink.flush().is_ok(),
        Err(_) => false,
    }
}
