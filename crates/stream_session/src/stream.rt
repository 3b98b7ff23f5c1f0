//! The session of a stream of bytes.

ghost use Rattle.std.specs.Prelude.{◌≡◌, ◌≢◌, ◌↔◌, ℕ, ◌<◌, List, length, false, IsTrue, IfOk, IfSome, IsOk, OnErr, OnOk, is_none, option_map, Option, Some, None};
ghost use Rattle.handler_future.specs.State.{HandlerState};
ghost use Rattle.lsp_frames.specs.Contents.{Standing};
ghost use Rattle.lsp_frames.specs.Devices.{Finished, HandsOnAll, Unfinished};
ghost use Rattle.lsp_frames.specs.declared.frame.Frame.{Frame as FrameOf};
ghost use Rattle.peer_output.specs.Events.{with_at};
ghost use Rattle.peer_events.specs.Turning.{ready};
ghost use Rattle.peer_session.specs.declared.job.Job.{Job as JobOf};
ghost use Rattle.peer_session.specs.declared.report.Close.{Close as CloseOf};
ghost use Rattle.peer_session.specs.Events.{CountsDrain, DrainsIn, LeavesAt, ended, picked, with_job_back};
ghost use Rattle.peer_session.specs.Framings.{due_in};
ghost use Rattle.peer_session.specs.HandedOn.{HandsOn};
ghost use Rattle.stream_framing.specs.Framed.{Holds, Knows, framing_of, limit_of};
ghost use Rattle.stream_framing.specs.declared.framing.Framing.TheVariants.{Frames};
ghost use Rattle.stream_session.specs.Promise.{close_of, told};
ghost use Rattle.peer_session.specs.Session.{view};
ghost use Rattle.peer_session.specs.SessionState.{IsDone, report_of};
ghost use Rattle.peer_session.specs.Turned.{Turned};
ghost use Rattle.stream_session.specs.Standing.{HasDrained};
ghost use Rattle.stream_session.specs.Stream.{Fed, IsTaken, StopsShort, StreamStands, TakesNext, fed_nothing, stream_of, with_end, with_ending, with_line_ended, with_piece};

use crate::known::known;
use crate::next::{InputEnd, Next};
use lsp_frames::{End, FeedFault, Frame, FrameFault, Sink};
use method_steps::Table;
use peer_session::{Close, DrainFault, Job, Limits, Report, Session};
use std::alloc::{AllocError, Global};
use std::collections::VecDeque;
use stream_framing::{Cutter, Framing};

/// A session that is fed bytes. Its owner feeds pieces and takes what they have, content by content; turns the jobs, here
/// or in other threads; and drains. Of the input it holds the frame or line under way and the contents that wait.
pub struct StreamSession<'a> {
    cutter: Cutter,
    /// The contents that were cut and aren't taken yet.
    waiting: VecDeque<Frame>,
    /// What closes the input behind them, once that is known.
    last: Option<Close>,
    session: Session<'a>,
}

// Written out, so that whoever drops one makes a call.
impl Drop for StreamSession<'_> {
    fn drop(self) {
        let StreamSession {
            cutter,
            waiting,
            last: _,
            session,
        } = self;
        drop(cutter);
        drop(waiting);
        drop(session);
    }
}

impl<'a> StreamSession<'a> {
    /// A session before the first byte.
    pub fn new(
        alloc: Global,
        framing: Framing,
        table: &'a Table,
        limits: Limits,
    ) -> Result<StreamSession<'a>, AllocError>
        ensures stands { (before : Option (List ℕ)) → IfOk result (λ stream. StreamStands
            (fed_nothing framing table.now limits before) (λ n. None) (stream_of stream) before) }
    {
        known();
        Ok(StreamSession {
            cutter: Cutter::new(alloc, framing, limits.content),
            waiting: VecDeque::new(alloc),
            last: None,
            session: Session::new(alloc, table, limits)?,
        })
    }

    /// Cuts a piece of the input; its contents wait. Those that wait from before are taken first. Once the session is
    /// closed, and behind an end, the piece is let go.
    ///
    /// # Errors
    /// Where there is no memory. Contents that waited may have been taken by then; nothing of the piece was, and it may be fed
    /// again.
    pub fn feed(&mut self, piece: &[u8]) -> Result<(), AllocError>
        ensures fed { (fed : Fed) (jobs : ℕ → Option HandlerState) (sink : Option (List ℕ)) →
            StreamStands fed jobs (stream_of self.old) sink → fed.ending ≡ Unfinished →
            OnOk result (StreamStands (with_piece fed piece.now) jobs (stream_of self.new) sink) }
        ensures refused { (fed : Fed) (jobs : ℕ → Option HandlerState) (sink : Option (List ℕ)) →
            StreamStands fed jobs (stream_of self.old) sink →
            OnErr result (StreamStands fed jobs (stream_of self.new) sink) }
        ensures behind_an_end { (fed : Fed) (jobs : ℕ → Option HandlerState) (sink : Option (List ℕ)) →
            StreamStands fed jobs (stream_of self.old) sink → (stream_of self.old).last ≢ None →
            StreamStands fed jobs (stream_of self.new) sink }
        ensures broken { (stream_of self.new).session.is_broken
            ≡ (stream_of self.old).session.is_broken }
    {
        known();
        self.take_all()?;
        if !self.session.is_open() {
            return Ok(());
        }
        match self.cutter.feed(piece) {
            Ok(contents) => self.waiting = VecDeque::from_vec(contents),
            Err(FeedFault::Ended(fault, contents)) => {
                self.waiting = VecDeque::from_vec(contents.into_vec());
                self.last = Some(Close::Frame(told(fault)));
            }
            Err(FeedFault::Memory) => return Err(AllocError),
        }
        Ok(())
    }

    /// The input has come to its end; behind the contents that wait it closes the session. Where lines were closed, the
    /// last one needs no LF. Where an end is known already, as a fault of the frames, this one changes nothing.
    ///
    /// # Errors
    /// Where there is no memory for the last line; contents that waited may have been taken by then. Frames end in any case.
    pub fn end(&mut self, end: InputEnd) -> Result<(), AllocError>
        ensures ended { (fed : Fed) (jobs : ℕ → Option HandlerState) (sink : Option (List ℕ)) →
            StreamStands fed jobs (stream_of self.old) sink → fed.ending ≡ Unfinished →
            OnOk result (StreamStands (with_end fed end) jobs (stream_of self.new) sink) }
        ensures refused { (fed : Fed) (jobs : ℕ → Option HandlerState) (sink : Option (List ℕ)) →
            StreamStands fed jobs (stream_of self.old) sink →
            OnErr result (StreamStands fed jobs (stream_of self.new) sink) }
        ensures frames { framing_of (stream_of self.old).cutter ≡ Frames → IsOk result }
        ensures last { OnOk result ((stream_of self.new).last ≢ None) }
        ensures again { (stream_of self.old).last ≢ None → stream_of self.new ≡ stream_of self.old }
        ensures broken { (stream_of self.new).session.is_broken
            ≡ (stream_of self.old).session.is_broken }
    {
        known();
        if self.last.is_some() {
            return Ok(());
        }
        match end {
            InputEnd::Finished => self.end_line()?,
            InputEnd::Failed => {}
        }
        self.close(end);
        Ok(())
    }

    /// Ends the last line, where lines come: an LF behind a line that has one is passed over.
    fn end_line(&mut self) -> Result<(), AllocError>
        ensures ended { (fed : Fed) (jobs : ℕ → Option HandlerState) (sink : Option (List ℕ)) →
            StreamStands fed jobs (stream_of self.old) sink → fed.ending ≡ Unfinished →
            OnOk result (StreamStands (with_line_ended fed) jobs (stream_of self.new) sink) }
        ensures refused { (fed : Fed) (jobs : ℕ → Option HandlerState) (sink : Option (List ℕ)) →
            StreamStands fed jobs (stream_of self.old) sink →
            OnErr result (StreamStands fed jobs (stream_of self.new) sink) }
        ensures frames { framing_of (stream_of self.old).cutter ≡ Frames → IsOk result }
        ensures broken { (stream_of self.new).session.is_broken
            ≡ (stream_of self.old).session.is_broken }
    {
        match self.cutter.framing() {
            Framing::Frames => Ok(()),
            Framing::Lines => self.feed(b"\n"),
        }
    }

    /// Notes how the input closes, where that isn't known yet.
    fn close(&mut self, end: InputEnd)
        ensures ended { (fed : Fed) (jobs : ℕ → Option HandlerState) (sink : Option (List ℕ)) →
            StreamStands fed jobs (stream_of self.old) sink → fed.ending ≡ Unfinished →
            StreamStands (with_ending fed end) jobs (stream_of self.new) sink }
        ensures last { (stream_of self.new).last ≢ None }
        ensures session { (stream_of self.new).session ≡ (stream_of self.old).session }
    {
        known();
        if self.last.is_some() {
            return;
        }
        self.last = Some(match end {
            InputEnd::Finished => close_at(&self.cutter),
            InputEnd::Failed => Close::Read,
        });
    }

    /// Takes the first content that waits. Where none does, it takes what closes the input, if that is known. A session
    /// that is closed lets all others go.
    ///
    /// # Errors
    /// Where there is no memory; all is unchanged, and the content may be taken again.
    pub fn take_next(&mut self) -> Result<Next, AllocError>
        ensures stands { (fed : Fed) (jobs : ℕ → Option HandlerState) (sink : Option (List ℕ)) →
            StreamStands fed jobs (stream_of self.old) sink →
            StreamStands fed jobs (stream_of self.new) sink }
        ensures takes { IfOk result (λ next.
            TakesNext (stream_of self.old) next (stream_of self.new)) }
        ensures refused { OnErr result (stream_of self.new ≡ stream_of self.old) }
        ensures last { (stream_of self.new).last ≡ (stream_of self.old).last }
        ensures broken { (stream_of self.new).session.is_broken
            ≡ (stream_of self.old).session.is_broken }
    {
        known();
        if !self.session.is_open() {
            self.waiting.clear();
            return Ok(Next::Nothing);
        }
        let Some(content) = self.waiting.front() else {
            take_last(&mut self.session, self.last);
            return Ok(Next::Nothing);
        };
        self.session.take(content)?;
        drop(self.waiting.pop_front());
        Ok(Next::Content)
    }

    /// Takes all contents that wait, and what closes the input behind them, if that is known.
    ///
    /// # Errors
    /// Where there is no memory; what isn't taken yet waits.
    pub fn take_all(&mut self) -> Result<(), AllocError>
        ensures stands { (fed : Fed) (jobs : ℕ → Option HandlerState) (sink : Option (List ℕ)) →
            StreamStands fed jobs (stream_of self.old) sink →
            StreamStands fed jobs (stream_of self.new) sink }
        ensures takes { OnOk result (IsTaken (stream_of self.new)) }
        ensures last { (stream_of self.new).last ≡ (stream_of self.old).last }
        ensures broken { (stream_of self.new).session.is_broken
            ≡ (stream_of self.old).session.is_broken }
    {
        while let Next::Content = self.take_next()? {}
        Ok(())
    }

    /// How many handlers are ready.
    pub fn count_ready(&self) -> u32
        ensures { result ≡ length (ready (stream_of self.now).session.core) }
    {
        self.session.count_ready()
    }

    /// Of r handlers that are ready, by number, the one at place `pick` modulo r goes out. Takes no memory.
    pub fn next_job(&mut self, pick: u32) -> Option<Job>
        ensures out { (fed : Fed) (jobs : ℕ → Option HandlerState) (sink : Option (List ℕ)) →
            StreamStands fed jobs (stream_of self.old) sink →
            IfSome result (λ job. (jobs job.handler.number ≡ None) × StreamStands fed
            (with_at job.handler.number (Some job.handler) jobs) (stream_of self.new) sink) }
        ensures leaves { LeavesAt (stream_of self.old).session pick
            (option_map (λ job. job.handler) result) (stream_of self.new).session }
        ensures unturned { IfSome result (λ job. (job.outcome ≡ None) × (job.polls ≡ 0)) }
        ensures number { IfSome result (λ job.
            job.handler.number ≡ picked (stream_of self.old).session.core pick) }
        ensures stays { stream_of self.new
            ≡ record (stream_of self.old) { session = (stream_of self.new).session } }
    {
        known();
        self.session.next_job(pick)
    }

    /// Takes back a job that was out, after its turn. Takes no memory.
    pub fn back(&mut self, job: Job)
        ensures back { (fed : Fed) (jobs : ℕ → Option HandlerState) (sink : Option (List ℕ)) (n : ℕ)
            (sent : JobOf) → StreamStands fed jobs (stream_of self.old) sink →
            jobs n ≡ Some sent.handler → sent.polls ≡ 0 → Turned sent job →
            StreamStands fed (with_at n None jobs) (stream_of self.new) sink }
        ensures session { (stream_of self.new).session ≡ with_job_back (stream_of self.old).session
            job.handler job.outcome job.polls }
        ensures stays { stream_of self.new
            ≡ record (stream_of self.old) { session = (stream_of self.new).session } }
    {
        known();
        self.session.back(job);
    }

    /// Writes what is due, in one piece where the sink takes it so.
    ///
    /// # Errors
    /// `Memory` where there is no memory, or a handler found none: nothing was written, and all is unchanged. `Write`
    /// where the sink failed, now or before: some of the bytes, from their front, were taken.
    pub fn drain<S: Sink>(&mut self, sink: &mut S) -> Result<(), DrainFault>
        ensures drained { (fed : Fed) (jobs : ℕ → Option HandlerState) →
            StreamStands fed jobs (stream_of self.old) (S.bytes_taken sink.old) →
            OnOk result (StreamStands fed jobs (stream_of self.new) (S.bytes_taken sink.new)
            × HasDrained fed.table (stream_of self.new).session jobs) }
        ensures short { (fed : Fed) (jobs : ℕ → Option HandlerState) →
            StreamStands fed jobs (stream_of self.old) (S.bytes_taken sink.old) →
            OnErr result (StopsShort fed (S.bytes_taken sink.new)) }
        ensures drains { DrainsIn (framing_of (stream_of self.old).cutter)
            (stream_of self.old).session (S.bytes_taken sink.old) result
            (stream_of self.new).session (S.bytes_taken sink.new) }
        ensures cause { CountsDrain (stream_of self.old).session (S.failures sink.old) result
            (S.failures sink.new) }
        ensures handed_on { 0 < length (due_in (framing_of (stream_of self.old).cutter)
            (stream_of self.old).session.core) →
            OnOk result (HandsOnAll (S.handed_on sink.new) (S.bytes_taken sink.new)) }
        ensures flushed { HandsOn S.handed_on S.bytes_taken sink.old result sink.new }
        ensures stays { stream_of self.new
            ≡ record (stream_of self.old) { session = (stream_of self.new).session } }
    {
        known();
        self.session.drain_in(self.cutter.framing(), sink)
    }

    /// Whether contents are taken: the input isn't over.
    pub fn is_open(&self) -> bool
        ensures { result ≡ is_none (stream_of self.now).session.close }
    {
        self.session.is_open()
    }

    /// Whether the input is over, and nothing is left to do or to write.
    pub fn is_done(&self) -> bool
        ensures { IsTrue result ↔ IsDone (stream_of self.now).session }
    {
        self.session.is_done()
    }

    /// What was taken and written so far.
    pub fn report(&self) -> Report
        ensures { result ≡ report_of (stream_of self.now).session }
    {
        self.session.report()
    }
}

/// Takes what closes the input, if that is known.
fn take_last(session: &mut Session<'_>, last: Option<Close>)
    ensures none { last ≡ None → view session.new ≡ view session.old }
    ensures some { (close : CloseOf) → last ≡ Some close →
        view session.new ≡ ended (view session.old) close }
{
    if let Some(close) = last {
        session.end(close);
    }
}

/// A fault of the frames as this peer tells it: it makes no difference between the lengths that aren't 1 to 10 digits.
fn told(fault: FrameFault) -> FrameFault
    ensures { result ≡ told fault }
{
    match fault {
        FrameFault::LongLength => FrameFault::BadLength,
        other => other,
    }
}

/// How an input closes that ends behind what was fed.
fn close_at(cutter: &Cutter) -> Close
    ensures { (bytes : List ℕ) (frames : List FrameOf) (left : Standing) →
        Holds (framing_of cutter.now) (limit_of cutter.now) bytes frames left →
        Knows cutter.now left → close_of false left Finished ≡ Some result }
{
    match cutter.end() {
        End::Clean => Close::Clean,
        End::Fault(fault) => Close::Frame(told(fault)),
    }
}
