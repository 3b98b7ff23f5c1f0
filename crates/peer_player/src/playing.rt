//! A session that is played into a sink.

ghost use Rattle.std.specs.Prelude.{◌≡◌, ◌<◌, [], IsTrue, false, IfOk, OnOk, OnErr};
ghost use Rattle.lsp_frames.specs.Devices.{Unfinished};
ghost use Rattle.peer_events.specs.Turns.{all_turns_left};
ghost use Rattle.peer_events.specs.Turning.{ready};
ghost use Rattle.peer_session.specs.HandedOn.{HandsOn};
ghost use Rattle.stream_session.specs.Stream.{Fed, IsTaken, StopsShort, stream_of, with_piece};
ghost use Rattle.peer_player.specs.Player.{IsPlayIn, IsPlayShortIn};
ghost use Rattle.peer_player.specs.Playing.{Plays, HasWritten, HasSettled, KeepsInput, PlaysOn, MayStopShort, CountsPlay, StaysAsBroken};
ghost use Rattle.peer_player.specs.Schedule.{TurnsPicked, turns_after};

use crate::schedule::Schedule;
use job_slots::Turns;
use lsp_frames::Sink;
use peer_events::turned_handlers_have_fewer_turns_left;
use peer_session::{DrainFault, Report};
use stream_session::{InputEnd, Next, StreamSession, what_a_stream_wrote, what_sessions_wrote};

/// A session, the sink that it writes to, and how many jobs were turned by the schedule.
#[derive(Drop)]
pub(crate) struct Playing<'a, S: Sink> {
    pub(crate) stream: StreamSession<'a>,
    pub(crate) schedule: &'a Schedule,
    pub(crate) turned: usize,
    pub(crate) sink: S,
}

impl<'a, S: Sink> Playing<'a, S> {
    /// Plays one more piece of the input.
    pub(crate) fn feed(&mut self, piece: &[u8]) -> Result<(), DrainFault>
        ensures ok { (fed : Fed) → fed.ending ≡ Unfinished →
            Plays fed (stream_of self.old.stream) (S.bytes_taken self.old.sink) →
            OnOk result (Plays (with_piece fed piece.now) (stream_of self.new.stream)
            (S.bytes_taken self.new.sink)) }
        ensures err { (fed : Fed) → fed.ending ≡ Unfinished →
            Plays fed (stream_of self.old.stream) (S.bytes_taken self.old.sink) →
            OnErr result (StopsShort (with_piece fed piece.now) (S.bytes_taken self.new.sink)) }
        ensures cause { CountsPlay S.failures self.old result self.new }
        ensures flushed { HandsOn S.handed_on S.bytes_taken self.old.sink result self.new.sink }
        ensures same { StaysAsBroken self.old result self.new }
    {
        what_a_stream_wrote();
        self.stream.feed(piece)?;
        self.take_contents()
    }

    /// Ends the input, and does all that is left.
    pub(crate) fn end(&mut self) -> Result<Report, DrainFault>
        ensures ok { (fed : Fed) → fed.ending ≡ Unfinished →
            Plays fed (stream_of self.old.stream) (S.bytes_taken self.old.sink) →
            IfOk result (IsPlayIn fed.framing fed.table fed.limits fed.bytes fed.before
            (S.bytes_taken self.new.sink)) }
        ensures err { (fed : Fed) → fed.ending ≡ Unfinished →
            Plays fed (stream_of self.old.stream) (S.bytes_taken self.old.sink) →
            OnErr result (IsPlayShortIn fed.framing fed.table fed.limits fed.bytes fed.before
            (S.bytes_taken self.new.sink)) }
        ensures cause { CountsPlay S.failures self.old result self.new }
        ensures flushed { HandsOn S.handed_on S.bytes_taken self.old.sink result self.new.sink }
    {
        what_sessions_wrote();
        what_a_stream_wrote();
        self.stream.end(InputEnd::Finished)?;
        self.take_contents()?;
        self.settle()?;
        Ok(self.stream.report())
    }

    /// Takes all that waits. An eager player settles after each content.
    fn take_contents(&mut self) -> Result<(), DrainFault>
        ensures ok { PlaysOn S.bytes_taken Plays self.old result self.new }
        ensures err { MayStopShort S.bytes_taken self.old result self.new }
        ensures taken { OnOk result (IsTaken (stream_of self.new.stream)) }
        ensures last { (stream_of self.new.stream).last ≡ (stream_of self.old.stream).last }
        ensures cause { CountsPlay S.failures self.old result self.new }
        ensures flushed { HandsOn S.handed_on S.bytes_taken self.old.sink result self.new.sink }
        ensures same { StaysAsBroken self.old result self.new }
    {
        what_a_stream_wrote();
        while let Next::Content = self.stream.take_next()? {
            self.settle_if_eager()?;
        }
        Ok(())
    }

    /// An eager player writes what is due, and turns all handlers that are ready.
    pub(crate) fn settle_if_eager(&mut self) -> Result<(), DrainFault>
        ensures ok { PlaysOn S.bytes_taken Plays self.old result self.new }
        ensures err { MayStopShort S.bytes_taken self.old result self.new }
        ensures input { KeepsInput (stream_of self.old.stream) (stream_of self.new.stream) }
        ensures cause { CountsPlay S.failures self.old result self.new }
        ensures flushed { HandsOn S.handed_on S.bytes_taken self.old.sink result self.new.sink }
        ensures same { StaysAsBroken self.old result self.new }
    {
        if self.schedule.lazy {
            return Ok(());
        }
        self.settle()
    }

    /// Writes what is due, and turns handlers until none is ready.
    fn settle(&mut self) -> Result<(), DrainFault>
        ensures ok { PlaysOn S.bytes_taken HasSettled self.old result self.new }
        ensures err { MayStopShort S.bytes_taken self.old result self.new }
        ensures input { KeepsInput (stream_of self.old.stream) (stream_of self.new.stream) }
        ensures cause { CountsPlay S.failures self.old result self.new }
        ensures flushed { HandsOn S.handed_on S.bytes_taken self.old.sink result self.new.sink }
        ensures same { StaysAsBroken self.old result self.new }
    {
        self.drain()?;
        while self.turn_next() {
            self.drain()?;
        }
        Ok(())
    }

    /// Writes what is due.
    fn drain(&mut self) -> Result<(), DrainFault>
        ensures ok { PlaysOn S.bytes_taken HasWritten self.old result self.new }
        ensures err { MayStopShort S.bytes_taken self.old result self.new }
        ensures input { KeepsInput (stream_of self.old.stream) (stream_of self.new.stream) }
        ensures turns { OnOk result (all_turns_left (stream_of self.new.stream).session.core.stages
            ≡ all_turns_left (stream_of self.old.stream).session.core.stages) }
        ensures cause { CountsPlay S.failures self.old result self.new }
        ensures flushed { HandsOn S.handed_on S.bytes_taken self.old.sink result self.new.sink }
        ensures same { StaysAsBroken self.old result self.new }
    {
        turned_handlers_have_fewer_turns_left();
        self.stream.drain(&mut self.sink)
    }

    /// Turns the handler that the schedule picks, if any is ready.
    fn turn_next(&mut self) -> bool
        ensures turned { (fed : Fed) →
            Plays fed (stream_of self.old.stream) (S.bytes_taken self.old.sink) →
            Plays fed (stream_of self.new.stream) (S.bytes_taken self.new.sink) }
        ensures input { KeepsInput (stream_of self.old.stream) (stream_of self.new.stream) }
        ensures fewer { IsTrue result →
            all_turns_left (stream_of self.new.stream).session.core.stages <
            all_turns_left (stream_of self.old.stream).session.core.stages }
        ensures none { result ≡ false → (ready (stream_of self.new.stream).session.core ≡ [])
            × (stream_of self.new.stream ≡ stream_of self.old.stream) }
        ensures picked { IsTrue result → TurnsPicked self.old.schedule.now.picks self.old.turned
            (stream_of self.old.stream).session (stream_of self.new.stream).session }
        ensures counted { self.new.turned ≡ turns_after result self.old.turned }
        ensures schedule { self.new.schedule ≡ self.old.schedule }
        ensures sink { self.new.sink ≡ self.old.sink }
        ensures same { (stream_of self.new.stream).session.is_broken
            ≡ (stream_of self.old.stream).session.is_broken }
    {
        what_a_stream_wrote();
        turned_handlers_have_fewer_turns_left();
        let ready = self.stream.count_ready();
        let pick = self.schedule.picks.place(self.turned, ready);
        let Some(mut job) = self.stream.next_job(pick) else {
            return false;
        };
        self.turned = self.turned.saturating_add(1);
        job.turn();
        self.stream.back(job);
        true
    }
}
