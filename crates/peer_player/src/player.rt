//! A player that is fed its input piece by piece.

ghost use Rattle.std.specs.Prelude.{◌≡◌, ◌++◌, ℕ, List, [], false, IfOk, IfErr, OnOk, OnErr, Option};
ghost use Rattle.method_steps.specs.Steps.{MethodTable};
ghost use Rattle.peer_session.specs.Events.{CountsDrain};
ghost use Rattle.peer_session.specs.HandedOn.{HandsOn};
ghost use Rattle.stream_framing.specs.declared.framing.Framing.{Framing as FramingOf};
ghost use Rattle.stream_session.specs.Stream.{stream_of};
ghost use Rattle.stream_framing.specs.declared.framing.Framing.TheVariants.{Frames};
ghost use Rattle.peer_player.specs.Player.{IsPlayIn, IsPlayShortIn, PlaysAfter, StoppedAfter};

use crate::playing::Playing;
use crate::schedule::Schedule;
use lsp_frames::Sink;
use method_steps::Table;
use peer_session::{DrainFault, Limits, Report};
use std::alloc::{AllocError, Global};
use stream_framing::Framing;
use stream_session::StreamSession;

/// A peer on one thread, which is fed its input piece by piece and writes to its sink as it goes. Of the input it holds the
/// frame under way and no more.
#[derive(Drop)]
pub struct Player<'a, S: Sink> {
    pub(crate) playing: Playing<'a, S>,
    /// Whether nothing was done yet.
    pub(crate) is_new: bool,
}

impl<'a, S: Sink> Player<'a, S> {
    /// A player before the first byte, of an input in frames.
    ///
    /// # Errors
    /// Where there is no memory. The sink comes back as it was.
    pub fn new(
        alloc: Global,
        table: &'a Table,
        limits: Limits,
        schedule: &'a Schedule,
        sink: S,
    ) -> Result<Player<'a, S>, (DrainFault, S)>
        ensures ok { IfOk result (λ player. PlaysAfter Frames table.now limits []
            (S.bytes_taken sink) (stream_of player.playing.stream)
            (S.bytes_taken player.playing.sink)) }
        ensures unbroken { IfOk result (λ player.
            (stream_of player.playing.stream).session.is_broken ≡ false) }
        ensures sink { IfOk result (λ player. player.playing.sink ≡ sink) }
        ensures err { IfErr result (λ refused. (refused.0 ≡ DrainFault.Memory) × (refused.1 ≡
            sink)) }
    {
        Player::in_framing(alloc, Framing::Frames, table, limits, schedule, sink)
    }

    /// The same, of an input and an output in the framing of the caller's choice.
    pub fn in_framing(
        alloc: Global,
        framing: Framing,
        table: &'a Table,
        limits: Limits,
        schedule: &'a Schedule,
        sink: S,
    ) -> Result<Player<'a, S>, (DrainFault, S)>
        ensures ok { IfOk result (λ player. PlaysAfter framing table.now limits []
            (S.bytes_taken sink) (stream_of player.playing.stream)
            (S.bytes_taken player.playing.sink)) }
        ensures unbroken { IfOk result (λ player.
            (stream_of player.playing.stream).session.is_broken ≡ false) }
        ensures sink { IfOk result (λ player. player.playing.sink ≡ sink) }
        ensures err { IfErr result (λ refused. (refused.0 ≡ DrainFault.Memory) × (refused.1 ≡
            sink)) }
    {
        match StreamSession::new(alloc, framing, table, limits) {
            Ok(stream) => Ok(Player {
                playing: Playing {
                    stream,
                    schedule,
                    turned: 0,
                    sink,
                },
                is_new: true,
            }),
            Err(AllocError) => Err((DrainFault::Memory, sink)),
        }
    }

    /// Plays one more piece of the input. What comes behind a fault of its frames, or behind a content that needs too many
    /// numbers, is let go. After an error the player is of no use any more, but that `into_sink` gives the sink back.
    pub fn feed(&mut self, piece: &[u8]) -> Result<(), DrainFault>
        ensures plays { (framing : FramingOf) (table : MethodTable) (limits : Limits)
            (bytes : List ℕ) (before : Option (List ℕ)) →
            PlaysAfter framing table limits bytes before (stream_of self.old.playing.stream)
            (S.bytes_taken self.old.playing.sink) →
            OnOk result (PlaysAfter framing table limits (bytes ++ piece.now) before
            (stream_of self.new.playing.stream) (S.bytes_taken self.new.playing.sink)) }
        ensures stopped { (framing : FramingOf) (table : MethodTable) (limits : Limits)
            (bytes : List ℕ) (before : Option (List ℕ)) →
            PlaysAfter framing table limits bytes before (stream_of self.old.playing.stream)
            (S.bytes_taken self.old.playing.sink) →
            OnErr result (StoppedAfter framing table limits (bytes ++ piece.now) before
            (S.bytes_taken self.new.playing.sink)) }

        // The sink's count of failures rises where a write fails now, and in no other case.
        ensures cause { CountsDrain (stream_of self.old.playing.stream).session
            (S.failures self.old.playing.sink) result (S.failures self.new.playing.sink) }
        ensures flushed { HandsOn S.handed_on S.bytes_taken self.old.playing.sink result
            self.new.playing.sink }
        ensures same { OnOk result ((stream_of self.new.playing.stream).session.is_broken ≡
            (stream_of self.old.playing.stream).session.is_broken) }
    {
        self.begin()?;
        self.playing.feed(piece)
    }

    /// Ends the input, and does all that is left.
    pub fn end(&mut self) -> Result<Report, DrainFault>
        ensures ok { (framing : FramingOf) (table : MethodTable) (limits : Limits)
            (bytes : List ℕ) (before : Option (List ℕ)) →
            PlaysAfter framing table limits bytes before (stream_of self.old.playing.stream)
            (S.bytes_taken self.old.playing.sink) →
            IfOk result (λ report. IsPlayIn framing table limits bytes before (S.bytes_taken
            self.new.playing.sink) report) }
        ensures err { (framing : FramingOf) (table : MethodTable) (limits : Limits)
            (bytes : List ℕ) (before : Option (List ℕ)) →
            PlaysAfter framing table limits bytes before (stream_of self.old.playing.stream)
            (S.bytes_taken self.old.playing.sink) →
            OnErr result (IsPlayShortIn framing table limits bytes before
            (S.bytes_taken self.new.playing.sink)) }

        // The sink's count of failures rises where a write fails now, and in no other case.
        ensures cause { CountsDrain (stream_of self.old.playing.stream).session
            (S.failures self.old.playing.sink) result (S.failures self.new.playing.sink) }
        ensures flushed { HandsOn S.handed_on S.bytes_taken self.old.playing.sink result
            self.new.playing.sink }
    {
        self.begin()?;
        self.playing.end()
    }

    /// The sink, with what was written.
    pub fn into_sink(self) -> S
        ensures { result ≡ self.entry.playing.sink }
    {
        let Player { playing, .. } = self;
        let Playing { sink, .. } = playing;
        sink
    }

    /// Before its first content an eager player turns the opening's handler.
    fn begin(&mut self) -> Result<(), DrainFault>
        ensures plays { (framing : FramingOf) (table : MethodTable) (limits : Limits)
            (bytes : List ℕ) (before : Option (List ℕ)) →
            PlaysAfter framing table limits bytes before (stream_of self.old.playing.stream)
            (S.bytes_taken self.old.playing.sink) →
            OnOk result (PlaysAfter framing table limits bytes before
            (stream_of self.new.playing.stream) (S.bytes_taken self.new.playing.sink)) }
        ensures stopped { (framing : FramingOf) (table : MethodTable) (limits : Limits)
            (bytes : List ℕ) (before : Option (List ℕ)) →
            PlaysAfter framing table limits bytes before (stream_of self.old.playing.stream)
            (S.bytes_taken self.old.playing.sink) →
            OnErr result (StoppedAfter framing table limits bytes before
            (S.bytes_taken self.new.playing.sink)) }
        ensures cause { CountsDrain (stream_of self.old.playing.stream).session
            (S.failures self.old.playing.sink) result (S.failures self.new.playing.sink) }
        ensures flushed { HandsOn S.handed_on S.bytes_taken self.old.playing.sink result
            self.new.playing.sink }
        ensures same { OnOk result ((stream_of self.new.playing.stream).session.is_broken ≡
            (stream_of self.old.playing.stream).session.is_broken) }
    {
        if self.is_new {
            self.is_new = false;
            self.playing.settle_if_eager()?;
        }
        Ok(())
    }
}
