//! What the host is told.

ghost use Rattle.std.specs.Prelude.{◌≡◌, ◌++◌, ◌∷◌, [], List, None, IfOk, IfErr, IfSome, OnOk, OnErr, false, length};
ghost use mir.Val.{bool_byte};
ghost use Rattle.connection_history.specs.Stream.{calls_in, call_in};
ghost use Rattle.connection.specs.Connections.{calls_of, close_of as close_as};
ghost use Rattle.connection.specs.Inner.{lone};
ghost use Rattle.connection_history.specs.declared.event.Event.{Event as Told};
ghost use Rattle.connection_history.specs.History.{History};

use crate::broken::broken_of;
use crate::connection::Connection;
use connection_history::{Broken, Close, Event};
use connection_messages::{Call, Entry, Unit};
use content_streams::{StreamEnd, placed_contents_are_the_contents};
use std::alloc::AllocError;

impl Connection {
    ghost use Rattle.connection.specs.Connections.{GoesOn, IsStill, SamePieces, StandsAfter, HasGoneOn, output};
    ghost use Rattle.connection.specs.Inner.{IsNext, HasDone, HasMoved};
    ghost use Rattle.content_streams.specs.Streams.{next_content};

    /// The next event. There is none where all is told that has come. Where it is refused for memory nothing is told, and
    /// it may be asked for again; contents without events may have come.
    // (a part of its caller, so that an event is moved at once from where it was made to where it is wanted)
    #[inline(always)]
    pub fn next_event(&mut self) -> Result<Option<Event>, AllocError>
        ensures told { (history : History) (told : List Told) → StandsAfter self.old history told →
            IfOk result (λ next. IfSome next (λ event. (now : History) × GoesOn self.old told history now ×
            StandsAfter self.new now (told ++ event ∷ []))) }
        ensures none { (history : History) (told : List Told) → StandsAfter self.old history told →
            IfOk result (λ next. next ≡ None → (now : History) × GoesOn self.old told history now ×
            StandsAfter self.new now told × IsStill self.new now told) }
        ensures err { (history : History) (told : List Told) → StandsAfter self.old history told →
            OnErr result (HasGoneOn self.old self.new history told) }
        ensures settings { self.new.settings ≡ self.old.settings }
        ensures pieces { SamePieces self.old.stream self.new.stream }
        ensures taken { (output self.new).taken ≡ (output self.old).taken }
    {
        loop {
            if let Some(event) = self.next_untold() {
                return Ok(Some(event));
            }
            let step = self.go_on()?;
            match step {
                Step::Stayed => return Ok(None),
                Step::Moved => {}
                Step::Told(event) => return Ok(Some(event)),
            }
        }
    }

    /// The next event of what has come.
    fn next_untold(&mut self) -> Option<Event>
        ensures told { (history : History) (told : List Told) → StandsAfter self.old history told →
            IfSome result (λ event. StandsAfter self.new history (told ++ event ∷ [])) }
        ensures none { result ≡ None → (self.new ≡ self.old) × (self.old.desk.untold ≡ []) }
        ensures settings { self.new.settings ≡ self.old.settings }
        ensures stream { self.new.stream ≡ self.old.stream }
        ensures taken { (output self.new).taken ≡ (output self.old).taken }
    {
        self.desk.next_event()
    }

    /// Reads the next content, or ends the input, where all is told.
    fn go_on(&mut self) -> Result<Step, AllocError>
        requires told { self.old.desk.untold ≡ [] }
        ensures step { IfOk result (λ step. HasDone step self.old self.new) }
        ensures err { OnErr result (self.new ≡ self.old) }
    {
        if self.desk.is_over() {
            return Ok(Step::Stayed);
        }
        let Some(content) = self.stream.front() else {
            return Ok(self.end_if_closed());
        };
        placed_contents_are_the_contents();
        let unit = self.reader.read(content.foreign, content.bytes)?;
        let unit = match lone_call(unit) {
            Ok(call) => return self.take_in_call(call),
            Err(unit) => unit,
        };
        let broken = broken_of(
            self.alloc,
            self.settings.tells_broken(),
            &self.stream,
            &unit,
        )?;
        self.take_in(unit, broken)?;
        Ok(Step::Moved)
    }

    /// Takes in the next content, which is a call by itself, or ends the input where it is one too many. As most contents are
    /// such calls, theirs are the only events that are told without a place among the others.
    fn take_in_call(&mut self, call: Call) -> Result<Step, AllocError>
        requires over { self.old.desk.state.is_over ≡ false }
        requires told { self.old.desk.untold ≡ [] }
        requires next { IsNext self.old (lone call) None }
        ensures step { IfOk result (λ step. HasDone step self.old self.new) }
        ensures err { OnErr result (self.new ≡ self.old) }
    {
        placed_contents_are_the_contents();
        if self.desk.came() >= self.settings.calls() {
            self.desk.end(Close::Full);
            return Ok(Step::Moved);
        }
        let event = self.desk.take_in_call(call)?;
        self.stream.pop();
        Ok(Step::Told(event))
    }

    /// Takes in the unit of the next content, or ends the input where it has too many calls.
    fn take_in(&mut self, unit: Unit, broken: Option<Broken>) -> Result<(), AllocError>
        requires over { self.old.desk.state.is_over ≡ false }
        requires next { IsNext self.old unit broken }
        ensures moved { OnOk result (HasMoved self.old self.new) }
        ensures err { OnErr result (self.new ≡ self.old) }
    {
        placed_contents_are_the_contents();
        if call_count(&unit) > self.settings.calls().saturating_sub(self.desk.came()) {
            self.desk.end(Close::Full);
            return Ok(());
        }
        self.desk.take_in(unit, broken)?;
        self.stream.pop();
        Ok(())
    }

    /// Ends the input where its stream has ended.
    fn end_if_closed(&mut self) -> Step
        requires over { self.old.desk.state.is_over ≡ false }
        requires next { next_content self.old.stream ≡ None }
        ensures { HasDone result self.old self.new }
    {
        match self.stream.close() {
            Some(end) => {
                self.desk.end(close_of(end));
                Step::Moved
            }
            None => Step::Stayed,
        }
    }

    /// Keeps the rooms of an event's two texts that have gone, a method and params or a result, for those of contents to come:
    /// each where it is of at most 256 bytes, and at most 64 of each. What is in them has no meaning. Where there is no
    /// memory to keep one, it goes.
    pub fn keep_rooms(&mut self, name: Vec<u8>, text: Vec<u8>)
        ensures { self.new ≡ self.old }
    {
        self.reader.keep_rooms(name, text);
    }
}

/// How a connection has gone on.
pub(crate) enum Step {
    /// Not at all: it can't before its host does something.
    Stayed,
    /// A content came, or the input has ended. What is told of it is among the events.
    Moved,
    /// A call came by itself, and this is told of it.
    Told(Event),
}

/// The call, where the unit is one by itself.
#[inline(always)]
fn lone_call(unit: Unit) -> Result<Call, Unit>
    ensures ok { IfOk result (λ call. unit ≡ lone call) }
    ensures err { IfErr result (λ other. other ≡ unit) }
{
    match unit {
        Unit::Single(Entry::Call(call)) => Ok(call),
        other => Err(other),
    }
}

fn close_of(end: StreamEnd) -> Close
    ensures { result ≡ close_as end }
{
    match end {
        StreamEnd::Clean => Close::Clean,
        StreamEnd::Fault(fault) => Close::Fault(fault),
        StreamEnd::ReadFailed => Close::ReadFailed,
    }
}

/// How many calls a unit has.
fn call_count(unit: &Unit) -> u64
    ensures { result ≡ calls_of unit.now }
{
    match unit {
        Unit::Unreadable => 0,
        Unit::Single(entry) => is_call(entry) as u64,
        Unit::Batch(entries) => count_calls(entries.as_slice()),
    }
}

fn count_calls(entries: &[Entry]) -> u64
    ensures { result ≡ length (calls_in entries.now) }
{
    let mut count = 0;
    for entry in entries {
        count += is_call(entry) as u64;
    }
    count
}

fn is_call(entry: &Entry) -> bool
    ensures { bool_byte result ≡ length (call_in entry.now) }
{
    matches!(entry, Entry::Call(_))
}
