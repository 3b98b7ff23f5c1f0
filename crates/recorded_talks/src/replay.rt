//! A recording before the judge, as it is read.

ghost use Rattle.std.specs.Prelude.{◌≡◌, ℕ, List, [], ◌∷◌, ◌++◌, drop, Option, Some, OnOk};
ghost use Rattle.std.specs.Option.{option_to_list};
ghost use Rattle.std.specs.List.{position};
ghost use Rattle.content_streams.specs.Lines.{parts, is_lf};
ghost use Rattle.conversation_rules.specs.Judging.{Seen};
ghost use Rattle.conversation_rules.specs.declared.finding.Finding.{Finding as FindingValue};
ghost use Rattle.recorded_talks.specs.Entries.{seen_as};
ghost use Rattle.recorded_talks.specs.Recorded.{said_by};
ghost use Rattle.recorded_talks.specs.Replays.{SeesMore, Sees, IsOf, Replays, untold, with_untold};
ghost use Rattle.recorded_talks.specs.declared.entry.Entry.TheVariants.{Ended};
ghost use Rattle.recorded_talks.specs.declared.options.TalkOptions.{TalkOptions};

use crate::entry::{Entry, read_entry};
use crate::fault::LineFault;
use crate::head::read_head;
use content_streams::{Framing, HowEnded};
use conversation_judge::Judge;
use conversation_rules::{Finding, Limits, Protocol, Side};
use lsp_frames::LARGEST_CONTENT;
use std::alloc::Global;

/// So many used ids of a side are kept.
const MOST_IDS: u32 = 1_000_000;

/// Why a recording can't be judged on.
#[derive(Clone, Copy, Debug, PartialEq, Eq)]
pub(crate) enum ReplayFault {
    Memory,
    /// This line, counted from 1, is none of a recording.
    NoRecording(u64),
}

/// A recording that is judged line by line. What one line gives can be asked for once it was taken.
pub(crate) struct Replay {
    alloc: Global,
    /// These stand before those of the first line.
    protocol: Option<Protocol>,
    framing: Option<Framing>,
    /// There is one behind the first line.
    judge: Option<Judge>,
    /// The line under way, and how many came before it.
    line: Vec<u8>,
    count: u64,
}

// Written out, so that whoever drops one makes a call, and knows nothing of what is in it.
impl Drop for Replay {
    fn drop(self) {
        let Replay {
            alloc: _,
            protocol: _,
            framing: _,
            judge,
            line,
            count: _,
        } = self;
        drop(judge);
        drop(line);
    }
}

impl Replay {
    /// Nothing of it was read. Takes no memory.
    pub(crate) fn new(alloc: Global, protocol: Option<Protocol>, framing: Option<Framing>) -> Replay
        ensures { Replays (record { protocol = protocol; framing = framing }) [] [] [] result }
    {
        Replay {
            alloc,
            protocol,
            framing,
            judge: None,
            line: Vec::new(alloc),
            count: 0,
        }
    }

    /// Takes bytes of it, cut as they were read.
    ///
    /// # Errors
    /// `NoRecording` at the first line that is none; those before it were judged.
    pub(crate) fn take(&mut self, piece: &[u8]) -> Result<(), ReplayFault>
        ensures { (options : TalkOptions) (text : List ℕ) (told : List FindingValue) →
            Replays options text [] told self.old → OnOk result (Replays options (text ++ piece.now) [] told self.new) }
    {
        let mut left = piece;
        while let Some(end) = place_of_lf(left) {
            self.put(&left[..end])?;
            self.take_line()?;
            left = &left[end + 1..];
        }
        self.put(left)
    }

    /// Takes its end: the line under way is the last one, and may be empty.
    ///
    /// # Errors
    /// The same.
    pub(crate) fn end(&mut self) -> Result<(), ReplayFault>
        ensures { (options : TalkOptions) (text : List ℕ) (told : List FindingValue) →
            Replays options text [] told self.old → OnOk result (Sees options (parts text) told self.new.judge) }
    {
        self.take_line()
    }

    /// The first finding that wasn't told.
    pub(crate) fn next_finding(&mut self) -> Option<Finding>
        ensures finding { untold self.old.judge ≡ option_to_list result ++ untold self.new.judge }
        ensures rest { untold self.new.judge ≡ drop 1 (untold self.old.judge) }
        ensures others { self.new ≡ record self.old { judge = with_untold (untold self.new.judge) self.old.judge } }
    {
        match &mut self.judge {
            Some(judge) => judge.next_finding(),
            None => None,
        }
    }

    fn put(&mut self, part: &[u8]) -> Result<(), ReplayFault>
        ensures line { OnOk result (self.new.line.items ≡ self.old.line.items ++ part.now) }
        ensures judge { self.new.judge ≡ self.old.judge }
        ensures is_of { (options : TalkOptions) → IsOf options self.old → IsOf options self.new }
    {
        self.line
            .extend_from_slice(part)
            .or(Err(ReplayFault::Memory))
    }

    /// Takes the line under way.
    fn take_line(&mut self) -> Result<(), ReplayFault>
        ensures sees { (options : TalkOptions) (lines : List (List ℕ)) (told : List FindingValue) →
            IsOf options self.old → Sees options lines told self.old.judge →
            OnOk result (Sees options (lines ++ self.old.line.items ∷ []) told self.new.judge) }
        ensures line { self.new.line.items ≡ [] }
        ensures is_of { (options : TalkOptions) → IsOf options self.old → IsOf options self.new }
    {
        self.count = self.count.saturating_add(1);
        let taken = self.hear();
        self.line.clear();
        match taken {
            Ok(()) => Ok(()),
            Err(LineFault::Memory) => Err(ReplayFault::Memory),
            Err(LineFault::Unreadable) => Err(ReplayFault::NoRecording(self.count)),
        }
    }

    /// Shows the judge what the line under way says. The first line says which judge it is.
    fn hear(&mut self) -> Result<(), LineFault>
        ensures sees { (options : TalkOptions) (lines : List (List ℕ)) (told : List FindingValue) →
            IsOf options self.old → Sees options lines told self.old.judge →
            OnOk result (Sees options (lines ++ self.old.line.items ∷ []) told self.new.judge) }
        ensures is_of { (options : TalkOptions) → IsOf options self.old → IsOf options self.new }
    {
        match &mut self.judge {
            Some(judge) => show(self.alloc, judge, self.line.as_slice()),
            None => self.begin(),
        }
    }

    /// Makes the judge that the first line asks for.
    fn begin(&mut self) -> Result<(), LineFault>
        ensures sees { (options : TalkOptions) → IsOf options self.old →
            OnOk result (Sees options (self.old.line.items ∷ []) [] self.new.judge) }
        ensures is_of { (options : TalkOptions) → IsOf options self.old → IsOf options self.new }
    {
        let head = read_head(self.line.as_slice()).ok_or(LineFault::Unreadable)?;
        let limits = Limits {
            content: LARGEST_CONTENT,
            ids: MOST_IDS,
        };
        let protocol = self.protocol.unwrap_or(head.protocol);
        let framing = self.framing.unwrap_or(head.framing);
        self.judge = Some(Judge::new(self.alloc, protocol, framing, limits));
        Ok(())
    }
}

/// Where the first line ends.
fn place_of_lf(bytes: &[u8]) -> Option<usize>
    ensures { result ≡ position is_lf bytes.now }
{
    bytes.iter().position(|byte| *byte == b'\n')
}

/// Shows the judge what a line says.
fn show(alloc: Global, judge: &mut Judge, line: &[u8]) -> Result<(), LineFault>
    ensures { OnOk result ((said : Option Seen) × (said_by line.now ≡ Some said)
        × SeesMore judge.old judge.new (option_to_list said)) }
{
    match read_entry(alloc, line)? {
        Some(entry) => show_entry(judge, entry),
        None => Ok(()),
    }
}

/// Shows the judge what was seen.
fn show_entry(judge: &mut Judge, entry: Entry) -> Result<(), LineFault>
    ensures { OnOk result (SeesMore judge.old judge.new (seen_as entry ∷ [])) }
{
    match entry {
        Entry::Wrote(side, bytes) => judge.saw(side, bytes.as_slice())?,
        Entry::Ended(side, how) => show_end(judge, side, how)?,
    }
    Ok(())
}

/// Shows the judge how a side ended.
fn show_end(judge: &mut Judge, side: Side, how: HowEnded) -> Result<(), LineFault>
    ensures { OnOk result (SeesMore judge.old judge.new (seen_as (Ended side how) ∷ [])) }
{
    match how {
        HowEnded::Closed => judge.closed(side)?,
        HowEnded::ReadFailed => judge.failed(side)?,
    }
    Ok(())
}
