//! A recording, judged as it is read.

ghost use Rattle.std.specs.Prelude.{◌≡◌, ℕ, List, [], IfOk, IfSome, OnOk};
ghost use Rattle.std.specs.Io.KnownBytes.{Appends, Consumes, IsAtEnd};
ghost use Rattle.conversation_rules.specs.declared.finding.Finding.{Finding};
ghost use Rattle.recorded_talks.specs.Counted.{none};
ghost use Rattle.recorded_talks.specs.Replayed.{Talk};
ghost use Rattle.recorded_talks.specs.Replays.{Replays, Went, Ended};
ghost use Rattle.recorded_talks.specs.declared.options.TalkOptions.{TalkOptions as Options};

use crate::counts::Counts;
use crate::failure::TalkFailure;
use crate::options::TalkOptions;
use crate::replay::Replay;
use crate::telling::{tell_counts, tell_findings};
use std::alloc::Global;
use std::io::{Read, Write};

/// How many bytes are read at a time.
const PIECE: usize = 16_384;

/// How many reads are made of a reader that doesn't end.
const MOST_READS: u32 = 1_000_000;

/// Judges the recording that a reader gives: writes a line for each finding as soon as it is found, and then a summary, and
/// gives how many there are.
///
/// # Errors
/// `NoRecording` at the first line that is none of a recording's, `Read` where the reader fails or hasn't ended after
/// 1,000,000 reads, `Write` and `Memory`. What was found before is written; there is no summary.
pub fn judge_talk<I: Read, W: Write>(
    alloc: Global,
    options: TalkOptions,
    input: &mut I,
    output: &mut W,
) -> Result<Counts, TalkFailure>
    ensures { IfOk result (λ counts. (text : List ℕ) × (written : List ℕ)
        × IfSome (I.remaining input.old) (λ held. held ≡ text)
        × Talk options text counts written
        × Appends (W.contents output.old) (W.contents output.new) written) }
{
    let mut replay = Replay::new(alloc, options.protocol, options.framing);
    let mut counts = Counts::new();
    judge(alloc, &mut replay, &mut counts, input, output)?;
    Ok(counts)
}

fn judge<I: Read, W: Write>(
    alloc: Global,
    replay: &mut Replay,
    counts: &mut Counts,
    input: &mut I,
    output: &mut W,
) -> Result<(), TalkFailure>
    ensures { (options : Options) → Replays options [] [] [] replay.old → counts.old ≡ none →
        OnOk result ((text : List ℕ) × (written : List ℕ)
        × IfSome (I.remaining input.old) (λ held. held ≡ text)
        × Talk options text counts.new written
        × Appends (W.contents output.old) (W.contents output.new) written) }
{
    take_all(alloc, replay, counts, input, output)?;
    take_end(alloc, replay, counts, output)?;
    tell_counts(alloc, *counts, output)
}

fn take_all<I: Read, W: Write>(
    alloc: Global,
    replay: &mut Replay,
    counts: &mut Counts,
    input: &mut I,
    output: &mut W,
) -> Result<(), TalkFailure>
    ensures { OnOk result ((text : List ℕ) × (found : List Finding)
        × Consumes (I.remaining input.old) (I.remaining input.new) text
        × IsAtEnd (I.remaining input.new)
        × Went replay.old replay.new counts.old counts.new (W.contents output.old) (W.contents output.new) text found) }
{
    let mut room = [0u8; PIECE];
    for _ in 0..MOST_READS {
        match input.read(&mut room) {
            Ok(0) => return Ok(()),
            Ok(count) => take_piece(alloc, replay, counts, &room[..count], output)?,
            Err(_) => return Err(TalkFailure::Read),
        }
    }
    Err(TalkFailure::Read)
}

fn take_piece<W: Write>(
    alloc: Global,
    replay: &mut Replay,
    counts: &mut Counts,
    piece: &[u8],
    output: &mut W,
) -> Result<(), TalkFailure>
    ensures { OnOk result ((found : List Finding)
        × Went replay.old replay.new counts.old counts.new (W.contents output.old) (W.contents output.new) piece.now found) }
{
    let taken = replay.take(piece);
    tell_findings(alloc, replay, counts, output)?;
    Ok(taken?)
}

fn take_end<W: Write>(
    alloc: Global,
    replay: &mut Replay,
    counts: &mut Counts,
    output: &mut W,
) -> Result<(), TalkFailure>
    ensures { OnOk result ((found : List Finding)
        × Ended replay.old replay.new counts.old counts.new (W.contents output.old) (W.contents output.new) found) }
{
    let taken = replay.end();
    tell_findings(alloc, replay, counts, output)?;
    Ok(taken?)
}
