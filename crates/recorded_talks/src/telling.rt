//! What is found, written.

ghost use Rattle.std.specs.Prelude.{◌≡◌, [], ◌++◌, codes, OnOk};
ghost use Rattle.std.specs.Io.KnownBytes.{Appends, Keeps};
ghost use Rattle.recorded_talks.specs.Counted.{with_one};
ghost use Rattle.recorded_talks.specs.Replayed.{findings_text, counted};
ghost use Rattle.recorded_talks.specs.Replays.{untold, with_untold};
ghost use Rattle.recorded_talks.specs.Told.{finding_text, counts_text};

use crate::counts::Counts;
use crate::failure::TalkFailure;
use crate::finding_line::finding_text;
use crate::replay::Replay;
use conversation_rules::Finding;
use std::alloc::Global;
use std::io::Write;

/// Tells what was found and isn't told yet, and counts it. Whoever waits for it gets it at once.
pub(crate) fn tell_findings<W: Write>(
    alloc: Global,
    replay: &mut Replay,
    counts: &mut Counts,
    output: &mut W,
) -> Result<(), TalkFailure>
    ensures replay { OnOk result (replay.new ≡ record replay.old { judge = with_untold [] replay.old.judge }) }
    ensures counts { OnOk result (counts.new ≡ counted (untold replay.old.judge) counts.old) }
    ensures written { OnOk result
        (Appends (W.contents output.old) (W.contents output.new) (findings_text (untold replay.old.judge))) }
{
    while let Some(finding) = replay.next_finding() {
        tell_finding(alloc, finding, counts, output)?;
    }
    flush(output)
}

fn tell_finding<W: Write>(
    alloc: Global,
    finding: Finding,
    counts: &mut Counts,
    output: &mut W,
) -> Result<(), TalkFailure>
    ensures counts { OnOk result (counts.new ≡ with_one finding.level counts.old) }
    ensures written { OnOk result
        (Appends (W.contents output.old) (W.contents output.new) (finding_text finding ++ codes "\n")) }
{
    let line = finding_text(alloc, finding)?;
    write_line(format!(in alloc; "{line}\n")?.as_str(), output)?;
    *counts = counts.with_one(finding.level);
    Ok(())
}

/// Tells how many findings there are, and sees that all is written.
pub(crate) fn tell_counts<W: Write>(
    alloc: Global,
    counts: Counts,
    output: &mut W,
) -> Result<(), TalkFailure>
    ensures { OnOk result
        (Appends (W.contents output.old) (W.contents output.new) (counts_text counts ++ codes "\n")) }
{
    write_line(format!(in alloc; "{counts}\n")?.as_str(), output)?;
    flush(output)
}

fn flush<W: Write>(output: &mut W) -> Result<(), TalkFailure>
    ensures { OnOk result (Keeps (W.contents output.old) (W.contents output.new)) }
{
    output.flush().or(Err(TalkFailure::Write))
}

fn write_line<W: Write>(line: &str, output: &mut W) -> Result<(), TalkFailure>
    ensures { OnOk result (Appends (W.contents output.old) (W.contents output.new) line.now) }
{
    output
        .write_all(line.as_bytes())
        .or(Err(TalkFailure::Write))
}
