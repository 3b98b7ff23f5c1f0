//! What is written of a case.
use crate::work::written;
use program_edge::Failure;
use rpc_peer::{Close, Report};
use std::fmt::Debug;
use std::io::Write;

/// Writes what came of a case that was run to its end, and the bytes that the peer wrote.
pub fn write_report<W: Write>(output: &mut W, report: Report, bytes: &[u8]) -> Result<(), Failure> {
    let counts = [
        report.numbers,
        report.messages,
        report.call_frames,
        report.answers,
        report.polls,
    ];
    match report.end {
        Close::Frame(fault) => write_record(output, fault, &counts, bytes),
        end => write_record(output, end, &counts, bytes),
    }
}

/// Writes why a case stopped short, and the bytes that the peer had written by then.
pub fn write_stop<W: Write, F: Debug + Drop>(
    output: &mut W,
    fault: F,
    bytes: &[u8],
) -> Result<(), Failure> {
    write_record(output, fault, &[0; 5], bytes)
}

/// Writes how a case ended, what was counted, and the bytes that the peer wrote behind their length.
fn write_record<W: Write, E: Debug + Drop>(
    output: &mut W,
    end: E,
    counts: &[u64],
    bytes: &[u8],
) -> Result<(), Failure> {
    written(write!(output, "{end:?}"))?;
    for count in counts {
        written(write!(output, " {count}"))?;
    }
    let length = bytes.len();
    written(writeln!(output, " {length}"))?;
    written(output.write_all(bytes))
}
