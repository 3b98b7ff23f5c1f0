//! What was played, written.
use lsp_frames::LARGEST_CONTENT;
use program_edge::Failure;
use std::io::Write;

/// Writes the bytes as they are.
pub fn write_all<W: Write>(bytes: &[u8], output: &mut W) -> Result<(), Failure> {
    output.write_all(bytes).map_err(|_| Failure::Write)?;
    output.flush().map_err(|_| Failure::Write)
}

/// Writes lines, each with its LF.
///
/// # Errors
/// `Long` where a line is over 16,777,216 bytes; the lines before it are written.
pub fn write_lines<W: Write>(bytes: &[u8], output: &mut W) -> Result<(), Failure> {
    let mut end = 0usize;
    for line in bytes.split(|byte| *byte == b'\n') {
        if line.len() > LARGEST_CONTENT as usize {
            write_all(&bytes[..end.min(bytes.len())], output)?;
            return Err(Failure::Long);
        }
        end = end.saturating_add(line.len()).saturating_add(1);
    }
    write_all(bytes, output)
}
