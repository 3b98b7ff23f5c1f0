//! What help says after the commands.

/// What each status and each line on standard error means, and what a caller has to know of the streams.
pub const NOTES: &str = "\
Status and standard error:
  A run that does all that it was asked has the status 0 and writes nothing to standard error. Otherwise one
  line says why. --explain adds lines after it: what failed, where and why. If the table is well formed,
  check --explain draws what it does.

  0                                  The input ended between two frames, or the table is well formed
  1  input ended: BadHead            A header line isn't name:value CR LF
  1  input ended: TwoLengths         A header has a second Content-Length
  1  input ended: BadLength          A Content-Length isn't 1 to 10 digits
  1  input ended: TooLarge           A message is longer than --content allows
  1  input ended: NoLength           A header has no Content-Length
  1  input ended: HeadTooLong        A header has more than 4096 bytes, with its empty line
  1  input ended: Truncated          The input ended inside a frame
  1  input ended: Read               A read of the input of serve failed
  1  input ended: Full               More requests and notifications were received than --calls allows
  1  failed: Memory                  Out of memory, or a thread of serve could not be made
  1  failed: Write                   Standard output failed
  1  failed: Read                    The input of play or judge failed or took more than 1000000 reads
  1  failed: Long                    With play --lines, a response has more than 16777216 bytes
  2  table: cannot be read           The file of the table can't be opened or read, or takes more than 1000000 reads
  2  table: K, method M, step S      The table has the fault K there, counted from 1; 0 is outside a method or a step
  1  judged: N must                  The recording of judge breaks rules that must be kept, N times
  2  recording: fault in line N      Line N of judge's recording isn't valid, counted from 1
  2  error: ..                       The command line is refused

  What was received before the end of the input is answered. If several apply, 'failed' is reported before
  'input ended', and Write before Long. judge writes each finding to standard output as soon as it is found,
  those before a fault too.

Standard streams:
  Standard input and output must be blocking. A read or write that would block counts as one that fails.

Lines:
  With --lines a line ends before its LF, and a CR before the LF is part of it. So a blank line that ends with
  CR LF is a message, which is unreadable and gets an error response. A line without any byte is skipped. The
  last line needs no LF if the input was closed. With play --lines a response of more than 16777216 bytes ends
  the run as Long; serve --lines and frames have no such limit.";
