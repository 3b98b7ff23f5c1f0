//! Recordings of conversations: what was seen of two sides, as text that people can read and cut. One is judged as it is
//! read, with a line for each finding and a summary. Its lines are
//!
//! ```text
//! judge 1 RULES FRAMING      the first line: jsonrpc, lsp, or mcp or mcp:VERSION; frames, lines or contents
//! > HEX                      the client wrote these bytes, two hexadecimal digits each
//! < HEX                      the server did
//! > closed                   the client's stream was closed
//! < failed                   reading the server's stream failed
//! ```
//!
//! Behind each of them but the first ` # N` may stand, the milliseconds since the beginning. A line that is empty or
//! begins with `#` says nothing. Blanks and a CR at the end of a line don't count.
#![tactic(auto)]

mod bytes;
mod counts;
mod entry;
mod failure;
mod fault;
mod finding_line;
mod head;
mod judging;
mod options;
mod replay;
mod telling;
mod text;
mod time;
mod worked;

pub use counts::Counts;
pub use failure::TalkFailure;
pub use judging::judge_talk;
pub use options::TalkOptions;
pub use worked::{worked_heads, worked_lines};
