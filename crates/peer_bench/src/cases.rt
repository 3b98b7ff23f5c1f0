//! Many streams of bytes, played and served one behind another, so that a stream costs no start of a program.
//!
//! A case on standard input is a line and then as many bytes of a stream as the line says at its end:
//!
//! ```text
//! play eager first 7,3 412        played; eager or lazy; first, last or the places of its picks, as 1,0,2; in pieces of 7 bytes,
//!                                 of 3, and of what is left; 412 bytes
//! serve 4 - 412                   served by 4 workers, in one piece; 412 bytes
//! ```
//!
//! For each case a line is written and then as many bytes as the line says at its end: those that the peer wrote.
//!
//! ```text
//! Clean 3 1 1 2 4 190             how the input ended; its numbers, messages, calls, answers and polls
//! Memory 0 0 0 0 0 60             or why it stopped short
//! ```
mod case;
mod reading;
mod record;
mod running;

pub use running::run_cases;
