//! A JSON-RPC 2.0 peer over one byte stream: the server, and the front door of the libraries below.
//!
//! A table of methods says what the peer can do. A player takes the bytes that come in, in any pieces, runs the methods
//! that they ask for, and writes what the peer sends and answers:
//!
//! ```text
//! use lsp_frames::encode;
//! use method_steps::Table;
//! use rpc_peer::{Limits, Picks, PlayFault, Report, Schedule, play};
//!
//! /// What a peer with the methods of this table writes for one content, as frames.
//! fn answered(
//!     alloc: Global,
//!     table: &Table,
//!     content: &[u8],
//! ) -> Result<(Vec<u8>, Report), PlayFault> {
//!     let schedule = Schedule {
//!         lazy: false,
//!         picks: Picks::First,
//!     };
//!     let pieces = [encode(alloc, content).map_err(|_| PlayFault::Memory)?];
//!     play(alloc, table, Limits::standard(), &pieces, &schedule)
//! }
//! ```
//!
//! - `serve` serves a source and a sink by several threads; `serve_with` holds each handler at a gate before its turns, and
//!   `serve_by` chooses its crew too.
//! - `serve_lines` serves whole lines in place of frames.
//! - `serve_telling` tells a hook how that ended before it waits for its reader.
//! - `play` plays a whole input and keeps what is written; `play_to` writes it to a sink as it goes.
//! - A `Player` is fed its input piece by piece.
//! - A `Session` is what a player stands on, for who brings contents in and handlers to their turns by himself.
#![tactic(auto)]

mod arrival;
mod bells;
mod clerk;
mod crew;
mod end_hook;
mod events;
mod fault;
mod gate;
mod gated;
mod law;
mod patience;
mod reader;
mod reading;
mod server;
mod serving;
mod taking;
mod threads;
mod worker;

pub use crew::{Crew, USUAL_YIELDS};
pub use end_hook::{EndHook, NoHook};
pub use fault::ServeFault;
pub use gate::{Gate, OpenGate};
pub use gated::Gated;
pub use peer_player::{Picks, PlayFault, Player, Schedule, play, play_to};
pub use peer_session::{Close, DrainFault, Job, Limits, Report, Session, Taken};
pub use server::{
    MOST_WORKERS, limit_of_workers_in_figures, serve, serve_by, serve_lines, serve_telling,
    serve_with,
};
pub use stream_framing::Framing;
