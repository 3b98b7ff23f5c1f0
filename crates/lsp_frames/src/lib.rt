//! Frames of the Language Server Protocol's base protocol (LSP 3.17, "Base Protocol"): a head that says how many
//! bytes follow, and that many bytes.
#![tactic(auto)]

mod charset;
mod decoder;
mod device;
mod fault;
mod fed;
mod field;
mod frame;
mod frames;
mod gathering;
mod law;
mod limits;
mod line;
mod mem_sink;
mod mem_source;
mod partial;
mod std_device;
mod usual_head;
mod writing;

pub use decoder::Decoder;
pub use device::{IoFault, PutFault, Sink, Source, put_all};
pub use fault::FeedFault;
pub use fed::Fed;
pub use frame::{End, Frame, FrameFault};
pub use frames::{Content, Frames};
pub use law::{
    a_greater_limit_reads_the_same, contents_are_a_function_of_the_bytes, contents_stay,
    front_is_a_frame, front_shows_a_fault, limits_of_frames_in_figures, no_bytes_show_an_end,
    no_frame_extends_another, written_frame_is_read_back,
};
pub use limits::{LARGEST_CONTENT, LONGEST_CONTENT};
pub use mem_sink::MemSink;
pub use mem_source::MemSource;
pub use std_device::{StdSink, StdSource};
pub use writing::{encode, put_frame, put_head};
