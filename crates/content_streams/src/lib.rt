//! From the pieces of a stream to its contents, in three framings.
#![tactic(auto)]

mod content_cutter;
mod content_stream;
mod cutter;
mod ending;
mod frames;
mod framing;
mod law;
mod line_cutter;
mod line_feed;
mod places;
mod row;
mod under_way;
mod usual_head;

pub use content_stream::ContentStream;
pub use ending::{HowEnded, StreamEnd};
pub use framing::Framing;
pub use law::{
    contents_only_grow, cuts_do_not_matter, faults_stay, frames_are_those_of_the_bytes,
    greater_limits_read_the_same, lines_are_those_of_the_bytes, placed_contents_are_the_contents,
    places_stay,
};
