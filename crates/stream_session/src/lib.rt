//! A session that is fed bytes: from the pieces of an input to what a peer has written, under the player and the server.
#![tactic(auto)]

mod known;
mod law;
mod next;
mod stream;

pub use law::{
    runs_in_frames_are_runs, sessions_go_on_standing, what_a_stream_wrote, what_sessions_wrote,
};
pub use next::{InputEnd, Next};
pub use stream::StreamSession;
