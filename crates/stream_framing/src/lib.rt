//! How contents follow one another in a stream: in frames, or as whole lines. What comes is cut into contents, and texts
//! that go out are put behind one another.
#![tactic(auto)]

mod cutter;
mod framing;
mod law;
mod line_cutter;
mod writing;

pub use cutter::Cutter;
pub use framing::Framing;
pub use law::{closed_lines_are_whole, written_lines_are_read_back};
pub use line_cutter::LineCutter;
pub use writing::put_text;
