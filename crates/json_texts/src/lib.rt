//! The texts of JSON values: a text is taken only where it is one value, and held in its compact form, with every digit
//! of its numbers.
#![tactic(auto)]

mod compact;
mod compacting;
mod escapes;
mod json_text;
mod naturals;
mod plain;
mod reading;
mod room;
mod spaced;
mod utf8;
mod words;

pub use compact::{name_end, value_end};
pub use json_text::{JsonText, MOST_DEPTH_OUT, limits_of_texts_in_figures};
pub use plain::plain_end;
pub use reading::{TextReader, read_str, read_value, text_of};
pub use spaced::{CompactText, Known, compacted};
pub use utf8::utf8_text;
pub use words::{begins, begins_short};
