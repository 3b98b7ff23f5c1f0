//! The values that the other crates hold: lists and texts that contracts see as plain lists, and JSON values in which
//! no number is a fraction.
#![tactic(auto)]

mod items;
mod json_array;
mod json_object;
mod json_value;
mod negative;
mod text;
mod whole;

pub use items::Items;
pub use json_array::JsonArray;
pub use json_object::JsonObject;
pub use json_value::Json;
pub use negative::Negative;
pub use text::Text;
