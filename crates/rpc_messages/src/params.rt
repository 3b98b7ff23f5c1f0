//! The params of a call.

use json_values::Json;

/// The params of a call (JSON-RPC 2.0, section 4.2).
#[derive(Debug, Drop)]
pub enum Params {
    /// Absent, or null.
    Omitted,
    /// An array or an object in which every number is whole.
    Whole(Json),
    /// An array or an object in which some number is a fraction.
    Fractional,
}
