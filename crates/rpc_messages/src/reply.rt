//! What a call ends with.

ghost use Rattle.std.specs.Prelude.{◌≡◌};

use crate::error_value::ErrorValue;
use json_values::Json;
use message_ids::Standard;
use std::alloc::AllocError;

/// What a request or a call ended with: its result, an error, or one of the fixed errors.
#[derive(Debug, Drop)]
pub enum Reply {
    Done(Json),
    Error(ErrorValue),
    Standard(Standard),
}

impl Clone for Reply {
    ghost is_clone = { λ a b. b ≡ a };

    fn clone(&self) -> Result<Reply, AllocError> {
        match self {
            Reply::Done(value) => Ok(Reply::Done(value.clone()?)),
            Reply::Error(error) => Ok(Reply::Error(error.clone()?)),
            Reply::Standard(standard) => Ok(Reply::Standard(*standard)),
        }
    }
}
