//! What a call or notification of ours says.

ghost use Rattle.std.specs.Prelude.{◌≡◌};

use json_values::{Json, Text};
use std::alloc::AllocError;

/// The method and the params of a call or notification that goes to the other side.
#[derive(Debug, Drop)]
pub struct Outgoing {
    pub method: Text,
    pub params: Option<Json>,
}

impl Clone for Outgoing {
    ghost is_clone = { λ a b. b ≡ a };

    fn clone(&self) -> Result<Outgoing, AllocError> {
        Ok(Outgoing {
            method: self.method.clone()?,
            params: Json::clone_optional(&self.params)?,
        })
    }
}
