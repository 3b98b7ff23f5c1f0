//! The error of a reply.

ghost use Rattle.std.specs.Prelude.{◌≡◌};

use json_values::{Json, JsonObject, Text};
use message_ids::Standard;
use std::alloc::{AllocError, Global};

/// An error (JSON-RPC 2.0, section 5.1); `extra` is its member `data`.
#[derive(Debug, Drop)]
pub struct ErrorValue {
    pub code: i64,
    pub message: Text,
    pub extra: Option<Json>,
}

impl ErrorValue {
    ghost use Rattle.std.specs.Prelude.{◌≡◌, IfOk};
    ghost use Rattle.rpc_messages.specs.Texts.{error_data, standard_error};

    /// The fixed error with its code and message, and no `data`.
    pub fn standard(alloc: Global, standard: Standard) -> Result<ErrorValue, AllocError>
        ensures { IfOk result (λ error. error ≡ standard_error standard) }
    {
        Ok(ErrorValue {
            code: standard.code(),
            message: Text::copy_of(alloc, standard.message())?,
            extra: None,
        })
    }

    /// The error object, of copies.
    pub fn to_json(&self, alloc: Global) -> Result<Json, AllocError>
        ensures { IfOk result (λ json. json ≡ error_data self.now) }
    {
        let object = JsonObject::new(alloc)
            .with(alloc, "code", Json::integer(self.code))?
            .with(alloc, "message", Json::string(self.message.clone()?))?;
        match &self.extra {
            Some(extra) => Ok(object.with(alloc, "data", extra.clone()?)?.finish()),
            None => Ok(object.finish()),
        }
    }
}

impl Clone for ErrorValue {
    ghost is_clone = { λ a b. b ≡ a };

    fn clone(&self) -> Result<ErrorValue, AllocError> {
        Ok(ErrorValue {
            code: self.code,
            message: self.message.clone()?,
            extra: Json::clone_optional(&self.extra)?,
        })
    }
}
