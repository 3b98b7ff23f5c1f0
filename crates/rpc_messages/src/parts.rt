//! The texts of values, as parts of messages.

ghost use Rattle.std.specs.Prelude.{◌≡◌, IfOk, OnOk, option_copied, option_map};
ghost use Rattle.serde_json.specs.Written.{compact_text};
ghost use Rattle.rpc_messages.specs.Parts.{AreReadBack};

use json_values::Json;
use std::alloc::{AllocError, Global};

/// The text of a value, where there is one.
pub(crate) fn optional_text(
    alloc: Global,
    value: &Option<Json>,
) -> Result<Option<Vec<u8>>, AllocError>
    ensures text { IfOk result (λ text.
        option_map (λ bytes. bytes.items) text ≡ option_map compact_text value.now) }
    ensures reads_back { OnOk result (AreReadBack value.now) }
{
    match value {
        Some(value) => Ok(Some(value.to_bytes(alloc)?)),
        None => Ok(None),
    }
}

pub(crate) fn lent(text: &Option<Vec<u8>>) -> Option<&[u8]>
    ensures { option_copied result ≡ option_map (λ bytes. bytes.items) text.now }
{
    match text {
        Some(text) => Some(text.as_slice()),
        None => None,
    }
}
