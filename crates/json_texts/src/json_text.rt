ghost use Rattle.std.specs.Prelude.{◌≡◌, ◌≤◌, IfOk};
ghost use Rattle.json.specs.Tree.{HasNumbers, depth};
ghost use Rattle.json.specs.Value.{value_view};
ghost use Rattle.json_texts.specs.Texts.{json_text, compact_text, IsJsonText};

use crate::reading::{TextReader, text_of};
use json::Value;
use json_values::Text;
use std::alloc::{AllocError, Global};
use std::marker::Model;

/// The arrays and objects of a `JsonText` nest at most this deep, each counting one. So a message that holds it, and a
/// batch of such messages, nest no deeper than readers allow.
pub const MOST_DEPTH_OUT: usize = 120;

/// The compact text of a JSON value, seen by contracts as the list of its bytes.
#[derive(Debug, Drop)]
pub struct JsonText {
    text: Text,
}

impl Model for JsonText {
    ghost use Rattle.std.specs.Prelude.{ℕ, List};
    ghost use Rattle.json_texts.specs.Texts.{IsJsonText};

    ghost Value = { List ℕ };

    ghost view = { λ t. t.text };

    ghost invariant = { λ t. IsJsonText t.text };
}

impl JsonText {
    /// The compact text of the value that the bytes are. There is none where they aren't UTF-8, aren't one JSON value, or
    /// nest too deep. A `TextReader` reads many texts over the same room.
    pub fn parse(alloc: Global, bytes: &[u8]) -> Result<Option<JsonText>, AllocError>
        ensures { IfOk result (λ text. text ≡ compact_text MOST_DEPTH_OUT bytes.now) }
    {
        TextReader::new(alloc).read(bytes)
    }

    /// The compact text of a value, as one that was read or `Value::String(text)`.
    pub fn of_value(alloc: Global, value: &Value<'_>) -> Result<JsonText, AllocError>
        requires numbers { HasNumbers (value_view value.now) }
        requires nests { depth (value_view value.now) ≤ MOST_DEPTH_OUT }
        ensures { IfOk result (λ text. text ≡ json_text (value_view value.now)) }
    {
        Ok(JsonText {
            text: text_of(alloc, value)?,
        })
    }

    /// A text that is compact, with no new memory.
    pub(crate) fn of_compact(text: Text) -> JsonText
        requires { IsJsonText text }
        ensures { result ≡ text }
    {
        JsonText { text }
    }

    /// A copy of a text that is compact.
    pub(crate) fn copy_of(alloc: Global, text: &str) -> Result<JsonText, AllocError>
        requires { IsJsonText text.now }
        ensures { IfOk result (λ copy. copy ≡ text.now) }
    {
        Ok(JsonText {
            text: Text::copy_of(alloc, text)?,
        })
    }

    /// The text, lent.
    pub fn as_str(&self) -> &str
        ensures { result.now ≡ self.now }
    {
        self.text.as_str()
    }

    /// The text's bytes, lent.
    pub fn as_bytes(&self) -> &[u8]
        ensures { result.now ≡ self.now }
    {
        self.text.as_bytes()
    }

    /// That the text is a JSON value's: a law, which does nothing.
    #[inline]
    pub fn is_json_text(&self)
        ensures { IsJsonText self.now }
    {
        let _ = &self.text;
    }
}

/// The limit, in figures.
pub fn limits_of_texts_in_figures()
    ensures { MOST_DEPTH_OUT ≡ 120 }
{}
