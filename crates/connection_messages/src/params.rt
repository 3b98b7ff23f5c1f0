ghost use Rattle.std.specs.Prelude.{◌≡◌, Some, None, if◌then◌else◌};
ghost use Rattle.connection_messages.specs.Params.{is_structured};
ghost use Rattle.connection_messages.specs.ReadBack.{AreParams};

use json_texts::JsonText;
use std::marker::Model;

/// The params of a call or a notification that goes out: the text of an array or an object (JSON-RPC 2.0, section 4.2).
#[derive(Debug, Drop)]
pub struct OutgoingParams {
    text: JsonText,
}

impl Model for OutgoingParams {
    ghost use Rattle.std.specs.Prelude.{◌≡◌, ℕ, List, true};
    ghost use Rattle.connection_messages.specs.Params.{is_structured};

    ghost Value = { List ℕ };

    ghost view = { λ p. p.text };

    ghost invariant = { λ p. is_structured p.text ≡ true };
}

impl OutgoingParams {
    /// Params of this text. There are none where it is neither an array nor an object.
    pub fn new(text: JsonText) -> Option<OutgoingParams>
        ensures { result ≡ (if is_structured text then Some text else None) }
    {
        match text.as_bytes().first() {
            Some(b'[' | b'{') => Some(OutgoingParams { text }),
            _ => None,
        }
    }

    /// The text, lent.
    pub fn as_str(&self) -> &str
        ensures { result.now ≡ self.now }
    {
        self.text.as_str()
    }

    /// That the text is a JSON value's, as are all params: a law, which does nothing.
    #[inline]
    pub(crate) fn are_params(&self)
        ensures { AreParams (Some self.now) }
    {
        let text = &self.text;
        text.is_json_text();
    }
}
