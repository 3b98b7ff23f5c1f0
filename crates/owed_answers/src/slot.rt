ghost use Rattle.std.specs.Prelude.{◌≡◌};
ghost use Rattle.std.specs.Option.{is_none};
ghost use Rattle.owed_answers.specs.Owed.{invalid_text as the_invalid, unreadable_text as the_unreadable, seen_slot, slot_text};

/// What a slot of a unit holds as the unit comes. The texts of the connection's own answers are the same for all, so they
/// take no memory.
#[derive(Clone, Copy)]
pub enum Slot {
    /// The host has yet to give the answer.
    Lacking,
    /// The answer to an invalid entry.
    Invalid,
    /// The answer to a content that is unreadable.
    Unreadable,
}

impl Slot {
    /// Whether the host has yet to give the answer.
    pub fn is_lacking(self) -> bool
        ensures { result ≡ is_none (seen_slot self) }
    {
        match self {
            Slot::Lacking => true,
            Slot::Invalid | Slot::Unreadable => false,
        }
    }

    /// The text that stands there. It is empty where there is none.
    pub(crate) fn text(self) -> &'static [u8]
        ensures { result.now ≡ slot_text (seen_slot self) }
    {
        match self {
            Slot::Lacking => &[],
            Slot::Invalid => invalid_text(),
            Slot::Unreadable => unreadable_text(),
        }
    }
}

/// The answer to an invalid entry.
fn invalid_text() -> &'static [u8]
    ensures { result.now ≡ the_invalid }
{
    b"{\"error\":{\"code\":-32600,\"message\":\"Invalid Request\"},\"id\":null,\"jsonrpc\":\"2.0\"}"
}

/// The answer to a content that is unreadable.
fn unreadable_text() -> &'static [u8]
    ensures { result.now ≡ the_unreadable }
{
    b"{\"error\":{\"code\":-32700,\"message\":\"Parse error\"},\"id\":null,\"jsonrpc\":\"2.0\"}"
}
