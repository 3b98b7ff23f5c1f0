use crate::cancels::Cancels;

/// How contents are read, where that can be chosen.
#[derive(Clone, Copy, Debug, PartialEq, Eq)]
pub struct Rules {
    /// The cancels that are told apart from calls.
    pub cancels: Option<Cancels>,
    /// How many entries a batch may have. One of more is a single invalid entry, and is seen to be one before there is room
    /// for its entries. With none there is no limit.
    pub most_entries: Option<u64>,
    /// Whether params that are null are told as the text `null`. Else a call with such params has none.
    pub null_params: bool,
}

impl Rules {
    ghost use Rattle.std.specs.Prelude.{◌≡◌, None, false};
    ghost use Rattle.connection_messages.specs.Reading.{are_too_many};

    /// With these cancels, batches of any length, and params that are null read as none.
    pub fn new(cancels: Option<Cancels>) -> Rules
        ensures { result ≡ record { cancels = cancels; most_entries = None; null_params = false } }
    {
        Rules {
            cancels,
            most_entries: None,
            null_params: false,
        }
    }

    /// Whether so many entries are more than a batch may have.
    pub(crate) fn are_too_many(self, count: usize) -> bool
        ensures { result ≡ are_too_many self.most_entries count }
    {
        match self.most_entries {
            Some(most) => count as u64 > most,
            None => false,
        }
    }
}
