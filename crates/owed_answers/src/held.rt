ghost use Rattle.std.specs.Prelude.{◌≡◌, ℕ, List};
ghost use Rattle.std.specs.Option.{is_none};
ghost use Rattle.owed_answers.specs.Owed.{slot_text};
ghost use Rattle.owed_answers.specs.Batches.{IsWithin, seen_held};

use crate::slot::Slot;

/// What a slot of a batch holds.
#[derive(Clone, Copy)]
pub enum Held {
    /// What it held when the batch came.
    AsCame(Slot),
    /// The answer that the host gave: where it stands in the text of the batch's answers.
    Given { start: usize, end: usize },
}

impl Held {
    pub fn is_lacking(self) -> bool
        ensures { (given : List ℕ) → result ≡ is_none (seen_held given self) }
    {
        match self {
            Held::AsCame(slot) => slot.is_lacking(),
            Held::Given { .. } => false,
        }
    }

    /// The text that stands there. It is empty where there is none.
    pub fn text(self, given: &[u8]) -> &[u8]
        requires { IsWithin given.now self }
        ensures { result.now ≡ slot_text (seen_held given.now self) }
    {
        match self {
            Held::AsCame(slot) => slot.text(),
            Held::Given { start, end } => &given[start..end],
        }
    }
}
