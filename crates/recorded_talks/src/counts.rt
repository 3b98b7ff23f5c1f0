//! How many findings there are.
ghost use Rattle.std.specs.Prelude.{◌≡◌, ◌≤◌, ◌↔◌, IsTrue};
ghost use Rattle.recorded_talks.specs.Counted.{none, with_one};

use conversation_rules::Level;
use std::fmt;

/// How many findings of each level were told. Shown as a summary.
#[derive(Clone, Copy, Debug, PartialEq, Eq)]
pub struct Counts {
    pub must: u64,
    pub should: u64,
    pub note: u64,
}

impl Counts {
    /// None was told yet.
    pub fn new() -> Counts
        ensures { result ≡ none }
    {
        Counts {
            must: 0,
            should: 0,
            note: 0,
        }
    }

    /// With one more of this level.
    pub(crate) fn with_one(self, level: Level) -> Counts
        ensures { result ≡ with_one level self }
    {
        match level {
            Level::Must => Counts {
                must: self.must.saturating_add(1),
                ..self
            },
            Level::Should => Counts {
                should: self.should.saturating_add(1),
                ..self
            },
            Level::Note => Counts {
                note: self.note.saturating_add(1),
                ..self
            },
        }
    }

    /// Whether a rule was broken that must be kept.
    pub fn has_must(self) -> bool
        ensures { IsTrue result ↔ (1 ≤ self.must) }
    {
        self.must > 0
    }
}

impl fmt::Display for Counts {
    ghost use Rattle.std.specs.Prelude.{Some};
    ghost use Rattle.recorded_talks.specs.Told.{counts_text};

    ghost output = { λ counts. Some (counts_text counts) };

    fn fmt<W: fmt::Write>(&self, f: &mut fmt::Formatter<W>) -> fmt::Result {
        let (must, should, note) = (self.must, self.should, self.note);
        write!(f, "found: {must} must, {should} should, {note} note")
    }
}
