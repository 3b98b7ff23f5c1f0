//! All texts that ever came, and how much was taken.

ghost use Rattle.std.specs.Prelude.{◌≡◌, ◌+◌, ◌++◌, ◌∷◌, [], ℕ, List};
ghost use Rattle.std.specs.Borrow.{ftrue};

use std::marker::Model;

/// What has passed through a stream, which its owner keeps so that clauses can name it: all texts that ever came, the
/// oldest first, and how much was taken, in units of the owner's choice. It has no bytes and costs nothing.
#[derive(Drop)]
pub struct GhostLog {
    pub ghost texts: { List (List ℕ) },
    pub ghost taken: { ℕ },
}

impl Model for GhostLog {
    ghost also_owns = { λ _. ftrue };
}

// It owns nothing.
unsafe impl Send for GhostLog {}

unsafe impl Sync for GhostLog {}

impl GhostLog {
    pub fn new() -> GhostLog
        ensures { result ≡ record { texts = []; taken = 0 } }
    {
        GhostLog {}
    }

    /// The same, after this text came too.
    pub fn with_text(&self, _text: &[u8]) -> GhostLog
        ensures { result ≡ record {
          texts = self.now.texts ++ _text.now ∷ [];
          taken = self.now.taken;
        } }
    {
        GhostLog {}
    }

    /// The same, after so much more was taken.
    pub fn with_taken(&self, _count: usize) -> GhostLog
        ensures { result ≡ record {
          texts = self.now.texts;
          taken = self.now.taken + _count;
        } }
    {
        GhostLog {}
    }

    /// The same once more.
    pub fn again(&self) -> GhostLog
        ensures { result ≡ self.now }
    {
        GhostLog {}
    }
}
