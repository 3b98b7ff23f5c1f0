//! What a job passes before its turn.

ghost use Rattle.std.specs.Prelude.{ℕ, ⊤};

/// Each job passes a gate before it is turned, in its worker's thread. A gate says nothing of what is written: it may hold a job
/// up for a while, as a test does to order turns.
pub trait Gate: Drop {
    /// The job of this number has passed. A gate that doesn't define it says nothing of it.
    ghost has_passed: { Self → ℕ → Type 0 } = { λ _ _. ⊤ };

    /// The job of this number is about to be turned.
    fn pass(&self, number: u32)
        ensures { has_passed self.now number };
}

/// Holds nothing up.
#[derive(Clone, Copy, Debug, Drop)]
pub struct OpenGate;

impl Gate for OpenGate {
    fn pass(&self, _number: u32) {}
}
