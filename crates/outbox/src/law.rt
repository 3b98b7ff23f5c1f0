//! What holds of each output. A law is the contract of a function that does nothing.

ghost use Rattle.std.specs.Prelude.{◌≡◌, ◌≢◌, ◌≤◌, ℕ, List, ◌++◌};
ghost use Rattle.content_streams.specs.declared.framing.Framing.TheVariants.{Contents};
ghost use Rattle.outbox.specs.Output.{Output, after_take, all_bytes, framed, full_count, given_of, next_of, taken_bytes, with_text};

/// In Frames and Lines, what was taken and then what is to be taken are all bytes. A put adds to their end, and what a take
/// gives goes to the end of what was taken.
pub fn bytes_follow_one_another()
    ensures whole { (o : Output) → o.framing ≢ Contents → taken_bytes o ++ next_of o ≡ all_bytes o }
    ensures put { (o : Output) (text : List ℕ) →
        all_bytes (with_text text o) ≡ all_bytes o ++ framed o.framing text }
    ensures put_next { (o : Output) (text : List ℕ) → o.framing ≢ Contents →
        o.taken ≤ full_count o.framing o.written →
        next_of (with_text text o) ≡ next_of o ++ framed o.framing text }
    ensures take { (o : Output) (room : ℕ) → o.framing ≢ Contents →
        taken_bytes (after_take room o) ≡ taken_bytes o ++ given_of o room }
{}
