//! What holds of used ids, as contracts of functions that do nothing.

ghost use Rattle.std.specs.Prelude.{◌≡◌, ◌==◌, ◌||◌, ℕ, List, [], ◌∷◌, true, false};
ghost use Rattle.conversation_ids.specs.Marks.{mark_of};
ghost use Rattle.conversation_reading.specs.declared.entry.WrittenId.{WrittenId};
ghost use Rattle.conversation_rules.specs.Amounts.{same_id};
ghost use Rattle.conversation_rules.specs.Runs.{AreRuns, has_number, with_number};

/// With one more number, runs have this one, and what they had.
pub fn runs_have_what_was_put_in()
    ensures { (from m n : ℕ) (runs : List (ℕ × ℕ)) → AreRuns from runs → has_number n runs ≡ false →
        has_number m (with_number n runs) ≡ ((m == n) || has_number m runs) }
{}

/// Runs that are lengthened and joined.
pub fn worked_runs()
    ensures first { with_number 5 [] ≡ (5, 5) ∷ [] }
    ensures before_and_apart { with_number 3 ((9, 5) ∷ []) ≡ (3, 3) ∷ (9, 5) ∷ [] }
    ensures right_before { with_number 4 ((9, 5) ∷ []) ≡ (9, 4) ∷ [] }
    ensures right_behind { with_number 10 ((9, 5) ∷ (12, 12) ∷ []) ≡ (10, 5) ∷ (12, 12) ∷ [] }
    ensures between { with_number 10 ((9, 5) ∷ (12, 11) ∷ []) ≡ (12, 5) ∷ [] }
    ensures behind_and_apart { with_number 20 ((9, 5) ∷ []) ≡ (9, 5) ∷ (20, 20) ∷ [] }
{}

/// However they are written.
pub fn equal_ids_have_one_mark()
    ensures { (a b : WrittenId) → same_id a b ≡ true → mark_of a ≡ mark_of b }
{}
