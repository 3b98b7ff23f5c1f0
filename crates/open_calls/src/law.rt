//! What holds of lists of entries with a number each, whatever code there is. Each law is the contract of a function that does
//! nothing.

ghost use Rattle.std.specs.Prelude.{◌≡◌, ℕ, suc, ◌<◌, ◌≤◌, ◌==◌, ◌&&◌, ◌++◌, ◌∷◌, [], List, Bool, Some, length, filter, if◌then◌else◌};
ghost use Rattle.std.specs.List.{find};
ghost use Rattle.open_calls.specs.Numbered.{at, without, up_to, changed_at, Above, Below};

/// Where each number is above one: so is each that something stands under, none goes with that one or stands up to it, and
/// it holds of those that pass a test.
pub fn numbers_above_one<T>()
    ensures at { (m n : ℕ) (x : T) (es : List (ℕ × T)) → Above m es → at n es ≡ Some x → m < n }
    ensures without { (m : ℕ) (es : List (ℕ × T)) → Above m es → without m es ≡ es }
    ensures up_to { (m : ℕ) (es : List (ℕ × T)) → Above m es → up_to m es ≡ [] }
    ensures pass { (m : ℕ) (test : ℕ × T → Bool) (es : List (ℕ × T)) →
        Above m es → Above m (filter test es) }
{}

/// Where each number is below one: so it is below each greater one, and a new last entry with a number below that one too;
/// all stand up to the number before it.
pub fn numbers_below_one<T>()
    ensures more { (m k : ℕ) (es : List (ℕ × T)) → m ≤ k → Below m es → Below k es }
    ensures push { (m n : ℕ) (x : T) (es : List (ℕ × T)) → n < m → Below m es →
        Below m (es ++ (n, x) ∷ []) }
    ensures up_to { (m : ℕ) (es : List (ℕ × T)) → Below (suc m) es → up_to m es ≡ es }
{}

/// An entry that is changed is the only one that is, and one that goes leaves fewer. The first that passes two tests is the
/// first that passes one of them among those that pass the other.
pub fn an_entry_changes_or_goes<T>()
    ensures changed { (n k : ℕ) (change : T → T) (x : T) (es : List (ℕ × T)) → at n es ≡ Some x →
        at k (changed_at n change es) ≡ (if n == k then Some (change x) else at k es) }
    ensures fewer { (n : ℕ) (x : T) (es : List (ℕ × T)) → at n es ≡ Some x →
        length (without n es) < length es }
    ensures found { (test other : ℕ × T → Bool) (es : List (ℕ × T)) →
        find test (filter other es) ≡ find (λ e. other e && test e) es }
{}
