//! How the desk's waiting units follow the numbers that are finished. Each law is the contract of a function that does
//! nothing.

ghost use Rattle.std.specs.Prelude.{◌≡◌, ◌+◌, ◌++◌, ◌≤◌, ℕ, List, ◌∷◌, [], All, Option, Some, None, map, length};
ghost use Rattle.std.specs.List.{filter_map};
ghost use Rattle.rpc_messages.specs.Dues.{Due};
ghost use Rattle.rpc_messages.specs.Numbering.{unit_numbers, units_numbers};
ghost use Rattle.rpc_messages.specs.Unit.{SeenUnit};
ghost use Rattle.answer_desk.specs.Places.{new_numbers, new_parts};
ghost use Rattle.answer_desk.specs.Waiting.{unit_answered, unit_text, whole_front, behind_front};
ghost use Rattle.peer_output.specs.Course.{Course};
ghost use Rattle.peer_output.specs.Events.{with_at};
ghost use Rattle.peer_output.specs.Left.{shape_for, unit_left, units_left};
ghost use Rattle.peer_output.specs.Past.{dues_of, requests_of};

/// A unit that comes to the desk is left behind the others, with no request finished; it takes the numbers of its calls.
pub fn units_are_left_in_order()
    ensures opened { (took : ℕ → Option Course) (most : ℕ → ℕ) (n : ℕ) (unit : SeenUnit) →
        ((k : ℕ) → n ≤ k → took k ≡ None) →
        record {
          kind = (shape_for most n unit).kind;
          parts = new_parts n (shape_for most n unit).places;
        } ≡ unit_left took n unit }
    ensures numbers { (most : ℕ → ℕ) (n : ℕ) (unit : SeenUnit) →
        length (new_numbers (shape_for most n unit).places) ≡ unit_numbers unit }
    ensures behind { (took : ℕ → Option Course) (n : ℕ) (units more : List SeenUnit) →
        units_left took n (units ++ more) ≡
        units_left took n units ++ units_left took (n + units_numbers units) more }
{}

/// A number that is finished has its answer in the unit that has its request.
pub fn finished_number_is_answered_in_its_unit()
    ensures { (took : ℕ → Option Course) (number n : ℕ) (course : Course) (units : List SeenUnit) →
        map (unit_answered number course.answer) (units_left took n units) ≡
        units_left (with_at number (Some course) took) n units }
{}

/// The longest front of whole units is a front of the units that are left. All its requests are finished, its texts are those of
/// what is due to it, and the others are left behind it.
pub fn front_of_whole_units_is_due()
    ensures { (took : ℕ → Option Course) (n : ℕ) (units : List SeenUnit) →
        (front : List SeenUnit) × (left : List SeenUnit) × (units ≡ front ++ left)
        × All (λ k. (c : Course) × (took k ≡ Some c)) (requests_of n front)
        × (filter_map unit_text (whole_front (units_left took n units)) ≡
        map (λ (due : Due). due.text) (dues_of took n front))
        × (behind_front (units_left took n units) ≡
        units_left took (n + units_numbers front) left) }
{}
