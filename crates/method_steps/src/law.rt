//! What holds of texts and tables, whatever reader there is. Each law is the contract of a function that does nothing.

ghost use Rattle.std.specs.Prelude.{◌≡◌, ◌↔◌, ℕ, List, Ok, Err};
ghost use Rattle.table_reading.specs.declared.fault.TableFault.{TableFault};
ghost use Rattle.method_steps.specs.Made.{table_of};
ghost use Rattle.method_steps.specs.Shown.{Shows, ShowsFirst};
ghost use Rattle.method_steps.specs.Steps.{MethodTable};

/// A text is refused with a fault exactly where it shows that fault, and none that comes before it.
pub fn told_fault_is_the_first_shown()
    ensures { (bytes : List ℕ) (fault : TableFault) →
        (table_of bytes ≡ Err fault) ↔ ShowsFirst bytes fault }
{}

/// A text is a table exactly where it shows no fault.
pub fn text_without_faults_is_a_table()
    ensures { (bytes : List ℕ) →
        ((table : MethodTable) × (table_of bytes ≡ Ok table))
        ↔ ((fault : TableFault) → Shows bytes fault → ⊥) }
{}
