//! The limits of tables, as a law. It is the contract of a function that does nothing.

ghost use Rattle.std.specs.Prelude.{◌≡◌};
ghost use Rattle.method_templates.specs.declared.limits.TheConstants.{MOST_METHODS, MOST_STEPS, LONGEST_SKIP, MOST_LISTED, MOST_CALLS, LONGEST_NAME, LONGEST_REGISTER, DEEPEST_TEMPLATE};

/// The limits of tables, in figures. All other definitions and clauses cite the constants.
pub fn limits_of_tables_in_figures()
    ensures methods { (MOST_METHODS ≡ 256) × (MOST_STEPS ≡ 64) × (LONGEST_SKIP ≡ 64) }
    ensures calls { (MOST_LISTED ≡ 16) × (MOST_CALLS ≡ 1024) }
    ensures names { (LONGEST_NAME ≡ 128) × (LONGEST_REGISTER ≡ 32) × (DEEPEST_TEMPLATE ≡ 16) }
{}
