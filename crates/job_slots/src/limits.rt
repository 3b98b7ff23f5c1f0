//! How many slots a table may have.

ghost use Rattle.std.specs.Prelude.{◌≡◌};
ghost use Rattle.job_slots.specs.declared.limits.TheConstants.{MOST_SLOTS as MOST};

/// The most slots that a table may have. Which of them are free is kept in as many bits.
pub const MOST_SLOTS: usize = 128;

/// The limit in figures. All other definitions and clauses cite the constant.
pub fn limit_of_slots_in_figures()
    ensures { MOST ≡ 128 }
{}
