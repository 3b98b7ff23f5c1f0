//! How far the room of a set goes.

ghost use Rattle.std.specs.Prelude.{◌≡◌};
ghost use Rattle.number_set.specs.declared.limits.TheConstants.{LARGEST_END as END};

/// The room of a set ends here at the latest: handlers have the numbers 0 to 1,000,000.
pub const LARGEST_END: u32 = 1_000_001;

/// The limit in figures. All other definitions and clauses cite the constant.
pub fn limit_of_sets_in_figures()
    ensures { END ≡ 1000001 }
{}
