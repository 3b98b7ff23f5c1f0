use program_edge::Failure;

/// What a write to standard output came to: `Write` where it failed.
pub fn written(outcome: std::io::Result<()>) -> Result<(), Failure> {
    outcome.or(Err(Failure::Write))
}
