/// Among which contents something is looked for.
#[derive(Clone, Copy)]
pub enum Among {
    /// Those that are no batches.
    Singles,
    Batches,
    All,
}
