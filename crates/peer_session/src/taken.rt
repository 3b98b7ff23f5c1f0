/// What became of a content.
#[derive(Clone, Copy, Debug, PartialEq, Eq)]
pub enum Taken {
    /// It was taken whole.
    Taken,
    /// It needs more numbers than the limits leave. Nothing of it was taken, and the input is over.
    Full,
}
