/// How contents follow one another in a stream.
#[derive(Clone, Copy, Debug, PartialEq, Eq)]
pub enum Framing {
    /// Each has a head with its `Content-Length` (LSP 3.17, "Base Protocol").
    Frames,
    /// Each is a whole line: only an LF ends it, a CR belongs to it, and a line without a byte is passed over.
    Lines,
}
