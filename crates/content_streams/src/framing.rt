/// How contents follow one another in a stream.
#[derive(Clone, Copy, Debug, PartialEq, Eq)]
pub enum Framing {
    /// Each has a head with its `Content-Length` (LSP 3.17, "Base Protocol").
    Frames,
    /// Each is a line, as on the standard streams of MCP.
    Lines,
    /// Each comes by itself, as from a transport that keeps messages apart.
    Contents,
}
