use lsp_frames::FrameFault;

/// How the input came to its end.
#[derive(Clone, Copy, Debug, PartialEq, Eq)]
pub enum Close {
    /// It was closed between two contents.
    Clean,
    /// A frame was at fault, or the input was closed inside one.
    Fault(FrameFault),
    /// A read failed.
    ReadFailed,
    /// A content would have brought more calls than the connection takes.
    Full,
}
