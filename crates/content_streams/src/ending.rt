use lsp_frames::FrameFault;

/// How the host says that the input ended.
#[derive(Clone, Copy, Debug, PartialEq, Eq)]
pub enum HowEnded {
    /// It was closed.
    Closed,
    /// A read failed.
    ReadFailed,
}

/// How a stream of contents ended.
#[derive(Clone, Copy, Debug, PartialEq, Eq)]
pub enum StreamEnd {
    /// It was closed between two contents.
    Clean,
    /// It has a fault, or was closed inside a frame.
    Fault(FrameFault),
    /// A read failed.
    ReadFailed,
}
