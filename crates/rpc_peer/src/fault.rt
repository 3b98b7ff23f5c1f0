//! Why a server gave up.

/// Why an input wasn't served to its end.
#[derive(Clone, Copy, Debug, PartialEq, Eq)]
pub enum ServeFault {
    /// No such number of workers is possible. Nothing was read or written.
    Workers,
    /// There was no memory, or no thread could be made.
    Memory,
    /// The sink failed.
    Write,
}
