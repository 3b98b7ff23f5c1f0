/// How bad a finding is.
#[derive(Debug, Clone, Copy, PartialEq, Eq)]
pub enum Level {
    /// The standard forbids it.
    Must,
    /// The standard advises against it.
    Should,
    /// It is allowed, but worth a look; or it can't be known who is wrong.
    Note,
}
