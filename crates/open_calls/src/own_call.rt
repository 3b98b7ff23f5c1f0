/// A call of ours that waits for its reply.
#[derive(Clone, Copy)]
pub struct OwnCall {
    /// The number of the open call on whose behalf it was made. 0 is the host itself.
    pub caller: u64,
    /// It isn't wanted any more, and still waits for its reply, as by LSP's cancel.
    pub is_withdrawn: bool,
}
