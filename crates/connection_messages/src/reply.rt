use json_values::Text;

/// What the other side replied to a call of ours (JSON-RPC 2.0, section 5).
#[derive(Debug, Drop)]
pub enum Reply {
    /// The compact text of the result.
    Result(Text),
    Error(ReplyError),
}

/// An error that came (JSON-RPC 2.0, section 5.1).
#[derive(Debug, Drop)]
pub struct ReplyError {
    pub code: i64,
    pub message: Text,
    /// The compact text of the member `data`, where it was given.
    pub data: Option<Text>,
}
