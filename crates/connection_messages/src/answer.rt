use json_texts::JsonText;
use json_values::Text;
use message_ids::Standard;

/// What a request is answered with (JSON-RPC 2.0, section 5).
#[derive(Debug, Drop)]
pub enum Answer {
    Result(JsonText),
    Error(AnswerError),
    /// One of the fixed errors, without data.
    Standard(Standard),
}

/// An error that goes out (JSON-RPC 2.0, section 5.1).
#[derive(Debug, Drop)]
pub struct AnswerError {
    pub code: i64,
    pub message: Text,
    pub data: Option<JsonText>,
}

impl Answer {
    ghost use Rattle.connection_messages.specs.ReadBack.{IsAnswer};

    /// That results and data are JSON texts, messages are UTF-8 and codes have 64 bits: a law, which does nothing.
    #[inline]
    pub fn is_answer(&self)
        ensures { IsAnswer self.now }
    {
        match self {
            Answer::Result(text) => text.is_json_text(),
            Answer::Error(error) => error.is_failure(),
            Answer::Standard(_) => {}
        }
    }
}

impl AnswerError {
    ghost use Rattle.connection_messages.specs.ReadBack.{IsFailure};

    #[inline]
    fn is_failure(&self)
        ensures { IsFailure self.now }
    {
        let _code = self.code;
        let _message = self.message.as_str().as_bytes();
        if let Some(data) = &self.data {
            data.is_json_text();
        }
    }
}
