ghost use Rattle.std.specs.Prelude.{◌≡◌};
ghost use Rattle.conversation_contents.specs.Entries.{IsTold};

use conversation_ids::{EntryMarks, Owed};
use conversation_rules::Fit;

/// What is told of an entry that was taken off, and the marks by which it was found.
#[derive(Clone, Copy)]
pub(crate) struct Taken {
    pub(crate) is_request: bool,
    pub(crate) is_cancelled: bool,
    pub(crate) marks: EntryMarks,
}

impl Taken {
    pub(crate) fn of(owed: &Owed) -> Taken
        ensures { IsTold owed.now result }
    {
        Taken {
            is_request: owed.is_request(),
            is_cancelled: owed.is_cancelled(),
            marks: owed.marks(),
        }
    }

    pub(crate) fn fit(&self, in_batch: bool) -> Fit
        ensures { result ≡ record {
          in_batch = in_batch;
          is_request = self.now.is_request;
          is_cancelled = self.now.is_cancelled;
        } }
    {
        Fit {
            in_batch,
            is_request: self.is_request,
            is_cancelled: self.is_cancelled,
        }
    }
}

/// What is told of an entry that was taken off a content, the marks by which it was found, and whether it was the last.
#[derive(Clone, Copy)]
pub struct Settled {
    pub fit: Fit,
    pub marks: EntryMarks,
    pub is_last: bool,
}
