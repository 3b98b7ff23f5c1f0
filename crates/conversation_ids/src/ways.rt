ghost use Rattle.std.specs.Prelude.{◌≡◌};
ghost use Rattle.conversation_ids.specs.Ways.{fits};

use crate::owed::Owed;
use conversation_reading::WrittenId;

/// In which way an entry fits an answer. The last four are those of an answer with the id null.
#[derive(Clone, Copy)]
pub enum Way {
    /// It must be answered, and with the id.
    Must,
    /// It is a request that is expected to have the id.
    Asks,
    /// It is expected to have the id.
    Expects,
    /// It may have the id.
    MayHave,
    /// It is a request with the id null.
    AsksWithNull,
    /// It is no request, and null is expected.
    ExpectsNull,
    /// And it has no id but null.
    Unnamed,
    /// Its answer may be null.
    MayBeNull,
}

impl Way {
    pub fn fits(self, id: &WrittenId, owed: &Owed) -> bool
        ensures { result ≡ fits self id.now owed.now }
    {
        match self {
            Way::Must => owed.is_due_for(id),
            Way::Asks => owed.is_request_for(id),
            Way::Expects => owed.is_expected(id),
            Way::MayHave => owed.may_have(id),
            Way::AsksWithNull => owed.is_null_request(),
            Way::ExpectsNull => owed.is_null_other(),
            Way::Unnamed => owed.is_unnamed(),
            Way::MayBeNull => owed.may_be_null(),
        }
    }
}
