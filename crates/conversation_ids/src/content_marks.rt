//! By which marks contents are found, whatever their entries are. No id has one of them.

ghost use Rattle.std.specs.Prelude.{◌≡◌};
ghost use Rattle.conversation_ids.specs.OwedMarks as marks;

/// That of contents that can't be read.
pub fn unreadable_mark() -> u128
    ensures { result ≡ marks.unreadable_mark }
{
    1
}

/// That of contents with a number beyond a float's range.
pub fn huge_mark() -> u128
    ensures { result ≡ marks.huge_mark }
{
    2
}

/// That of batches.
pub fn batch_mark() -> u128
    ensures { result ≡ marks.batch_mark }
{
    3
}
