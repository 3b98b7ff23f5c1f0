ghost use Rattle.std.specs.Prelude.{◌≡◌};
ghost use Rattle.conversation_ids.specs.OwedMarks.{is_mark};

/// The marks by which an entry is found, or a part of them.
#[derive(Clone, Copy)]
pub struct EntryMarks {
    /// That of the id that stands first, where a member stands twice.
    pub first: Option<u128>,
    pub own: Option<u128>,
    /// That of null, where its answer may have that or is expected to.
    pub null: Option<u128>,
    /// Of a request whose cancel wasn't seen: that of the id that its answer is expected to have.
    pub request: Option<u128>,
}

impl EntryMarks {
    ghost use Rattle.std.specs.Prelude.{Some, None};

    /// That of a request alone.
    pub fn of_request(mark: u128) -> EntryMarks
        ensures { result ≡ record { first = None; own = None; null = None; request = Some mark } }
    {
        EntryMarks {
            first: None,
            own: None,
            null: None,
            request: Some(mark),
        }
    }
}

/// Whether it is this mark.
pub fn is_mark(own: Option<u128>, mark: u128) -> bool
    ensures { result ≡ is_mark own mark }
{
    match own {
        Some(own) => own == mark,
        None => false,
    }
}
