ghost use Rattle.std.specs.Prelude.{◌≡◌, ◌+◌};
ghost use Rattle.connection_history.specs.Counts.{capped};
ghost use Rattle.connection_desk.specs.Desks.{with_answers};
ghost use Rattle.connection_desk.specs.Inner.{with_call, with_ignored};

use message_ids::Id;

/// How often some things have happened. Counts stay at their greatest once they have reached it.
#[derive(Clone, Copy)]
pub struct Tally {
    /// Requests that came.
    pub requests: u64,
    /// Answers that have gone out.
    pub answers: u64,
    /// Unreadable contents.
    pub unreadable: u64,
    /// Invalid entries.
    pub invalid: u64,
    /// Replies that weren't told, strays, and cancels that reached no request.
    pub ignored: u64,
}

impl Tally {
    pub const NONE: Tally = Tally {
        requests: 0,
        answers: 0,
        unreadable: 0,
        invalid: 0,
        ignored: 0,
    };

    /// One more call came, with this id or none.
    pub(crate) fn add_call(&mut self, id: &Option<Id>)
        ensures { self.new ≡ with_call id.now self.old }
    {
        if id.is_some() {
            self.requests = self.requests.saturating_add(1);
        }
    }

    /// So many more answers went out.
    pub(crate) fn add_answers(&mut self, count: u64)
        ensures { self.new ≡ with_answers count self.old }
    {
        self.answers = self.answers.saturating_add(count);
    }

    /// One more content was unreadable.
    pub(crate) fn add_unreadable(&mut self)
        ensures { self.new ≡ record self.old { unreadable = capped (self.old.unreadable + 1) } }
    {
        self.unreadable = self.unreadable.saturating_add(1);
    }

    /// One more entry was invalid.
    pub(crate) fn add_invalid(&mut self)
        ensures { self.new ≡ record self.old { invalid = capped (self.old.invalid + 1) } }
    {
        self.invalid = self.invalid.saturating_add(1);
    }

    /// One more entry was ignored.
    pub(crate) fn add_ignored(&mut self)
        ensures { self.new ≡ with_ignored self.old }
    {
        self.ignored = self.ignored.saturating_add(1);
    }
}
