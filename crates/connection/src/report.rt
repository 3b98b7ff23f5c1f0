ghost use Rattle.std.specs.Prelude.{◌≡◌, List};
ghost use Rattle.connection_history.specs.declared.event.Event.{Event};
ghost use Rattle.connection_history.specs.History.{History};

use crate::connection::Connection;

/// How often something has happened. Counts stay at their greatest once they have reached it.
#[derive(Clone, Copy, Debug, PartialEq, Eq)]
pub struct Report {
    /// Calls that came, requests and notifications.
    pub calls: u64,
    /// Those with an id.
    pub requests: u64,
    /// Calls that came and aren't answered.
    pub open: u64,
    /// Calls of ours that wait for a reply.
    pub waiting: u64,
    /// Calls of ours, each of a batch.
    pub own_calls: u64,
    /// Answers that have gone out, taken or not. That of a batch is one.
    pub answers_written: u64,
    /// Unreadable contents.
    pub unreadable: u64,
    /// Invalid entries.
    pub invalid: u64,
    /// Replies that weren't told, strays, and cancels that reached no request.
    pub ignored: u64,
}

impl Connection {
    ghost use Rattle.connection.specs.Connections.{StandsAfter};
    ghost use Rattle.connection.specs.Reports.{report_of};

    /// What has happened, in numbers.
    pub fn report(&self) -> Report
        ensures { (history : History) (told : List Event) →
            StandsAfter self.now history told →
            result ≡ report_of self.now.settings.order history }
    {
        let tally = self.desk.tally();
        Report {
            calls: self.desk.came(),
            requests: tally.requests,
            open: self.desk.open(),
            waiting: self.desk.waiting(),
            own_calls: self.desk.made(),
            answers_written: tally.answers,
            unreadable: tally.unreadable,
            invalid: tally.invalid,
            ignored: tally.ignored,
        }
    }
}
