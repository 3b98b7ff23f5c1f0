ghost use Rattle.std.specs.Prelude.{◌≡◌, List};
ghost use Rattle.connection_history.specs.declared.event.Event.{Event};
ghost use Rattle.connection_history.specs.History.{History};
ghost use Rattle.connection.specs.Connections.{StandsAfter};
ghost use Rattle.connection.specs.Reports.{report_of};
ghost use Rattle.bullmyrtle.specs.Counts.{as_c};

use connection::Connection;

/// What has happened so far, as C has it.
#[repr(C)]
#[derive(Clone, Copy)]
pub struct Report {
    pub calls: u64,
    pub requests: u64,
    pub open: u64,
    pub waiting: u64,
    pub own_calls: u64,
    pub answers_written: u64,
    pub unreadable: u64,
    pub invalid: u64,
    pub ignored: u64,
}

impl Report {
    pub(crate) fn of(connection: &Connection) -> Report
        ensures { (history : History) (told : List Event) → StandsAfter connection.now history told →
            result ≡ as_c (report_of connection.now.settings.order history) }
    {
        let report = connection.report();
        Report {
            calls: report.calls,
            requests: report.requests,
            open: report.open,
            waiting: report.waiting,
            own_calls: report.own_calls,
            answers_written: report.answers_written,
            unreadable: report.unreadable,
            invalid: report.invalid,
            ignored: report.ignored,
        }
    }
}
