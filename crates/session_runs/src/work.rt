//! What is to be done for a call.

ghost use Rattle.std.specs.Prelude.{◌≡◌};
ghost use Rattle.peer_output.specs.Work.{call_work};
ghost use Rattle.session_runs.specs.Arriving.{work_seen, MayRun};

use method_steps::Table;
use rpc_messages::{Call, Params, Standard};

/// Work that a call asks for.
#[derive(Clone, Copy)]
pub enum Work {
    /// This error is its answer.
    Fault(Standard),
    /// A handler runs the method at this place of the table.
    Run(u32),
}

/// Methods that begin with `$/` are the protocol's own, and no table has them (LSP 3.17, "$
/// Notifications and Requests").
pub(crate) fn work_of(table: &Table, call: &Call) -> Work
    ensures work { work_seen table.now call.now result ≡ call_work table.now call.now }
    ensures runs { MayRun table.now call.now result }
{
    let name = call.method.as_str();
    if name.as_bytes().starts_with(b"$/") {
        return Work::Fault(Standard::MethodNotFound);
    }
    match table.find(name) {
        None => Work::Fault(Standard::MethodNotFound),
        Some(method) => match &call.params {
            Params::Fractional => Work::Fault(Standard::InvalidParams),
            Params::Omitted | Params::Whole(_) => Work::Run(method),
        },
    }
}
