//! Who is told how a server ended.

ghost use Rattle.std.specs.Prelude.{◌≡◌, Result, ⊤};
ghost use Rattle.peer_session.specs.declared.report.Close.{Close as CloseOf};
ghost use Rattle.rpc_peer.specs.Serve.{end_of_run};
ghost use Rattle.rpc_peer.specs.declared.fault.ServeFault.{ServeFault as ServeFaultOf};

use crate::fault::ServeFault;
use peer_session::{Close, DrainFault, Report};

/// Is told how a server ended once all that it wrote is flushed, or can't be. The server may still wait for its reader's
/// read then, for as long as its input is open and gives nothing.
pub trait EndHook {
    /// It was told this. A hook that doesn't define it says nothing of it.
    ghost was_told: { Self → Result CloseOf ServeFaultOf → Type 0 } = { λ _ _. ⊤ };

    /// The server ended so, and will answer so.
    fn ended(&self, end: Result<Close, ServeFault>)
        ensures { was_told self.now end };
}

/// Tells nobody.
#[derive(Clone, Copy, Debug, Drop)]
pub struct NoHook;

impl EndHook for NoHook {
    fn ended(&self, _end: Result<Close, ServeFault>) {}
}

/// How a clerk's run ended, as a server tells it.
pub(crate) fn end_of_run(outcome: &Result<Report, DrainFault>) -> Result<Close, ServeFault>
    ensures { result ≡ end_of_run outcome.now }
{
    match outcome {
        Ok(report) => Ok(report.end),
        Err(DrainFault::Memory) => Err(ServeFault::Memory),
        Err(DrainFault::Write) => Err(ServeFault::Write),
    }
}
