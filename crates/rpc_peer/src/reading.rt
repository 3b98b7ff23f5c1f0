//! What a server's reader promises.

ghost use Rattle.std.specs.Prelude.{OnOk};
ghost use Rattle.rtrb.specs.Ring.{sent, SameProducer};
ghost use Rattle.rpc_peer.specs.Arriving.{EndsBy, Reads};

use crate::arrival::Arrival;
use crate::bells::Stopped;
use lsp_frames::Source;
use rtrb::Producer;
use std::snapshot::Snapshot;
use std::thread::Promise;

/// The ring comes back, and what was sent is what the source gives: up to an end, unless the reader has seen that the
/// server has stopped.
#[derive(Drop)]
pub(crate) struct Reading<S: Source> {
    pub(crate) source: Snapshot<S>,
    pub(crate) ring: Snapshot<Producer<Arrival>>,
}

impl<S: Source> Promise<(Producer<Arrival>, Result<(), Stopped>)> for Reading<S> {
    ghost kept_by = { λ promise read. SameProducer promise.ring.value read.0
        × Reads (S.gave promise.source.value) (sent read.0) × OnOk read.1 (EndsBy (sent read.0)) };
}
