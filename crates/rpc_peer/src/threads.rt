//! The threads of a server.

ghost use Rattle.std.specs.Prelude.{◌≡◌, [], All, length, IfOk, IfErr, IfSome, OnOk};
ghost use Rattle.job_slots.specs.Seats.{IsWorkerOf};
ghost use Rattle.rtrb.specs.Ring.{sent, SameProducer, SameConsumer};
ghost use Rattle.rpc_peer.specs.Clerk.{IsNew, clerk_framing, clerk_table, clerk_limits};
ghost use Rattle.rpc_peer.specs.Arriving.{EndsBy, Reads};
ghost use Rattle.rpc_peer.specs.Inner.Threads.{HasServed};
ghost use Rattle.rpc_peer.specs.Serve.{end_of_run};

use crate::arrival::Arrival;
use crate::bells::{Bells, Stopped};
use crate::clerk::{Clerk, Served};
use crate::end_hook::{EndHook, end_of_run};
use crate::gate::Gate;
use crate::gated::Gated;
use crate::reader::read_into;
use crate::reading::Reading;
use crate::worker::work;
use job_slots::{JobSlots, Turns, WorkerSeat};
use lsp_frames::{Sink, Source};
use rtrb::Producer;
use std::alloc::Global;
use std::snapshot::Snapshot;
use std::sync::Wait;
use std::thread;
use std::thread::{JoinHandle, PromisedHandle, Scope, Threads};

/// Starts a worker for each seat, and gives their handles: each worker ends by showing that it has seen the server stopped.
/// It gives None where there is no memory for these, or where a worker can't be started.
fn hire<'s, E, J, R>(
    scope: &'s Scope<'s, E>,
    rt: &'s R,
    alloc: Global,
    slots: &'s JobSlots<J>,
    bells: &'s Bells,
    yields: u32,
    seats: Vec<WorkerSeat<J>>,
) -> Option<Vec<JoinHandle<Stopped>>>
where
    J: Turns + Send + 's,
    R: Wait + Sync,
    requires { All (IsWorkerOf slots.now) seats.items }
    ensures { IfSome result (λ workers. length workers.items ≡ length seats.items) }
{
    let mut workers = Vec::with_capacity(alloc, seats.len()).ok()?;
    for seat in seats {
        let turns = move || -> Stopped
            requires { IsWorkerOf slots.now seat }
        { work(rt, slots, seat, bells, yields) };
        workers.push(scope.spawn(turns).ok()?).ok()?;
    }
    Some(workers)
}

/// Starts the reader.
fn begin_reading<'s, E, S, R>(
    scope: &'s Scope<'s, E>,
    rt: &'s R,
    alloc: Global,
    source: S,
    ring: Producer<Arrival>,
    bells: &'s Bells,
    yields: u32,
) -> Option<PromisedHandle<(Producer<Arrival>, Result<(), Stopped>), Reading<S>>>
where
    S: Source + Drop + Send + 's,
    R: Wait + Sync,
    requires { sent ring ≡ [] }
    ensures { IfSome result (λ reader.
        (reader.promise.source.value ≡ source) × (reader.promise.ring.value ≡ ring)) }
{
    let promise = Reading {
        source: Snapshot::of(&source),
        ring: Snapshot::of(&ring),
    };
    let reads = move || -> (Producer<Arrival>, Result<(), Stopped>)
        requires { sent ring ≡ [] }
        ensures { SameProducer ring result.0 × Reads (S.gave source) (sent result.0)
            × OnOk result.1 (EndsBy (sent result.0)) }
    {
        let mut ring = ring;
        let read = read_into(rt, alloc, source, &mut ring, bells, yields);
        (ring, read)
    };
    scope.spawn_with(promise, reads).ok()
}

/// Runs the clerk in this thread, with the reader and the workers in threads of their own. The hook is told how the clerk's
/// run ended before the reader is waited for, which may take as long as the input is open. Where a thread can't be made, the
/// sink comes back as it was, and the hook isn't told.
pub(crate) fn run_threads<'a, S, G, K, H, R>(
    rt: &R,
    alloc: Global,
    slots: &JobSlots<Gated<G>>,
    bells: &Bells,
    yields: u32,
    seats: Vec<WorkerSeat<Gated<G>>>,
    clerk: Clerk<'a, G, K>,
    hook: &H,
    ring: Producer<Arrival>,
    source: S,
) -> Result<(Served<K>, Producer<Arrival>), K>
where
    S: Source + Drop + Send,
    G: Gate + Send + Sync,
    K: Sink + Drop,
    H: EndHook,
    R: Threads + Wait + Sync,
    requires seats { All (IsWorkerOf slots.now) seats.items }
    requires crew { length seats.items ≡ bells.now.crew }
    requires clerk { IsNew clerk }
    requires patience { clerk.yields ≡ yields }
    requires ring { sent ring ≡ [] }
    ensures served { IfOk result (λ done. HasServed K.handed_on K.bytes_taken K.failures
        (clerk_framing clerk.entry) (clerk_table clerk.entry) (clerk_limits clerk.entry)
        clerk.entry.sink done.0) }
    ensures consumer { IfOk result (λ done. SameConsumer clerk.entry.ring done.0.ring) }
    ensures producer { IfOk result (λ done. SameProducer ring done.1) }
    ensures reads { IfOk result (λ done. Reads (S.gave source) (sent done.1)) }
    ensures told { IfOk result (λ done. H.was_told hook.now (end_of_run done.0.outcome)) }
    ensures refused { IfErr result (λ sink. sink ≡ clerk.entry.sink) }
{
    thread::scope(
        thread::scope_env(),
        rt,
        move |scope| -> Result<(Served<K>, Producer<Arrival>), K>
            requires seats { All (IsWorkerOf slots.now) seats.items }
            requires clerk { IsNew clerk }
            requires ring { sent ring ≡ [] }
            ensures served { IfOk result (λ done. HasServed K.handed_on K.bytes_taken K.failures
                (clerk_framing clerk.entry) (clerk_table clerk.entry) (clerk_limits clerk.entry)
                clerk.entry.sink done.0) }
            ensures consumer { IfOk result (λ done. SameConsumer clerk.entry.ring done.0.ring) }
            ensures producer { IfOk result (λ done. SameProducer ring done.1) }
            ensures reads { IfOk result (λ done. Reads (S.gave source) (sent done.1)) }
            ensures told { IfOk result (λ done. H.was_told hook.entry.now (end_of_run done.0.outcome)) }
            ensures refused { IfErr result (λ sink. sink ≡ clerk.entry.sink) }
        {
            let Some(_workers) = hire(scope, rt, alloc, slots, bells, yields, seats) else {
                bells.stop();
                return Err(clerk.into_sink());
            };
            let Some(reader) = begin_reading(scope, rt, alloc, source, ring, bells, yields) else {
                bells.stop();
                return Err(clerk.into_sink());
            };
            let served = clerk.run(rt);
            hook.ended(end_of_run(&served.outcome));
            bells.stop();
            let (ring, _) = reader.join(rt);
            Ok((served, ring))
        },
    )
}
