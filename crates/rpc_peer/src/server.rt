//! The server: a peer of several threads.

ghost use Rattle.std.specs.Prelude.{◌≡◌, ◌≢◌, ◌↔◌, ℕ, ◌<◌, ◌≤◌, All, length, IsTrue, IfOk, IfErr};
ghost use Rattle.job_slots.specs.Seats.{IsClerkOf, IsWorkerOf, looks_of};
ghost use Rattle.method_steps.specs.Steps.{MethodTable};
ghost use Rattle.peer_session.specs.HandedOn.{HasHandedOn};
ghost use Rattle.peer_session.specs.declared.limits.Limits.{Limits as LimitsOf};
ghost use Rattle.rtrb.specs.Ring.{sent, IsPair};
ghost use Rattle.rpc_peer.specs.Arriving.{Reads};
ghost use Rattle.rpc_peer.specs.declared.server.TheConstants.{MOST_WORKERS};
ghost use Rattle.rpc_peer.specs.declared.fault.ServeFault.TheVariants.{Workers, Write};
ghost use Rattle.rpc_peer.specs.Inner.Threads.{HasServed};
ghost use Rattle.stream_framing.specs.declared.framing.Framing.{Framing as FramingOf};
ghost use Rattle.stream_framing.specs.declared.framing.Framing.TheVariants.{Lines};
ghost use Rattle.stream_session.specs.Framings.{IsServedIn, IsServedInPartIn};
ghost use Rattle.stream_session.specs.Promise.{IsServed, IsServedInPart};
ghost use Rattle.rpc_peer.specs.Serve.{CountsServeFault, IsServing, end_of, end_of_run};

use crate::arrival::Arrival;
use crate::bells::Bells;
use crate::clerk::{Clerk, Served};
use crate::crew::Crew;
use crate::end_hook::{EndHook, NoHook};
use crate::fault::ServeFault;
use crate::gate::{Gate, OpenGate};
use crate::law::{nothing_is_served_in_part, served_in_frames_is_served, what_arrives_was_given};
use crate::threads::run_threads;
use job_slots::{ClerkSeat, JobSlots, MOST_SLOTS, Turns, WorkerSeat};
use lsp_frames::{Sink, Source};
use method_steps::Table;
use peer_session::{DrainFault, Limits, Report};
use rtrb::{Producer, RingBuffer};
use std::alloc::{AllocError, Global};
use std::sync::{Arc, Wait};
use std::thread::Threads;
use stream_framing::Framing;

/// The most workers that a server may have.
pub const MOST_WORKERS: u32 = 64;

/// The limit in figures. All other definitions and clauses cite the constant.
pub fn limit_of_workers_in_figures()
    ensures { MOST_WORKERS ≡ 64 }
{}

/// So many pieces of the input may wait for the clerk.
const PIECES: usize = 64;

/// Serves an input to its end, with gates that are open.
pub fn serve<S, K, R>(
    rt: &R,
    alloc: Global,
    table: &Table,
    limits: Limits,
    workers: u32,
    source: S,
    sink: K,
) -> Result<(Report, K), (ServeFault, K)>
where
    S: Source + Drop + Send,
    K: Sink + Drop,
    R: Threads + Wait + Sync,
    ensures { IsServing K.handed_on K.bytes_taken K.failures (IsServed table.now limits (S.gave source))
        (IsServedInPart table.now limits (S.gave source)) workers sink result }
{
    served_in_frames_is_served::<S>();
    serve_telling(
        rt,
        alloc,
        Framing::Frames,
        table,
        limits,
        workers,
        &NoHook,
        source,
        sink,
    )
}

/// Serves an input to its end: reads the source, runs the methods of the table by `workers` threads, and writes to the
/// sink. Each job passes the gate before its turn.
pub fn serve_with<S, K, G, R>(
    rt: &R,
    alloc: Global,
    table: &Table,
    limits: Limits,
    workers: u32,
    gate: Arc<G, Global>,
    source: S,
    sink: K,
) -> Result<(Report, K), (ServeFault, K)>
where
    S: Source + Drop + Send,
    K: Sink + Drop,
    G: Gate + Send + Sync,
    R: Threads + Wait + Sync,
    ensures { IsServing K.handed_on K.bytes_taken K.failures (IsServed table.now limits (S.gave source))
        (IsServedInPart table.now limits (S.gave source)) workers sink result }
{
    serve_by(
        rt,
        alloc,
        table,
        limits,
        Crew::of(workers),
        gate,
        source,
        sink,
    )
}

/// The same by a crew that is chosen.
pub fn serve_by<S, K, G, R>(
    rt: &R,
    alloc: Global,
    table: &Table,
    limits: Limits,
    crew: Crew,
    gate: Arc<G, Global>,
    source: S,
    sink: K,
) -> Result<(Report, K), (ServeFault, K)>
where
    S: Source + Drop + Send,
    K: Sink + Drop,
    G: Gate + Send + Sync,
    R: Threads + Wait + Sync,
    ensures { IsServing K.handed_on K.bytes_taken K.failures (IsServed table.now limits (S.gave source))
        (IsServedInPart table.now limits (S.gave source)) crew.workers sink result }
{
    served_in_frames_is_served::<S>();
    serve_in(
        rt,
        alloc,
        Framing::Frames,
        table,
        limits,
        crew,
        gate,
        &NoHook,
        source,
        sink,
    )
}

/// Serves an input of whole lines to its end, with gates that are open: each line is a content, and each text that is
/// written is a line. Only an LF ends a line, a CR belongs to it, and a line without a byte is passed over. Where the source
/// has no more, its last line needs no LF.
pub fn serve_lines<S, K, R>(
    rt: &R,
    alloc: Global,
    table: &Table,
    limits: Limits,
    workers: u32,
    source: S,
    sink: K,
) -> Result<(Report, K), (ServeFault, K)>
where
    S: Source + Drop + Send,
    K: Sink + Drop,
    R: Threads + Wait + Sync,
    ensures { IsServing K.handed_on K.bytes_taken K.failures (IsServedIn Lines table.now limits (S.gave source))
        (IsServedInPartIn Lines table.now limits (S.gave source)) workers sink result }
{
    serve_telling(
        rt,
        alloc,
        Framing::Lines,
        table,
        limits,
        workers,
        &NoHook,
        source,
        sink,
    )
}

/// Serves an input in a framing, with gates that are open, and tells a hook how that ended: once, as soon as all that is due is
/// flushed, or can't be. It may return much later, since its reader's read has to come back.
pub fn serve_telling<S, K, H, R>(
    rt: &R,
    alloc: Global,
    framing: Framing,
    table: &Table,
    limits: Limits,
    workers: u32,
    hook: &H,
    source: S,
    sink: K,
) -> Result<(Report, K), (ServeFault, K)>
where
    S: Source + Drop + Send,
    K: Sink + Drop,
    H: EndHook,
    R: Threads + Wait + Sync,
    ensures serving { IsServing K.handed_on K.bytes_taken K.failures (IsServedIn framing table.now limits (S.gave source))
        (IsServedInPartIn framing table.now limits (S.gave source)) workers sink result }
    ensures told { H.was_told hook.now (end_of result) }
{
    nothing_is_served_in_part::<S>();
    if !is_possible(workers) {
        hook.ended(Err(ServeFault::Workers));
        return Err((ServeFault::Workers, sink));
    }
    let Ok(gate) = Arc::new(alloc, OpenGate) else {
        hook.ended(Err(ServeFault::Memory));
        return Err((ServeFault::Memory, sink));
    };
    serve_in(
        rt,
        alloc,
        framing,
        table,
        limits,
        Crew::of(workers),
        gate,
        hook,
        source,
        sink,
    )
}

/// Serves an input in a framing.
fn serve_in<S, K, G, H, R>(
    rt: &R,
    alloc: Global,
    framing: Framing,
    table: &Table,
    limits: Limits,
    crew: Crew,
    gate: Arc<G, Global>,
    hook: &H,
    source: S,
    sink: K,
) -> Result<(Report, K), (ServeFault, K)>
where
    S: Source + Drop + Send,
    K: Sink + Drop,
    G: Gate + Send + Sync,
    H: EndHook,
    R: Threads + Wait + Sync,
    ensures serving { IsServing K.handed_on K.bytes_taken K.failures (IsServedIn framing table.now limits (S.gave source))
        (IsServedInPartIn framing table.now limits (S.gave source)) crew.workers sink result }
    ensures told { H.was_told hook.now (end_of result) }
{
    nothing_is_served_in_part::<S>();
    if !is_possible(crew.workers) {
        hook.ended(Err(ServeFault::Workers));
        return Err((ServeFault::Workers, sink));
    }
    match run_crew(
        rt, alloc, framing, table, limits, crew, gate, hook, source, sink,
    ) {
        Ok((served, ring)) => tell::<S, K>(served, ring),
        Err(sink) => {
            hook.ended(Err(ServeFault::Memory));
            Err((ServeFault::Memory, sink))
        }
    }
}

/// Makes what the threads of a server share, and runs them. Where there is no memory for it, the sink comes back as it
/// was, and the hook isn't told.
fn run_crew<S, K, G, H, R>(
    rt: &R,
    alloc: Global,
    framing: Framing,
    table: &Table,
    limits: Limits,
    crew: Crew,
    gate: Arc<G, Global>,
    hook: &H,
    source: S,
    sink: K,
) -> Result<(Served<K>, Producer<Arrival>), K>
where
    S: Source + Drop + Send,
    K: Sink + Drop,
    G: Gate + Send + Sync,
    H: EndHook,
    R: Threads + Wait + Sync,
    ensures served { IfOk result (λ done. HasServed K.handed_on K.bytes_taken K.failures framing table.now
        limits sink done.0) }
    ensures pair { IfOk result (λ done. IsPair done.1 done.0.ring) }
    ensures reads { IfOk result (λ done. Reads (S.gave source) (sent done.1)) }
    ensures told { IfOk result (λ done. H.was_told hook.now (end_of_run done.0.outcome)) }
    ensures refused { IfErr result (λ back. back ≡ sink) }
{
    let Ok((producer, consumer)) = RingBuffer::new(alloc, PIECES) else {
        return Err(sink);
    };
    let Ok((slots, mut seat)) = JobSlots::make(alloc, MOST_SLOTS as u32) else {
        return Err(sink);
    };
    let Ok(seats) = split_seats(alloc, &slots, &mut seat, crew.workers) else {
        return Err(sink);
    };
    let bells = Bells::new(crew.workers);
    let clerk = match Clerk::new(
        alloc,
        framing,
        table,
        limits,
        gate,
        consumer,
        &slots,
        seat,
        &bells,
        crew.yields,
        sink,
    ) {
        Ok(clerk) => clerk,
        Err(sink) => return Err(sink),
    };
    run_threads(
        rt,
        alloc,
        &slots,
        &bells,
        crew.yields,
        seats,
        clerk,
        hook,
        producer,
        source,
    )
}

fn is_possible(workers: u32) -> bool
    ensures { IsTrue result ↔ ((0 < workers) × (workers ≤ MOST_WORKERS)) }
{
    0 < workers && workers <= MOST_WORKERS
}

/// A seat for each worker.
fn split_seats<J: Turns>(
    alloc: Global,
    slots: &JobSlots<J>,
    clerk: &mut ClerkSeat<J>,
    workers: u32,
) -> Result<Vec<WorkerSeat<J>>, AllocError>
    requires { IsClerkOf slots.now clerk.old }
    ensures table { IsClerkOf slots.now clerk.new }
    ensures looks { looks_of clerk.new ≡ looks_of clerk.old }
    ensures seats { IfOk result (λ seats. All (IsWorkerOf slots.now) seats.items) }
    ensures many { IfOk result (λ seats. length seats.items ≡ workers) }
{
    let mut seats = Vec::new(alloc);
    for _ in 0..workers {
        let Ok(seat) = slots.split(clerk) else {
            return Err(AllocError);
        };
        seats.push(seat)?;
    }
    Ok(seats)
}

/// What a server tells, once both ends of its ring are in one thread again.
fn tell<S: Source, K: Sink>(
    served: Served<K>,
    producer: Producer<Arrival>,
) -> Result<(Report, K), (ServeFault, K)>
    requires { IsPair producer served.ring }
    ensures ok { (framing : FramingOf) (table : MethodTable) (limits : LimitsOf) (source : S)
        (sink : K) → Reads (S.gave source) (sent producer) →
        HasServed K.handed_on K.bytes_taken K.failures framing table limits sink served →
        IfOk result (λ done. IsServedIn framing table limits (S.gave source)
        (K.bytes_taken sink) (K.bytes_taken done.1) done.0) }
    ensures in_part { (framing : FramingOf) (table : MethodTable) (limits : LimitsOf) (source : S)
        (sink : K) → Reads (S.gave source) (sent producer) →
        HasServed K.handed_on K.bytes_taken K.failures framing table limits sink served →
        IfErr result (λ failed. IsServedInPartIn framing table limits (S.gave source)
        (K.bytes_taken sink) (K.bytes_taken failed.1)) }
    ensures possible { IfErr result (λ failed. failed.0 ≢ Workers) }
    ensures failures { (framing : FramingOf) (table : MethodTable) (limits : LimitsOf) (sink : K) →
        HasServed K.handed_on K.bytes_taken K.failures framing table limits sink served →
        IfOk result (λ done. K.failures done.1 ≡ K.failures sink) }
    ensures cause { (framing : FramingOf) (table : MethodTable) (limits : LimitsOf) (sink : K) →
        HasServed K.handed_on K.bytes_taken K.failures framing table limits sink served →
        IfErr result (λ failed. CountsServeFault (K.failures sink) failed.0
        (K.failures failed.1)) }
    ensures flushed { (framing : FramingOf) (table : MethodTable) (limits : LimitsOf) (sink : K) →
        HasServed K.handed_on K.bytes_taken K.failures framing table limits sink served →
        IfOk result (λ done. HasHandedOn K.handed_on K.bytes_taken sink done.1) }
    ensures flushed_until { (framing : FramingOf) (table : MethodTable) (limits : LimitsOf)
        (sink : K) →
        HasServed K.handed_on K.bytes_taken K.failures framing table limits sink served →
        IfErr result (λ failed. failed.0 ≢ Write →
        HasHandedOn K.handed_on K.bytes_taken sink failed.1) }
    ensures end { end_of result ≡ end_of_run served.outcome }
{
    what_arrives_was_given::<S>();
    let Served {
        outcome,
        mut ring,
        sink,
    } = served;
    let mut producer = producer;
    // (Asked for its clause alone: what came out of the ring is a front of what went in. The kit says that of a pair of
    // ends in this call and in no other.)
    ring.slots_beside(&mut producer);
    match outcome {
        Ok(report) => Ok((report, sink)),
        Err(DrainFault::Memory) => Err((ServeFault::Memory, sink)),
        Err(DrainFault::Write) => Err((ServeFault::Write, sink)),
    }
}
