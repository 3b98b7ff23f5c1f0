//! The clerk: the owner of the session of a server.

ghost use Rattle.std.specs.Prelude.{◌≤◌, IfOk, count_by, vec_len, vec_capacity};
ghost use Rattle.job_slots.specs.declared.limits.TheConstants.{MOST_SLOTS};
ghost use Rattle.job_slots.specs.Looks.{is_free};
ghost use Rattle.job_slots.specs.Seats.{IsClerkOf, looks_of};
ghost use Rattle.rpc_peer.specs.Handles.{AreHandlesOf};

use crate::arrival::Arrival;
use crate::bells::Bells;
use crate::gate::Gate;
use crate::gated::Gated;
use job_slots::{ClerkSeat, JobSlots, MOST_SLOTS};
use lsp_frames::Sink;
use method_steps::Table;
use peer_session::{DrainFault, Limits, Report};
use rtrb::Consumer;
use std::alloc::{AllocError, Global};
use std::sync::{Arc, Wait};
use stream_framing::Framing;
use stream_session::StreamSession;

/// The owner of the session of a server.
#[derive(Drop)]
pub struct Clerk<'a, G: Gate, K> {
    /// The session, and what of its input waits.
    pub(crate) stream: StreamSession<'a>,
    /// One for each slot that is free, so that a hand-out takes no memory.
    pub(crate) gates: Vec<Arc<G, Global>>,
    /// What its reader sends comes out here.
    pub(crate) ring: Consumer<Arrival>,
    /// Jobs go out to the workers through these, and come home.
    pub(crate) slots: &'a JobSlots<Gated<G>>,
    /// The right to do so.
    pub(crate) seat: ClerkSeat<Gated<G>>,
    /// What wakes it, its reader and its workers.
    pub(crate) bells: &'a Bells,
    /// How often it looks again before it sleeps.
    pub(crate) yields: u32,
    /// What is due is written to it.
    pub(crate) sink: K,
    // The seat is that of these slots, as each call of theirs requires.
    ghost seated: { IsClerkOf slots.now seat },
    // A job that goes out finds a handle: at least one is there for each slot that is free. And none is let go for want of
    // memory: there is room for one for each slot.
    ghost gated: { (count_by is_free (looks_of seat) ≤ vec_len gates)
        × (MOST_SLOTS ≤ vec_capacity gates) },
}

/// What is left of a clerk that has served.
#[derive(Drop)]
pub struct Served<K> {
    /// The report where all was done; else why not all was written.
    pub outcome: Result<Report, DrainFault>,
    pub ring: Consumer<Arrival>,
    pub sink: K,
}

impl<'a, G: Gate, K: Sink> Clerk<'a, G, K> {
    ghost use Rattle.std.specs.Prelude.{◌≡◌, [], replicate, IfErr, OnErr};
    ghost use Rattle.rtrb.specs.Ring.{received, SameConsumer};
    ghost use Rattle.job_slots.specs.declared.view.Look.TheVariants.{Free};
    ghost use Rattle.peer_session.specs.HandedOn.{HandsOn};
    ghost use Rattle.rpc_peer.specs.Arriving.{bytes_of, ending_of};
    ghost use Rattle.stream_session.specs.Framings.{IsRunIn, IsShortIn};
    ghost use Rattle.rpc_peer.specs.Clerk.{CountsRun, IsNew, clerk_framing, clerk_table, clerk_limits};
    ghost use Rattle.job_slots.specs.Seats.{slot_count};

    /// A clerk before the first event. Nothing has come through its ring yet, and no job is out.
    ///
    /// # Errors
    /// Where there is no memory. The sink comes back as it was.
    pub fn new(
        alloc: Global,
        framing: Framing,
        table: &'a Table,
        limits: Limits,
        gate: Arc<G, Global>,
        ring: Consumer<Arrival>,
        slots: &'a JobSlots<Gated<G>>,
        seat: ClerkSeat<Gated<G>>,
        bells: &'a Bells,
        yields: u32,
        sink: K,
    ) -> Result<Clerk<'a, G, K>, K>
        requires empty { received ring ≡ [] }
        requires seat { IsClerkOf slots.now seat }
        requires free { looks_of seat ≡ replicate (slot_count slots.now) Free }
        ensures new { IfOk result IsNew }
        ensures framing { IfOk result (λ clerk. clerk_framing clerk ≡ framing) }
        ensures table { IfOk result (λ clerk. clerk_table clerk ≡ table.now) }
        ensures limits { IfOk result (λ clerk. clerk_limits clerk ≡ limits) }
        ensures gates { IfOk result (λ clerk. AreHandlesOf gate clerk.gates.items) }
        ensures ring { IfOk result (λ clerk. clerk.ring ≡ ring) }
        ensures yields { IfOk result (λ clerk. clerk.yields ≡ yields) }
        ensures sink { IfOk result (λ clerk. clerk.sink ≡ sink) }
        ensures err { IfErr result (λ back. back ≡ sink) }
    {
        let Ok(gates) = one_for_each_slot(alloc, &gate) else {
            return Err(sink);
        };
        match StreamSession::new(alloc, framing, table, limits) {
            Ok(stream) => Ok(Clerk {
                stream,
                gates,
                ring,
                slots,
                seat,
                bells,
                yields,
                sink,
            }),
            Err(AllocError) => Err(sink),
        }
    }

    /// The sink, as it was given.
    pub fn into_sink(self) -> K
        ensures { result ≡ self.entry.sink }
    {
        let Clerk { sink, .. } = self;
        sink
    }

    /// Serves until all is done, or until what is due can't be written.
    pub fn run<R: Wait>(self, rt: &R) -> Served<K>
        requires { IsNew self }
        ensures ring { SameConsumer self.entry.ring result.ring }
        ensures ok { IfOk result.outcome (λ report. IsRunIn (clerk_framing self.entry)
            (clerk_table self.entry) (clerk_limits self.entry)
            (bytes_of (received result.ring)) (ending_of (received result.ring))
            (K.bytes_taken self.entry.sink) (K.bytes_taken result.sink) report) }
        ensures err { OnErr result.outcome (IsShortIn (clerk_framing self.entry)
            (clerk_table self.entry) (clerk_limits self.entry) (bytes_of (received result.ring)) (ending_of (received result.ring))
            (K.bytes_taken self.entry.sink) (K.bytes_taken result.sink)) }
        ensures cause { CountsRun (K.failures self.entry.sink) result.outcome
            (K.failures result.sink) }
        ensures flushed { HandsOn K.handed_on K.bytes_taken self.entry.sink result.outcome
            result.sink }
    {
        let mut clerk = self;
        let outcome = clerk.serve(rt);
        let Clerk { ring, sink, .. } = clerk;
        Served {
            outcome,
            ring,
            sink,
        }
    }
}

/// As many handles of a gate as there are slots, so that a hand-out needs no memory.
fn one_for_each_slot<G: Gate>(
    alloc: Global,
    gate: &Arc<G, Global>,
) -> Result<Vec<Arc<G, Global>>, AllocError>
    ensures { IfOk result (λ gates. AreHandlesOf gate.now gates.items) }
{
    let mut gates = Vec::with_capacity(alloc, MOST_SLOTS)?;
    for _ in 0..MOST_SLOTS {
        let Ok(handle) = Arc::try_clone(gate) else {
            return Err(AllocError);
        };
        gates.push(handle)?;
    }
    Ok(gates)
}
