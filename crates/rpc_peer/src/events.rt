//! The events of a clerk: each is one call of the session, with what comes before it or after it.

ghost use Rattle.std.specs.Prelude.{◌≡◌, IfErr, IfOk, OnOk};
ghost use Rattle.rtrb.specs.Ring.{received};
ghost use Rattle.job_slots.specs.Seats.{looks_of};
ghost use Rattle.stream_session.specs.Stream.{stream_of};
ghost use Rattle.rpc_peer.specs.Serving.{Start, Serves, Stops, IsDrained};
ghost use Rattle.rpc_peer.specs.Moves.{BringsHome, HandsOutOne, TakesIn};

use crate::clerk::Clerk;
use crate::gate::Gate;
use crate::gated::Gated;
use crate::taking::take_arrival;
use lsp_frames::Sink;
use peer_session::DrainFault;
use stream_session::what_a_stream_wrote;

impl<'a, G: Gate, K: Sink> Clerk<'a, G, K> {
    /// Takes in what came next through the ring, if anything did. Once the session is closed nothing more is taken.
    pub(crate) fn take_in(&mut self) -> Result<bool, DrainFault>
        ensures ok { (start : Start K) → Serves K.handed_on K.bytes_taken K.failures start self.old →
            OnOk result (Serves K.handed_on K.bytes_taken K.failures start self.new) }
        ensures err { (start : Start K) → Serves K.handed_on K.bytes_taken K.failures start self.old →
            IfErr result (Stops K.handed_on K.bytes_taken K.failures start self.new) }
        ensures told { IfOk result (λ came. TakesIn self.old came self.new) }
        ensures slots { looks_of self.new.seat ≡ looks_of self.old.seat }
    {
        what_a_stream_wrote();
        if !self.stream.is_open() {
            return Ok(false);
        }
        let Ok(arrival) = self.ring.pop() else {
            return Ok(false);
        };
        self.bells.reader.notify_one();
        let Ok(()) = take_arrival(&mut self.stream, arrival) else {
            return Err(DrainFault::Memory);
        };
        Ok(true)
    }

    /// Takes back the job of a slot, if it was turned.
    pub(crate) fn bring_home_from(&mut self, slot: u32) -> bool
        ensures serves { (start : Start K) → Serves K.handed_on K.bytes_taken K.failures start self.old →
            Serves K.handed_on K.bytes_taken K.failures start self.new }
        ensures told { BringsHome slot (looks_of self.old.seat) result (looks_of self.new.seat) }
        ensures ring { received self.new.ring ≡ received self.old.ring }
    {
        let Some(gated) = self.slots.collect(&mut self.seat, slot) else {
            return false;
        };
        let Gated { gate, job } = gated;
        let _ = self.gates.push(gate);
        self.stream.back(job);
        true
    }

    /// Writes what is due.
    pub(crate) fn drain(&mut self) -> Result<(), DrainFault>
        ensures ok { (start : Start K) → Serves K.handed_on K.bytes_taken K.failures start self.old →
            OnOk result (Serves K.handed_on K.bytes_taken K.failures start self.new) }
        ensures drained { OnOk result (IsDrained (stream_of self.new.stream).session) }
        ensures err { (start : Start K) → Serves K.handed_on K.bytes_taken K.failures start self.old →
            IfErr result (Stops K.handed_on K.bytes_taken K.failures start self.new) }
        ensures stays { (looks_of self.new.seat ≡ looks_of self.old.seat)
            × (received self.new.ring ≡ received self.old.ring) }
    {
        self.stream.drain(&mut self.sink)
    }

    /// Hands out the first job that is ready, if there is one and a slot is free, with a gate of its own.
    /// It wakes nobody: `hand_out` does.
    pub(crate) fn hand_out_one(&mut self) -> bool
        ensures serves { (start : Start K) → Serves K.handed_on K.bytes_taken K.failures start self.old →
            Serves K.handed_on K.bytes_taken K.failures start self.new }
        ensures told { HandsOutOne self.old result self.new }
    {
        if self.stream.count_ready() == 0 || !self.seat.has_room() {
            return false;
        }
        let Some(gate) = self.gates.pop() else {
            return false;
        };
        let Some(job) = self.stream.next_job(0) else {
            return false;
        };
        let offered = self.slots.offer(&mut self.seat, Gated::new(gate, job));
        let Some(_) = offered.ok() else {
            unreachable!()
        };
        true
    }
}
