//! The rounds of a clerk.

use crate::clerk::Clerk;
use crate::gate::Gate;
use crate::patience::Patience;
use job_slots::MOST_SLOTS;
use lsp_frames::Sink;
use peer_session::{DrainFault, Report};
use std::sync::Wait;
use stream_session::what_a_stream_wrote;

impl<'a, G: Gate, K: Sink> Clerk<'a, G, K> {
    ghost use Rattle.std.specs.Prelude.{◌≡◌, ◌+◌, ◌<◌, ℕ, Some, IfOk, IfErr, OnOk, MatchBool, slice_get};
    ghost use Rattle.rtrb.specs.Ring.{received};
    ghost use Rattle.job_slots.specs.declared.view.Look.TheVariants.{Free};
    ghost use Rattle.job_slots.specs.Looks.{HasJob};
    ghost use Rattle.job_slots.specs.Seats.{looks_of, slot_count};
    ghost use Rattle.stream_session.specs.Stream.{stream_of};
    ghost use Rattle.rpc_peer.specs.Serving.{Start, Serves, Stops, Finishes, IsDrained};
    ghost use Rattle.rpc_peer.specs.Moves.{BringsHome, BringsSomeHome, HandsSomeOut, HasHandedOut, Settles, TakesInOrWaits, free_count};

    /// Goes round until all is done. Where it has found nothing to do for some rounds, it sleeps until its bell rings.
    pub(crate) fn serve<R: Wait>(&mut self, rt: &R) -> Result<Report, DrainFault>
        ensures ok { (start : Start K) → Serves K.handed_on K.bytes_taken K.failures start self.old →
            IfOk result (Finishes K.handed_on K.bytes_taken K.failures start self.new) }
        ensures err { (start : Start K) → Serves K.handed_on K.bytes_taken K.failures start self.old →
            IfErr result (Stops K.handed_on K.bytes_taken K.failures start self.new) }
    {
        what_a_stream_wrote();
        let bells = self.bells;
        // (Jobs come home soon, and input when it likes: what is learnt of the one says nothing of the other.)
        let mut for_jobs = Patience::new(self.yields);
        let mut for_input = Patience::new(self.yields);
        for _ in rt.forever() {
            let awaits_jobs = self.has_jobs_out();
            let patience = if awaits_jobs {
                &mut for_jobs
            } else {
                &mut for_input
            };
            let key = patience.announce(&bells.clerk);
            let has_come = self.settle()?;
            if self.stream.is_done() {
                return Ok(self.stream.report());
            }
            let has_gone = self.hand_out();
            if has_come || has_gone {
                patience.renew();
            } else {
                patience.rest(rt, key);
            }
        }
        unreachable!()
    }

    /// Whether a job is in a slot, so that one may come home.
    fn has_jobs_out(&self) -> bool
        ensures { MatchBool result ((slot : ℕ) × HasJob (looks_of self.now.seat) slot)
            ((slot : ℕ) → slot < slot_count self.now.slots.now →
            slice_get (looks_of self.now.seat) slot ≡ Some Free) }
    {
        self.slots.next_in_use(&self.seat, 0).is_some()
    }

    /// Takes in what has come, from the slots and through the ring, writes what is due then, and tells whether anything has come.
    fn settle(&mut self) -> Result<bool, DrainFault>
        ensures ok { (start : Start K) → Serves K.handed_on K.bytes_taken K.failures start self.old →
            OnOk result (Serves K.handed_on K.bytes_taken K.failures start self.new) }
        ensures drained { OnOk result (IsDrained (stream_of self.new.stream).session) }
        ensures err { (start : Start K) → Serves K.handed_on K.bytes_taken K.failures start self.old →
            IfErr result (Stops K.handed_on K.bytes_taken K.failures start self.new) }
        ensures told { IfOk result (λ came. Settles self.old came self.new) }
    {
        let came_home = self.bring_home();
        let came_in = self.take_in_if_few_wait()?;
        self.drain()?;
        Ok(came_home || came_in)
    }

    /// Takes in what came next, unless more handlers wait for their turns than there are slots: so a client that sends
    /// faster than its requests are worked on is held back.
    fn take_in_if_few_wait(&mut self) -> Result<bool, DrainFault>
        ensures ok { (start : Start K) → Serves K.handed_on K.bytes_taken K.failures start self.old →
            OnOk result (Serves K.handed_on K.bytes_taken K.failures start self.new) }
        ensures err { (start : Start K) → Serves K.handed_on K.bytes_taken K.failures start self.old →
            IfErr result (Stops K.handed_on K.bytes_taken K.failures start self.new) }
        ensures told { IfOk result (λ came. TakesInOrWaits self.old came self.new) }
        ensures slots { looks_of self.new.seat ≡ looks_of self.old.seat }
    {
        if self.stream.count_ready() as usize > MOST_SLOTS {
            return Ok(false);
        }
        self.take_in()
    }

    /// Takes back all jobs that were turned. It looks at the slots in use, and at no other.
    fn bring_home(&mut self) -> bool
        ensures serves { (start : Start K) → Serves K.handed_on K.bytes_taken K.failures start self.old →
            Serves K.handed_on K.bytes_taken K.failures start self.new }
        ensures told { BringsSomeHome (looks_of self.old.seat) result (looks_of self.new.seat) }
        ensures ring { received self.new.ring ≡ received self.old.ring }
    {
        let mut has_moved = false;
        let mut next = self.slots.next_in_use(&self.seat, 0);
        for _ in 0..MOST_SLOTS {
            let Some(slot) = next else { break };
            if self.bring_home_if_turned(slot) {
                has_moved = true;
            }
            next = self.slots.next_in_use(&self.seat, slot.saturating_add(1));
        }
        has_moved
    }

    /// Takes back the job of a slot, if a look finds it turned. Most slots have none, and for these no room for a job is
    /// made.
    fn bring_home_if_turned(&mut self, slot: u32) -> bool
        ensures serves { (start : Start K) → Serves K.handed_on K.bytes_taken K.failures start self.old →
            Serves K.handed_on K.bytes_taken K.failures start self.new }
        ensures told { BringsHome slot (looks_of self.old.seat) result (looks_of self.new.seat) }
        ensures ring { received self.new.ring ≡ received self.old.ring }
    {
        self.slots.is_turned(&self.seat, slot) && self.bring_home_from(slot)
    }

    /// Hands out jobs, while one is ready and a slot is free, and then wakes a worker for each.
    fn hand_out(&mut self) -> bool
        requires { IsDrained (stream_of self.old.stream).session }
        ensures serves { (start : Start K) → Serves K.handed_on K.bytes_taken K.failures start self.old →
            Serves K.handed_on K.bytes_taken K.failures start self.new }
        ensures told { HandsSomeOut (looks_of self.old.seat) result (looks_of self.new.seat) }
        ensures all { HasHandedOut self.new }
    {
        let gone = self.hand_out_jobs();
        self.bells.jobs_were_offered(gone);
        gone != 0
    }

    /// Hands out jobs, while one is ready and a slot is free, and tells how many.
    fn hand_out_jobs(&mut self) -> u32
        ensures serves { (start : Start K) → Serves K.handed_on K.bytes_taken K.failures start self.old →
            Serves K.handed_on K.bytes_taken K.failures start self.new }
        ensures told { free_count (looks_of self.old.seat) ≡ free_count (looks_of self.new.seat) + result }
        ensures all { HasHandedOut self.new }
    {
        let mut gone: u32 = 0;
        for _ in 0..MOST_SLOTS {
            if !self.hand_out_one() {
                break;
            }
            gone = gone.saturating_add(1);
        }
        gone
    }
}
