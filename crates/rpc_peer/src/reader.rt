//! The reader: the thread that reads the source.

ghost use Rattle.std.specs.Prelude.{◌≡◌, ◌<◌, ◌∷◌, ◌++◌, [], length, OnOk, OnErr};
ghost use Rattle.rtrb.specs.Ring.{sent, SameProducer};
ghost use Rattle.rpc_peer.specs.Arriving.{GivesArrival, Reads, EndsBy};

use crate::arrival::{Arrival, InputEnd};
use crate::bells::{Bells, Stopped};
use crate::patience::Patience;
use json_values::Items;
use lsp_frames::{IoFault, Source};
use rtrb::{Producer, PushError};
use std::alloc::Global;
use std::sync::Wait;

/// So many bytes are asked for at once.
const PIECE: usize = 16_384;

/// Reads the source to its end: each piece goes into the ring as it comes, and last how the input came to its end. Where
/// the ring is full it waits.
///
/// # Errors
/// It leaves without an end only where it has seen that the server has stopped.
pub fn read_into<S: Source + Drop, R: Wait>(
    rt: &R,
    alloc: Global,
    source: S,
    ring: &mut Producer<Arrival>,
    bells: &Bells,
    yields: u32,
) -> Result<(), Stopped>
    requires { sent ring.old ≡ [] }
    ensures ring { SameProducer ring.old ring.new }
    ensures reads { Reads (S.gave source) (sent ring.new) }
    ensures ended { OnOk result (EndsBy (sent ring.new)) }
{
    let Ok(mut room) = vec![in alloc; 0u8; PIECE] else {
        return send(rt, ring, Arrival::End(InputEnd::Memory), bells, yields);
    };
    let mut source = source;
    for _ in rt.forever() {
        match next_arrival(alloc, &mut source, room.as_mut_slice()) {
            Arrival::Piece(bytes) => send(rt, ring, Arrival::Piece(bytes), bells, yields)?,
            Arrival::End(end) => return send(rt, ring, Arrival::End(end), bells, yields),
        }
    }
    unreachable!()
}

/// What the source gives next.
fn next_arrival<S: Source>(alloc: Global, source: &mut S, room: &mut [u8]) -> Arrival
    requires { 0 < length room.old }
    ensures { GivesArrival (S.gave source.old) (S.gave source.new) result }
{
    match source.next(room) {
        Ok(0) => Arrival::End(InputEnd::Finished),
        Ok(count) => match room[..count].to_vec(alloc) {
            Ok(bytes) => Arrival::Piece(Items::from(bytes)),
            Err(_) => Arrival::End(InputEnd::Memory),
        },
        Err(IoFault) => Arrival::End(InputEnd::Failed),
    }
}

/// Puts an item into the ring once there is room. Where the server has stopped, it leaves the ring as it is.
fn send<R: Wait>(
    rt: &R,
    ring: &mut Producer<Arrival>,
    arrival: Arrival,
    bells: &Bells,
    yields: u32,
) -> Result<(), Stopped>
    ensures ring { SameProducer ring.old ring.new }
    ensures sent { OnOk result (sent ring.new ≡ sent ring.old ++ arrival ∷ []) }
    ensures stopped { OnErr result (sent ring.new ≡ sent ring.old) }
{
    let mut arrival = arrival;
    let mut patience = Patience::new(yields);
    for _ in rt.forever() {
        let key = patience.announce(&bells.reader);
        if let Some(stopped) = bells.stopped() {
            return Err(stopped);
        }
        match ring.push(arrival) {
            Ok(()) => {
                bells.clerk.notify_one();
                return Ok(());
            }
            Err(PushError::Full(back)) => arrival = back,
        }
        patience.rest(rt, key);
    }
    unreachable!()
}
