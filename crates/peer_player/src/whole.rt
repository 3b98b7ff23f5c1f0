//! A whole input, played at once.

ghost use Rattle.std.specs.Prelude.{◌≡◌, ℕ, List, [], IfOk, IfErr, OnErr, Option, Some, flat_map};
ghost use Rattle.method_steps.specs.Steps.{MethodTable};
ghost use Rattle.peer_session.specs.declared.limits.Limits.{Limits as LimitsOf};
ghost use Rattle.stream_session.specs.Stream.{stream_of};
ghost use Rattle.stream_framing.specs.declared.framing.Framing.TheVariants.{Frames};
ghost use Rattle.peer_player.specs.Player.{PlaysAfter};
ghost use Rattle.peer_session.specs.Events.{CountsDrain};
ghost use Rattle.peer_session.specs.HandedOn.{HandsOn, HandsOnUntil, HasHandedOn};
ghost use Rattle.stream_session.specs.Promise.{IsPlay, IsRunCutShort, CountsFault};

use crate::player::Player;
use crate::schedule::Schedule;
use lsp_frames::{MemSink, Sink};
use method_steps::Table;
use peer_session::{DrainFault, Limits, Report};
use std::alloc::Global;
use stream_session::{runs_in_frames_are_runs, what_a_stream_wrote};

/// Why nothing was played.
#[derive(Clone, Copy, Debug, PartialEq, Eq)]
pub enum PlayFault {
    /// A growth was refused.
    Memory,
}

/// What a peer with these methods writes for an input that comes in these pieces, and what it tells of it.
///
/// # Errors
/// `Memory` where a growth is refused, or a handler finds no memory.
pub fn play(
    alloc: Global,
    table: &Table,
    limits: Limits,
    pieces: &[Vec<u8>],
    schedule: &Schedule,
) -> Result<(Vec<u8>, Report), PlayFault>
    ensures { IfOk result (λ played. IsPlay table.now limits (flat_map (λ piece. piece.items)
        pieces.now)
        (Some []) (Some played.0.items) played.1) }
{
    // (a sink in memory fails only where there is none)
    match play_to(
        alloc,
        table,
        limits,
        pieces,
        schedule,
        MemSink::new(alloc, None),
    ) {
        Ok((report, sink)) => Ok((sink.into_vec(), report)),
        Err(_) => Err(PlayFault::Memory),
    }
}

/// The same into a sink, as it goes. The sink comes back.
///
/// # Errors
/// `Memory` where a growth is refused, or a handler finds no memory; `Write` where the sink fails. Some of the bytes, from their
/// front, may have been taken.
pub fn play_to<S: Sink>(
    alloc: Global,
    table: &Table,
    limits: Limits,
    pieces: &[Vec<u8>],
    schedule: &Schedule,
    sink: S,
) -> Result<(Report, S), (DrainFault, S)>
    ensures ok { IfOk result (λ played. IsPlay table.now limits (flat_map (λ piece. piece.items)
        pieces.now)
        (S.bytes_taken sink) (S.bytes_taken played.1) played.0) }
    ensures err { IfErr result (λ stopped. IsRunCutShort table.now limits (flat_map (λ piece.
        piece.items) pieces.now)
        (S.bytes_taken sink) (S.bytes_taken stopped.1)) }

    // The sink's count of failures rises by `Write`, and by nothing else.
    ensures failures { IfOk result (λ played. S.failures played.1 ≡ S.failures sink) }
    ensures cause { IfErr result (λ stopped. CountsFault (S.failures sink) stopped.0
        (S.failures stopped.1)) }

    // Unless a write fails, the sink is as it was, or has handed on all that it has taken.
    ensures flushed { IfOk result (λ played. HasHandedOn S.handed_on S.bytes_taken sink played.1) }
    ensures flushed_until { IfErr result (λ stopped. HandsOnUntil S.handed_on S.bytes_taken sink
        stopped.0 stopped.1) }
{
    what_a_stream_wrote();
    runs_in_frames_are_runs();
    let mut player = Player::new(alloc, table, limits, schedule, sink)?;
    match play_all(&mut player, pieces) {
        Ok(report) => Ok((report, player.into_sink())),
        Err(fault) => Err((fault, player.into_sink())),
    }
}

/// Feeds the pieces to a new player, and ends the input.
fn play_all<S: Sink>(player: &mut Player<'_, S>, pieces: &[Vec<u8>]) -> Result<Report, DrainFault>
    ensures ok { (table : MethodTable) (limits : LimitsOf) (before : Option (List ℕ)) →
        PlaysAfter Frames table limits [] before (stream_of player.old.playing.stream)
        (S.bytes_taken player.old.playing.sink) →
        IfOk result (λ report. IsPlay table limits (flat_map (λ piece. piece.items) pieces.now)
        before (S.bytes_taken player.new.playing.sink) report) }
    ensures err { (table : MethodTable) (limits : LimitsOf) (before : Option (List ℕ)) →
        PlaysAfter Frames table limits [] before (stream_of player.old.playing.stream)
        (S.bytes_taken player.old.playing.sink) →
        OnErr result (IsRunCutShort table limits (flat_map (λ piece. piece.items) pieces.now)
        before (S.bytes_taken player.new.playing.sink)) }
    ensures cause { CountsDrain (stream_of player.old.playing.stream).session
        (S.failures player.old.playing.sink) result (S.failures player.new.playing.sink) }
    ensures flushed { HandsOn S.handed_on S.bytes_taken player.old.playing.sink result
        player.new.playing.sink }
{
    runs_in_frames_are_runs();
    for piece in pieces {
        player.feed(piece.as_slice())?;
    }
    player.end()
}
