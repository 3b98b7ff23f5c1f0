//! What came through the ring is fed to the session, and taken.

ghost use Rattle.std.specs.Prelude.{◌≡◌, IfOk, OnOk};
ghost use Rattle.stream_session.specs.Stream.{IsTaken, stream_of};
ghost use Rattle.stream_session.specs.Stream.{ending_by as ending_of_end};
ghost use Rattle.rpc_peer.specs.declared.arrival.Arrival.TheVariants.{Piece as PieceOf, End as EndOf};
ghost use Rattle.rpc_peer.specs.Arriving.{ending_by};
ghost use Rattle.rpc_peer.specs.Taking.{EndsInput, TakesArrival};

use crate::arrival::{Arrival, InputEnd};
use std::alloc::AllocError;
use stream_session::{InputEnd as StreamEnd, StreamSession};

/// Takes what has come through the ring. It fails where there is no memory, here or for its reader.
pub(crate) fn take_arrival(
    stream: &mut StreamSession<'_>,
    arrival: Arrival,
) -> Result<(), AllocError>
    ensures takes { OnOk result (TakesArrival arrival (stream_of stream.old) (stream_of stream.new)) }
    ensures taken { OnOk result (IsTaken (stream_of stream.new)) }
    ensures ends { OnOk result (EndsInput arrival) }
{
    match arrival {
        Arrival::Piece(piece) => take_piece(stream, piece.as_slice()),
        Arrival::End(end) => take_end(stream, end),
    }
}

/// Takes the contents that a piece completes, and a fault behind them.
fn take_piece(stream: &mut StreamSession<'_>, piece: &[u8]) -> Result<(), AllocError>
    ensures takes { OnOk result (TakesArrival (PieceOf piece.now) (stream_of stream.old)
        (stream_of stream.new)) }
    ensures taken { OnOk result (IsTaken (stream_of stream.new)) }
{
    stream.feed(piece)?;
    stream.take_all()
}

/// Ends the input, in the way that its reader tells.
fn take_end(stream: &mut StreamSession<'_>, end: InputEnd) -> Result<(), AllocError>
    ensures takes { OnOk result (TakesArrival (EndOf end) (stream_of stream.old)
        (stream_of stream.new)) }
    ensures taken { OnOk result (IsTaken (stream_of stream.new)) }
    ensures ends { OnOk result (EndsInput (EndOf end)) }
{
    stream.end(told_end(end)?)?;
    stream.take_all()
}

/// The end of the input, where its reader has come to one.
fn told_end(end: InputEnd) -> Result<StreamEnd, AllocError>
    ensures told { IfOk result (λ told. ending_of_end told ≡ ending_by end) }
    ensures ends { OnOk result (EndsInput (EndOf end)) }
{
    match end {
        InputEnd::Finished => Ok(StreamEnd::Finished),
        InputEnd::Failed => Ok(StreamEnd::Failed),
        InputEnd::Memory => Err(AllocError),
    }
}
