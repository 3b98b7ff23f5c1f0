//! What the stage of a number tells: whether its handler is ready, and whether something is to be written.

ghost use Rattle.std.specs.Prelude.{◌≡◌};
ghost use Rattle.answer_desk.specs.Desk.{view as desk_view};
ghost use Rattle.peer_events.specs.Hearing.{is_ready};
ghost use Rattle.peer_events.specs.Stages.{stage_at as stage_in_list};
ghost use Rattle.peer_events.specs.Turning.{is_ready_stage};
ghost use Rattle.session_runs.specs.Runs.{has_unwritten, is_more_than};

use answer_desk::Desk;
use handler_future::Handler;
use number_set::DenseWindow;
use peer_events::Stage;

/// Whether the replies to all that the handler waits for are on the board. One that was never
/// polled waits for none.
fn is_ready(desk: &Desk, handler: &Handler) -> bool
    ensures { result ≡ is_ready (desk_view desk.now) handler.now }
{
    let number = handler.number();
    handler
        .waits()
        .iter()
        .all(|turn| desk.has_reply(number, *turn))
}

/// Whether the handler of a number is here and ready.
pub(crate) fn is_ready_at(desk: &Desk, stages: &DenseWindow<Stage>, number: u32) -> bool
    ensures { result ≡ is_ready_stage (desk_view desk.now) (stage_in_list stages.now number) }
{
    match stages.get(number) {
        Some(stage) => is_ready_stage(desk, stage),
        None => false,
    }
}

/// Whether a number in this stage has its handler here, and ready.
#[inline(always)]
pub(crate) fn is_ready_stage(desk: &Desk, stage: &Stage) -> bool
    ensures { result ≡ is_ready_stage (desk_view desk.now) stage.now }
{
    match stage {
        Stage::Idle(handler, _) => is_ready(desk, handler),
        _ => false,
    }
}

/// Whether something of what a number in this stage has sent isn't written. What a job that is out
/// has made waits until it is back.
pub(crate) fn has_unwritten(stage: &Stage) -> bool
    ensures { result ≡ has_unwritten stage.now }
{
    match stage {
        Stage::Idle(handler, written) => *written < handler.messages().len(),
        Stage::Over(handler, written) => is_more_than(*written, handler),
        _ => false,
    }
}

/// Whether a handler that is over has more messages and withdrawals than these.
pub fn is_more_than(written: usize, handler: &Handler) -> bool
    ensures { result ≡ is_more_than written handler.now }
{
    let messages = handler.messages().len();
    written < messages || written - messages < handler.waits().len()
}
