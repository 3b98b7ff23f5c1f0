//! Handlers go out for a turn, and come back.

ghost use Rattle.std.specs.Prelude.{◌≡◌, Some, IfSome, slice_get};
ghost use Rattle.peer_events.specs.Turning.{ready, returned};
ghost use Rattle.peer_session.specs.Inner.Turns.{LeavesFrom, SendsOut};

use crate::finishing::{cancel, finish, take_idle};
use crate::hearing::hear_waits;
use handler_future::{Handler, Outcome};
use peer_events::Stage;
use session_runs::Runs;

/// The handler at a place of those that are ready goes out. It hears the replies that it waited
/// for.
pub(crate) fn leave(runs: &mut Runs, place: u32) -> Option<Handler>
    ensures leaves { LeavesFrom runs.old (slice_get (ready runs.old) place) result runs.new }
    ensures number { IfSome result (λ handler.
        slice_get (ready runs.old) place ≡ Some handler.number) }
{
    let number = runs.ready_at(place)?;
    let mut handler = send_out(runs, number)?;
    hear_waits(runs, &mut handler);
    Some(handler)
}

/// The handler of a number goes out, where it is here.
fn send_out(runs: &mut Runs, number: u32) -> Option<Handler>
    ensures { SendsOut runs.old number result runs.new }
{
    let (handler, _) = take_idle(runs, number)?;
    Some(handler)
}

/// A handler that was out is here again, with what its poll answered. One that isn't out is let go.
pub(crate) fn come_back(runs: &mut Runs, handler: Handler, outcome: Option<Outcome>)
    ensures { runs.new ≡ returned runs.old handler outcome }
{
    let number = handler.number();
    let Some(Stage::Out(written)) = runs.stage(number) else {
        drop(handler);
        drop(outcome);
        return;
    };
    let written = *written;
    match outcome {
        Some(Outcome::Answer(answer)) => finish(runs, handler, written, answer),
        Some(Outcome::Failed) => {
            drop(runs.replace(number, Stage::Failed));
            drop(handler);
        }
        None => {
            if runs.is_marked(number) {
                cancel(runs, handler, written);
            } else {
                drop(runs.replace(number, Stage::Idle(handler, written)));
            }
        }
    }
}
