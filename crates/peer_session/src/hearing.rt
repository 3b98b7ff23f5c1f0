//! What a handler waits for, and hears.

ghost use Rattle.std.specs.Prelude.{◌≡◌, ◌<◌, ◌^◌, length, false};
ghost use Rattle.peer_events.specs.Core.{stage_at, with_desk};
ghost use Rattle.peer_events.specs.Hearing.{hear_waits};
ghost use Rattle.session_runs.specs.Runs.{is_idle};
ghost use Rattle.peer_session.specs.Inner.Waits.{IsNextWait};

use handler_future::Handler;
use session_runs::Runs;

/// The handler hears, of all that it waits for, what is there. It isn't among the session's runs
/// meanwhile.
pub(crate) fn hear_waits(runs: &mut Runs, handler: &mut Handler)
    requires { is_idle (stage_at runs.old handler.old.number) ≡ false }
    ensures runs { runs.new ≡ with_desk runs.old (hear_waits runs.old.desk handler.old).desk }
    ensures handler { handler.new ≡ (hear_waits runs.old.desk handler.old).handler }
{
    let number = handler.number();
    let mut passed = 0;
    while let Some(turn) = next_wait(handler, passed) {
        match runs.take_reply(number, turn) {
            Some(reply) => drop(handler.hear(turn, reply)),
            None => passed += 1,
        }
    }
}

/// The turn at a place of those that the handler waits for.
fn next_wait(handler: &Handler, place: usize) -> Option<u32>
    ensures next { IsNextWait handler.now.waits place result }
    ensures few { length handler.now.waits < 2 ^ 64 }
{
    let waits = handler.waits();
    if place < waits.len() {
        Some(waits[place])
    } else {
        None
    }
}
