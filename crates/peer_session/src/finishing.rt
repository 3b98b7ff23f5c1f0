//! How numbers are finished: by their fault, with an answer, or by a cancel (LSP 3.17,
//! "Cancellation Support").

ghost use Rattle.std.specs.Prelude.{◌≡◌, MatchOption, true, false};
ghost use Rattle.answer_desk.specs.State.{is_open};
ghost use Rattle.peer_events.specs.declared.stage.Stage.TheVariants.{Idle, Out};
ghost use Rattle.peer_events.specs.Stages.{is_gone};
ghost use Rattle.peer_events.specs.Core.{stage_at, with_stage};
ghost use Rattle.peer_events.specs.Finishing.{finished, cancelled, Reaches, fault_passed};
ghost use Rattle.session_runs.specs.Runs.{is_idle};
ghost use Rattle.peer_session.specs.Inner.Turns.{told_here};

use crate::hearing::hear_waits;
use handler_future::Handler;
use peer_events::Stage;
use rpc_messages::{Id, Reply, Standard};
use session_runs::{Runs, is_more_than};

/// Takes the handler of a number out of the runs, where it is here, and tells how many of its messages are written. The
/// number is out until it is put into another stage.
#[inline(always)]
pub(crate) fn take_idle(runs: &mut Runs, number: u32) -> Option<(Handler, usize)>
    ensures { MatchOption result
        ((runs.new ≡ runs.old) × (is_idle (stage_at runs.old number) ≡ false))
        (λ taken. (runs.new ≡ with_stage runs.old number (Out taken.1))
        × (stage_at runs.old number ≡ Idle taken.0 taken.1) × (taken.0.number ≡ number)
        × (is_open runs.old.desk number ≡ true)) }
{
    let Some(Stage::Idle(_, written)) = runs.stage(number) else {
        return None;
    };
    let written = *written;
    match runs.replace(number, Stage::Out(written)) {
        Stage::Idle(handler, _) => Some((handler, written)),
        other => {
            drop(other);
            None
        }
    }
}

/// Finishes a number, whose handler isn't among the runs, with an answer. It stands within what calls it, as a large answer
/// is handed on.
#[inline(always)]
pub(crate) fn finish(runs: &mut Runs, handler: Handler, written: usize, answer: Reply)
    requires here { is_gone (stage_at runs.old handler.number) ≡ false }
    requires open { is_open runs.old.desk handler.number ≡ true }
    ensures { runs.new ≡ finished runs.old handler written answer }
{
    let number = handler.number();
    if is_more_than(written, &handler) {
        drop(runs.replace(number, Stage::Over(handler, written)));
    } else {
        drop(runs.replace(number, Stage::Gone));
        runs.keep(handler);
    }
    runs.finish(number, answer);
}

/// Finishes a number, whose handler isn't among the runs, as cancelled: it hears what is there of
/// the replies that it waits for, and withdraws the other calls.
pub(crate) fn cancel(runs: &mut Runs, mut handler: Handler, written: usize)
    requires here { is_gone (stage_at runs.old handler.number) ≡ false }
    requires away { is_idle (stage_at runs.old handler.number) ≡ false }
    requires open { is_open runs.old.desk handler.number ≡ true }
    ensures { runs.new ≡ cancelled runs.old handler written }
{
    hear_waits(runs, &mut handler);
    finish(runs, handler, written, Reply::Standard(Standard::Cancelled));
}

/// A number is told of its cancel: it is finished where its handler is here. One that is out is
/// finished as it comes back.
fn tell(runs: &mut Runs, number: u32)
    ensures { runs.new ≡ told_here runs.old number }
{
    if let Some((handler, written)) = take_idle(runs, number) {
        cancel(runs, handler, written);
    }
}

/// A cancel of this id, which is call `number` of the stream, reaches the requests before it, the lowest
/// first.
pub(crate) fn cancel_requests(runs: &mut Runs, id: &Id, number: u32)
    ensures { Reaches id.now number runs.old runs.new }
{
    while let Some(reached) = runs.reach(id, number) {
        tell(runs, reached);
    }
}

/// Finishes a call that is at fault.
pub(crate) fn pass_fault(runs: &mut Runs, number: u32)
    ensures { runs.new ≡ fault_passed runs.old number }
{
    let Some(Stage::Faulty(error)) = runs.stage(number) else {
        return;
    };
    let error = *error;
    drop(runs.replace(number, Stage::Gone));
    runs.finish(number, Reply::Standard(error));
}
