//! What a handler holds.

ghost use Rattle.std.specs.Prelude.{◌≡◌, ◌==◌, ◌≤◌, [], not, is_ok, IfErr, OnOk, OnErr, vec_capacity};
ghost use Rattle.std.specs.Arc.{arc_value};
ghost use Rattle.std.specs.List.{filter, list_any};
ghost use Rattle.serde_json.specs.Data.{null as null_data};
ghost use Rattle.method_templates.specs.Steps.{AreWithinLimits};
ghost use Rattle.method_steps.specs.Steps.{shared_steps};
ghost use Rattle.handler_future.specs.Front.{unheard, last_turns};
ghost use Rattle.handler_future.specs.Inner.Handler.{params_in, run_state, IsRun};
ghost use Rattle.handler_future.specs.Rooms.{IsVacant};
ghost use Rattle.handler_future.specs.State.{IsPoll, new_state, params_data, with_heard};

use crate::course::{Course, Progress, proceed};
use crate::outcome::{NotWaiting, Outcome};
use crate::phase::Phase;
use json_values::Json;
use method_templates::Step;
use rpc_messages::{Call, Params, Reply};
use std::alloc::{AllocError, Global};
use std::mem;
use std::sync::Arc;

/// What a handler holds.
pub(crate) struct Run {
    pub(crate) alloc: Global,
    pub(crate) number: u32,
    /// The call that it runs for; none for an opening.
    pub(crate) call: Option<Arc<Call>>,
    pub(crate) steps: Arc<Vec<Step>>,
    pub(crate) course: Course,
    pub(crate) phase: Phase,
}

// Written out, so that a handler is dropped by a call.
impl Drop for Run {
    fn drop(self) {
        let Run {
            alloc: _,
            number: _,
            call,
            steps,
            course,
            phase: _,
        } = self;
        drop(call);
        drop(steps);
        drop(course);
    }
}

/// A poll: runs steps until the method ends or waits for a reply, which is `None`.
pub(crate) fn poll(run: &mut Run) -> Option<Outcome>
    requires { IsRun run.old }
    ensures polled { IsPoll (run_state run.old) (run_state run.new) result }
    ensures kept { IsRun run.new }
{
    let Phase::UnderWay = run.phase else {
        return Some(Outcome::Failed);
    };
    if !run.course.waits.is_empty() {
        return None;
    }
    let null = Json::null();
    let lent = lent_params(&run.call, &null);
    let came = proceed(run.alloc, run.steps.as_slice(), &mut run.course, lent);
    drop(null);
    match came {
        Ok(Progress::Ended(reply)) => {
            run.phase = Phase::Answered;
            Some(Outcome::Answer(reply))
        }
        Ok(Progress::Waiting) => None,
        Ok(Progress::Going) => unreachable!(),
        Err(AllocError) => {
            run.phase = Phase::Failed;
            Some(Outcome::Failed)
        }
    }
}

/// Takes the reply to an awaited call; one to any other call is given back.
pub(crate) fn hear(run: &mut Run, turn: u32, reply: Reply) -> Result<(), NotWaiting>
    requires { IsRun run.old }
    ensures awaited { is_ok result ≡ list_any (λ wait. wait == turn) (run_state run.old).waits }
    ensures ok { OnOk result (run_state run.new ≡ with_heard (run_state run.old) turn reply) }
    ensures back { IfErr result (λ refused. refused.reply ≡ reply) }
    ensures err { OnErr result (run_state run.new ≡ run_state run.old) }
    ensures waits { (run_state run.new).waits
        ≡ unheard (run_state run.new).heard (last_turns (run_state run.new).messages) }
    ensures kept { IsRun run.new }
{
    if !run.course.waits.as_slice().contains(&turn) {
        return Err(NotWaiting { reply });
    }
    drop_turn(&mut run.course.waits, turn);
    run.course.heard.push_reserved((turn, reply));
    Ok(())
}

fn drop_turn(waits: &mut Vec<u32>, turn: u32)
    ensures { waits.new.items ≡ filter (λ wait. not (wait == turn)) waits.old.items }
{
    waits.retain(|wait| *wait != turn);
}

/// The params of the call; the null where it has none.
fn lent_params<'a>(call: &'a Option<Arc<Call>>, null: &'a Json) -> &'a Json
    requires { null.now ≡ null_data }
    ensures { result.now ≡ params_in call.now }
{
    match call {
        Some(call) => match &call.params {
            Params::Whole(params) => params,
            Params::Omitted | Params::Fractional => null,
        },
        None => null,
    }
}

/// Begins these steps for another call, in the room that the run has.
pub(crate) fn restart(
    run: &mut Run,
    number: u32,
    call: Arc<Call>,
    steps: Arc<Vec<Step>>,
) -> Result<(), AllocError>
    requires { AreWithinLimits (shared_steps steps) }
    ensures ok { OnOk result (run_state run.new ≡ new_state number
        (record { steps = shared_steps steps; params = params_data (arc_value call).params })) }
    ensures kept { OnOk result (IsRun run.new) }
    ensures err { OnErr result (run.new ≡ run.old) }
{
    run.course.registers.restart()?;
    run.course.place = 0;
    run.course.turn = 1;
    run.course.asked = 0;
    run.course.heard_before = 0;
    empty(run.alloc, &mut run.course.messages, MOST_KEPT);
    empty(run.alloc, &mut run.course.waits, MOST_KEPT);
    empty(run.alloc, &mut run.course.heard, MOST_KEPT);
    run.number = number;
    drop(mem::replace(&mut run.call, Some(call)));
    drop(mem::replace(&mut run.steps, steps));
    run.phase = Phase::UnderWay;
    Ok(())
}

/// Lets go of the call, and of all that was set, made and heard for it.
pub(crate) fn clear(run: &mut Run)
    ensures { IsVacant run.new }
{
    drop(mem::replace(&mut run.call, None));
    run.course.registers.clear();
    empty(run.alloc, &mut run.course.messages, MOST_KEPT);
    empty(run.alloc, &mut run.course.waits, MOST_KEPT);
    empty(run.alloc, &mut run.course.heard, MOST_KEPT);
}

/// Places of a list that are kept for the next call; the room of a longer one is given back.
const MOST_KEPT: usize = 32;

/// Empties a list. Room for more than so many is given back. Most lists are empty: that is seen without a call.
#[inline(always)]
fn empty<T: Drop>(alloc: Global, list: &mut Vec<T>, most: usize)
    ensures items { list.new.items ≡ [] }
    ensures room { vec_capacity list.new ≤ most }
{
    if list.capacity() > most {
        drop(mem::replace(list, Vec::new(alloc)));
    } else if !list.is_empty() {
        list.clear();
    }
}
