//! A method under way.

ghost use Rattle.std.specs.Prelude.{◌≡◌, ◌≢◌, ◌+◌, ◌≤◌, ◌<◌, ◌++◌, [], length, OnOk, OnErr, IfOk, vec_len, vec_capacity};
ghost use Rattle.std.specs.List.{range_with_len};
ghost use Rattle.rpc_messages.specs.declared.key.TheConstants.{MOST_TURNS};
ghost use Rattle.serde_json.specs.Data.{Data};
ghost use Rattle.method_templates.specs.Locals.{with_lent};
ghost use Rattle.method_templates.specs.declared.limits.TheConstants.{MOST_STEPS};
ghost use Rattle.method_templates.specs.Steps.{AreWithinLimits, KeepsLimits, calls_in};
ghost use Rattle.handler_future.specs.Act.{act_of};
ghost use Rattle.handler_future.specs.Inner.Course.{seen, without_registers, with_value, with_notice, asking, after_act, after_replies, HasRoom};
ghost use Rattle.handler_future.specs.ReplyValues.{register_of};
ghost use Rattle.handler_future.specs.Evaluation.{Program};
ghost use Rattle.handler_future.specs.Inner.Running.{Stays, Extends, IsReady, IsRunnable, HasRoomToWait};
ghost use Rattle.handler_future.specs.Inner.Standing.{StandsBefore, IsUnderWay, Leads, Begins};

use crate::act::{Act, decide, whole_answer};
use crate::answered::answered_sum;
use crate::message::Message;
use crate::reply_values::value_of_replies;
use json_values::Json;
use method_templates::{Locals, Step};
use rpc_messages::{Outgoing, Reply};
use std::alloc::{AllocError, Global};

/// Where a method stands. Its deep parts are parameters, so that whether it may go to another thread is asked of each part
/// by itself.
#[derive(Drop)]
pub(crate) struct CourseOf<R, M, H> {
    /// How many steps are behind.
    pub(crate) place: usize,
    pub(crate) registers: R,
    /// The turn of the next call; where calls were made at this place, that of the first of them.
    pub(crate) turn: u32,
    /// How many calls were made at this place.
    pub(crate) asked: u32,
    /// How many replies were heard before those calls.
    pub(crate) heard_before: usize,
    pub(crate) messages: M,
    pub(crate) waits: Vec<u32>,
    pub(crate) heard: H,
}

pub(crate) type Course = CourseOf<Locals, Vec<Message>, Vec<(u32, Reply)>>;

/// What a course has come to.
#[derive(Drop)]
pub(crate) enum Progress {
    Going,
    Waiting,
    Ended(Reply),
}

/// Goes on until the method waits for replies or ends. It waits for none as it begins. The params of its call are lent.
pub(crate) fn proceed(
    alloc: Global,
    steps: &[Step],
    course: &mut Course,
    lent: &Json,
) -> Result<Progress, AllocError>
    requires limits { AreWithinLimits steps.now }
    requires ready { IsReady steps.now (seen lent.now course.old) }
    ensures leads { IfOk result (λ progress. (program : Program) → program.steps ≡ steps.now
        → IsUnderWay program (seen lent.now course.old) → Leads program (seen lent.now course.new) progress) }
    ensures halts { IfOk result (λ progress. progress ≢ Progress.Going) }
    ensures err { OnErr result ((program : Program) → program.steps ≡ steps.now
        → IsUnderWay program (seen lent.now course.old) → Begins program (seen lent.now course.new)) }
    ensures stays { Stays (seen lent.now course.old) (seen lent.now course.new) }
    ensures adds { Extends result (seen lent.now course.old) (seen lent.now course.new) }
    ensures room { IfOk result (λ progress. HasRoomToWait progress course.new) }
{
    if course.asked == 0 {
        return run(alloc, steps, course, lent);
    }
    match take_replies(alloc, &steps[course.place], course)? {
        Progress::Going => run(alloc, steps, course, lent),
        halt => Ok(halt),
    }
}

/// Does steps until the method ends or waits. It stands within what calls it, as a large answer is handed on.
#[inline(always)]
fn run(
    alloc: Global,
    steps: &[Step],
    course: &mut Course,
    lent: &Json,
) -> Result<Progress, AllocError>
    requires limits { AreWithinLimits steps.now }
    requires ready { IsRunnable steps.now (seen lent.now course.old) }
    ensures leads { IfOk result (λ progress. (program : Program) → program.steps ≡ steps.now
        → StandsBefore program (seen lent.now course.old) → Leads program (seen lent.now course.new) progress) }
    ensures halts { IfOk result (λ progress. progress ≢ Progress.Going) }
    ensures err { OnErr result ((program : Program) → program.steps ≡ steps.now
        → StandsBefore program (seen lent.now course.old) → Begins program (seen lent.now course.new)) }
    ensures stays { Stays (seen lent.now course.old) (seen lent.now course.new) }
    ensures adds { Extends result (seen lent.now course.old) (seen lent.now course.new) }
    ensures room { IfOk result (λ progress. HasRoomToWait progress course.new) }
{
    'steps: while course.place < steps.len() {
        if let Some(reply) = answered_sum(alloc, steps, course.place, &course.registers, lent)? {
            return Ok(end(course, reply));
        }
        match follow(alloc, &steps[course.place], course, lent)? {
            Progress::Going => {}
            halt => return Ok(halt),
        }
    }
    Ok(Progress::Ended(Reply::Done(Json::null())))
}

/// Does the step at the course's place. Apart, since a method that answers a sum needs no other step, and these take a
/// large frame.
#[inline(never)]
fn follow(
    alloc: Global,
    step: &Step,
    course: &mut Course,
    lent: &Json,
) -> Result<Progress, AllocError>
    requires limits { KeepsLimits step.now }
    requires place { course.old.place < MOST_STEPS }
    requires turns { course.old.turn + calls_in step.now ≤ MOST_TURNS + 1 }
    requires no_waits { course.old.waits.items ≡ [] }
    ensures course { OnOk result (seen lent.now course.new
        ≡ (after_act step.now (seen lent.now course.old) (act_of (with_lent lent.now course.old.registers) step.now)).0) }
    ensures progress { IfOk result (λ progress. progress
        ≡ (after_act step.now (seen lent.now course.old) (act_of (with_lent lent.now course.old.registers) step.now)).1) }
    ensures err { OnErr result (seen lent.now course.new ≡ seen lent.now course.old) }
    ensures room { IfOk result (λ progress. HasRoomToWait progress course.new) }
{
    match whole_answer(step, &mut course.registers) {
        Some(value) => Ok(end(course, Reply::Done(value))),
        None => carry_out(alloc, step, course, lent),
    }
}

/// Does the step at the course's place, as its act says.
fn carry_out(
    alloc: Global,
    step: &Step,
    course: &mut Course,
    lent: &Json,
) -> Result<Progress, AllocError>
    requires limits { KeepsLimits step.now }
    requires place { course.old.place < MOST_STEPS }
    requires turns { course.old.turn + calls_in step.now ≤ MOST_TURNS + 1 }
    requires no_waits { course.old.waits.items ≡ [] }
    ensures course { OnOk result (seen lent.now course.new
        ≡ (after_act step.now (seen lent.now course.old) (act_of (with_lent lent.now course.old.registers) step.now)).0) }
    ensures progress { IfOk result (λ progress. progress
        ≡ (after_act step.now (seen lent.now course.old) (act_of (with_lent lent.now course.old.registers) step.now)).1) }
    ensures err { OnErr result (seen lent.now course.new ≡ seen lent.now course.old) }
    ensures room { IfOk result (λ progress. HasRoomToWait progress course.new) }
{
    match decide(alloc, step, &course.registers, lent)? {
        Act::Put(value) => put(course, step, value),
        Act::Skip(count) => {
            course.place += 1 + count as usize;
            Ok(Progress::Going)
        }
        Act::Notify(outgoing) => notify(course, outgoing),
        Act::Call(outgoing) => ask(course, Message::Call(course.turn, outgoing), 1),
        Act::Calls(calls) => {
            let count = calls.len() as u32;
            ask(course, Message::Calls(course.turn, calls), count)
        }
        Act::End(reply) => Ok(end(course, reply)),
    }
}

/// Ends the method, which needs its registers no more.
fn end(course: &mut Course, reply: Reply) -> Progress
    ensures course { (lent : Data) → seen lent course.new ≡ without_registers (seen lent course.old) }
    ensures progress { result ≡ Progress.Ended reply }
{
    course.registers.clear();
    Progress::Ended(reply)
}

fn put(course: &mut Course, step: &Step, value: Json) -> Result<Progress, AllocError>
    requires { course.old.place < MOST_STEPS }
    ensures course { OnOk result ((lent : Data) → seen lent course.new ≡ with_value step.now value (seen lent course.old)) }
    ensures progress { IfOk result (λ progress. progress ≡ Progress.Going) }
    ensures err { OnErr result ((lent : Data) → seen lent course.new ≡ seen lent course.old) }
{
    course.registers.set(register_of(step), value)?;
    course.place += 1;
    Ok(Progress::Going)
}

fn notify(course: &mut Course, outgoing: Outgoing) -> Result<Progress, AllocError>
    requires { course.old.place < MOST_STEPS }
    ensures course { OnOk result ((lent : Data) → seen lent course.new ≡
        with_notice (Message.Notice outgoing) (seen lent course.old)) }
    ensures progress { IfOk result (λ progress. progress ≡ Progress.Going) }
    ensures err { OnErr result ((lent : Data) → seen lent course.new ≡ seen lent course.old) }
{
    if let Err(refused) = make_room_for(&mut course.messages, 1) {
        drop(outgoing);
        return Err(refused);
    }
    course.messages.push_reserved(Message::Notice(outgoing));
    course.place += 1;
    Ok(Progress::Going)
}

/// Makes so many calls.
fn ask(course: &mut Course, message: Message, calls: u32) -> Result<Progress, AllocError>
    requires turns { course.old.turn + calls ≤ MOST_TURNS + 1 }
    requires no_waits { course.old.waits.items ≡ [] }
    ensures course { OnOk result ((lent : Data) → seen lent course.new ≡ asking message calls (seen lent course.old)) }
    ensures progress { IfOk result (λ progress. progress ≡ Progress.Waiting) }
    ensures err { OnErr result ((lent : Data) → seen lent course.new ≡ seen lent course.old) }
    ensures room { OnOk result (HasRoom course.new) }
{
    if let Err(refused) = make_room(course, calls) {
        drop(message);
        return Err(refused);
    }
    course.messages.push_reserved(message);
    push_turns(&mut course.waits, course.turn, calls);
    course.asked = calls;
    course.heard_before = course.heard.len();
    Ok(Progress::Waiting)
}

/// Makes room for a message, for so many turns to await, and for their replies.
fn make_room(course: &mut Course, calls: u32) -> Result<(), AllocError>
    ensures same { (lent : Data) → seen lent course.new ≡ seen lent course.old }
    ensures messages { OnOk result
        (vec_len course.new.messages + 1 ≤ vec_capacity course.new.messages) }
    ensures heard { OnOk result
        (vec_len course.new.heard + calls ≤ vec_capacity course.new.heard) }
    ensures waits { OnOk result
        (vec_len course.new.waits + calls ≤ vec_capacity course.new.waits) }
{
    make_room_for(&mut course.messages, 1)?;
    make_room_for(&mut course.heard, calls as usize)?;
    make_room_for(&mut course.waits, calls as usize)
}

/// Makes room for so many more elements. A list's first room is just that: most steps make one call, and many handlers
/// wait at once, each with three lists, for which the usual first room of four elements took 888 bytes.
fn make_room_for<T>(list: &mut Vec<T>, more: usize) -> Result<(), AllocError>
    ensures same { list.new.items ≡ list.old.items }
    ensures room { OnOk result (vec_len list.new + more ≤ vec_capacity list.new) }
{
    if list.capacity() == 0 {
        list.reserve_exact(more)
    } else {
        list.reserve(more)
    }
}

/// Awaits so many turns from this one on, for which there is room.
fn push_turns(waits: &mut Vec<u32>, turn: u32, calls: u32)
    requires room { vec_len waits.old + calls ≤ vec_capacity waits.old }
    requires turns { turn + calls ≤ MOST_TURNS + 1 }
    ensures { waits.new.items ≡ waits.old.items ++ range_with_len turn calls }
{
    for awaited in turn..turn + calls {
        waits.push_reserved(awaited);
    }
}

/// Puts the replies to the step's calls into its register, or ends with an error among them.
fn take_replies(alloc: Global, step: &Step, course: &mut Course) -> Result<Progress, AllocError>
    requires place { course.old.place < MOST_STEPS }
    requires turns { course.old.turn + course.old.asked ≤ MOST_TURNS + 1 }
    requires asked { 0 < course.old.asked }
    requires heard { course.old.heard_before ≤ length course.old.heard.items }
    ensures course { OnOk result ((lent : Data) → seen lent course.new ≡ (after_replies step.now (seen lent course.old)).0) }
    ensures progress { IfOk result (λ progress. (lent : Data) →
        progress ≡ (after_replies step.now (seen lent course.old)).1) }
    ensures err { OnErr result ((lent : Data) → seen lent course.new ≡ seen lent course.old) }
{
    let heard = &course.heard.as_slice()[course.heard_before..];
    match value_of_replies(alloc, step, heard, course.turn, course.asked)? {
        Ok(value) => {
            course.registers.set(register_of(step), value)?;
            course.place += 1;
            course.turn += course.asked;
            course.asked = 0;
            Ok(Progress::Going)
        }
        Err(reply) => Ok(Progress::Ended(reply)),
    }
}

/// The register that the step puts a value into.
pub(crate) fn register_of(step: &Step) -> &str
    ensures { result.now ≡ register_of step.now }
{
    match step {
        Step::Set { to, .. }
        | Step::Add { to, .. }
        | Step::Call { to, .. }
        | Step::Calls { to, .. }
        | Step::Each { to, .. } => to.as_str(),
        _ => "",
    }
}
