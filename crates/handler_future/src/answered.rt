//! Two steps at once: one that adds, and behind it the one that answers the sum. The sum goes through no register: to set
//! one, and to take the value out of it again, took a third of such a method's run.

ghost use Rattle.std.specs.Prelude.{◌≡◌, ◌<◌, ◌↔◌, ℕ, [], length, drop, IsTrue, IfOk, IfSome};
ghost use Rattle.method_templates.specs.Locals.{with_lent};
ghost use Rattle.method_templates.specs.Shape.{place as place_of};
ghost use Rattle.method_templates.specs.declared.step.Step.TheVariants.{Answer};
ghost use Rattle.handler_future.specs.Evaluation.{Replies, eval, ended};

use crate::act::sum;
use crate::fault::StepFault;
use json_values::Json;
use method_templates::{Form, Locals, Step, Template};
use rpc_messages::Reply;
use std::alloc::{AllocError, Global};

/// What the method answers, where the step at the place adds and the next one answers the whole of its register. None
/// where they are other steps. It stands within what calls it, as a large answer is handed on.
#[inline(always)]
pub(crate) fn answered_sum(
    alloc: Global,
    steps: &[Step],
    place: usize,
    locals: &Locals,
    lent: &Json,
) -> Result<Option<Reply>, AllocError>
    requires { place < length steps.now }
    ensures { IfOk result (λ answer. IfSome answer (λ reply. (R : Replies) (turn : ℕ)
        → eval R 0 (drop place steps.now) (with_lent lent.now locals.now) turn ≡ ended reply)) }
{
    let Step::Add { to, left, right } = &steps[place] else {
        return Ok(None);
    };
    let Some(next) = steps.get(place + 1) else {
        return Ok(None);
    };
    if !answers_whole(next, to.as_str()) {
        return Ok(None);
    }
    match sum(alloc, left, right, locals, lent) {
        Ok(value) => Ok(Some(Reply::Done(value))),
        Err(StepFault::Ended(standard)) => Ok(Some(Reply::Standard(standard))),
        Err(StepFault::Memory) => Err(AllocError),
    }
}

/// Whether the step answers the whole of this register.
fn answers_whole(step: &Step, register: &str) -> bool
    ensures { IsTrue result ↔ (step.now ≡ Answer (place_of register.now [])) }
{
    match step {
        Step::Answer { value } => is_whole_of(value, register),
        _ => false,
    }
}

/// Whether the template is the whole of this register.
fn is_whole_of(template: &Template, register: &str) -> bool
    ensures { IsTrue result ↔ (template.now ≡ place_of register.now []) }
{
    match &template.form {
        Form::Place { name, pointer } => pointer.as_str().is_empty() && name.as_str() == register,
        _ => false,
    }
}
