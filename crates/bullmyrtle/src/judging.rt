//! The calls for C that have a judge, each over a handle.

ghost use Rattle.std.specs.Prelude.{◌≡◌, None};
ghost use Rattle.std.specs.Borrow.{sem};
ghost use Rattle.std.specs.Ptr.{room_at};
ghost use base.Fml.{fex};
ghost use Rattle.bullmyrtle.specs.JudgeMade.{IsMade, Given, IsGivenBy};
ghost use Rattle.bullmyrtle.specs.JudgePlaces.{held_at};
ghost use Rattle.bullmyrtle.specs.JudgeValues.{value_of};
ghost use Rattle.bullmyrtle.specs.contracts.judge_handle.JudgeHandle.{the_row as handle_row};
ghost use Rattle.judge_calls.specs.Codes.{Said, code_of_said};
ghost use Rattle.judge_calls.specs.Options.{asked_by};
ghost use Rattle.judge_calls.specs.Seeing.{HasSeen, wrote_by, ended_by};
ghost use Rattle.judge_calls.specs.Telling.{HasTold};

use crate::judge_handle::JudgeHandle;
use crate::judge_place::JudgePlace;
use judge_calls::{HostFinding, HostedJudge, JudgeOptions, code_of};
use std::alloc::Global;

/// Makes a new judge by options. Its handle lies at `at` then, or where the answer isn't `BM_OK`, room for one as before.
#[unsafe(no_mangle)]
pub unsafe extern "C" fn bm_judge_open(
    alloc: Global,
    options: &JudgeOptions,
    at: *mut JudgeHandle,
) -> i32
    requires* { sem 𝓛 (room_at handle_row at) }
    ensures* handed { sem 𝓛 (fex (Given (asked_by options.now) result) (λ given. held_at at given.0)) }
    ensures code { IsMade (asked_by options.now) result }
{
    let (code, place) = made(alloc, options, JudgePlace { at });
    let JudgePlace { at: _ } = place;
    code
}

/// Makes a new one and puts its handle into this place, where there is such a judge and memory.
fn made(alloc: Global, options: &JudgeOptions, place: JudgePlace) -> (i32, JudgePlace)
    requires { place.held ≡ None }
    ensures code { IsMade (asked_by options.now) result.0 }
    ensures place { result.1.at ≡ place.at }
    ensures held { IsGivenBy (asked_by options.now) result.0 result.1.held }
{
    let Some(asked) = options.asked() else {
        return (7, place);
    };
    match Box::new(alloc, HostedJudge::new(alloc, asked)) {
        Ok(judge) => (0, place.put(JudgeHandle::of(judge))),
        Err(_) => (1, place),
    }
}

/// Frees it.
#[unsafe(no_mangle)]
pub extern "C" fn bm_judge_free(handle: JudgeHandle) {
    drop(handle.into_box());
}

/// A side wrote these bytes.
#[unsafe(no_mangle)]
pub extern "C" fn bm_judge_saw(handle: &mut JudgeHandle, side: u32, bytes: &[u8]) -> i32
    ensures { (said : Said) × (result ≡ code_of_said said) ×
        HasSeen (value_of handle.old).judge (value_of handle.new).judge (wrote_by side bytes.now) said }
{
    code_of(handle.as_mut().saw(side, bytes))
}

/// A side's stream ended.
#[unsafe(no_mangle)]
pub extern "C" fn bm_judge_ended(handle: &mut JudgeHandle, side: u32, how: u32) -> i32
    ensures { (said : Said) × (result ≡ code_of_said said) ×
        HasSeen (value_of handle.old).judge (value_of handle.new).judge (ended_by side how) said }
{
    code_of(handle.as_mut().ended(side, how))
}

/// Moves the first findings that weren't told.
#[unsafe(no_mangle)]
pub extern "C" fn bm_judge_next(handle: &mut JudgeHandle, room: &mut [HostFinding]) -> usize
    ensures { HasTold (value_of handle.old).judge (value_of handle.new).judge room.old room.new result }
{
    handle.as_mut().tell(room)
}
