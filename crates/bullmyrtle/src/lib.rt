//! The calls for C, each over a handle: a pointer that owns what it points to. `include/bullmyrtle.h` tells their users
//! about them.
#![tactic(auto)]

ghost use Rattle.std.specs.Prelude.{◌≡◌, ◌≢◌, ◌↔◌, ◌+◌, ◌≤◌, [], List, None, IsTrue};
ghost use Rattle.std.specs.Borrow.{sem};
ghost use Rattle.std.specs.Ptr.{room_at};
ghost use base.Fml.{fex};
ghost use Rattle.content_streams.specs.declared.framing.Framing.TheVariants.{Contents};
ghost use Rattle.connection_history.specs.declared.event.Event.{Event};
ghost use Rattle.connection_history.specs.History.{History};
ghost use Rattle.connection.specs.Connections.{StandsAfter, output};
ghost use Rattle.connection.specs.Reports.{report_of};
ghost use Rattle.bullmyrtle.specs.Counts.{as_c};
ghost use Rattle.bullmyrtle.specs.Places.{held_at};
ghost use Rattle.bullmyrtle.specs.contracts.handle.Handle.{the_row as handle_row};
ghost use Rattle.bullmyrtle.specs.Made.{chosen_by, IsMade, Given, IsGivenBy};
ghost use Rattle.bullmyrtle.specs.Values.{value_of};
ghost use Rattle.host_calls.specs.Codes.{Said, code_of_said};
ghost use Rattle.host_calls.specs.Feeding.{HasFed, HasFaultAt};
ghost use Rattle.host_calls.specs.Hosting.{Asked, HasLent, HasGone, IsDone, SameLoans, lent_room, output_at, pending};
ghost use Rattle.host_calls.specs.Saying.{HasEnded, HasCalled, HasCalledAll, HasNotified, HasWithdrawn, HasAnswered, HasFailed, HasCancelled};
ghost use Rattle.host_calls.specs.Sayings.{HasSaidAll};
ghost use Rattle.outbox.specs.Output.{IsAllTaken};

mod handle;
mod judge_handle;
mod judge_place;
mod judging;
mod loose;
mod place;
mod report;
mod settings;

use handle::Handle;
use host_calls::{HostedConnection, LentEvent, Saying, code_of};
use place::Place;
use report::Report;
use settings::Options;
use std::alloc::Global;

/// As in the header.
const INTERFACE: u32 = 1;

/// The version of these calls.
#[unsafe(no_mangle)]
pub extern "C" fn bm_interface() -> u32
    ensures { result ≡ 1 }
{
    INTERFACE
}

/// Makes a new one by options. Its handle lies at `at` then, or where the answer isn't `BM_OK`, room for one as before.
#[unsafe(no_mangle)]
pub unsafe extern "C" fn bm_open(alloc: Global, options: &Options, at: *mut Handle) -> i32
    requires* { sem 𝓛 (room_at handle_row at) }
    ensures* handed { sem 𝓛 (fex (Given (chosen_by options.now) result) (λ given. held_at at given.0)) }
    ensures code { IsMade (chosen_by options.now) result }
{
    let (code, place) = opened(alloc, options, Place { at });
    let Place { at: _ } = place;
    code
}

fn opened(alloc: Global, options: &Options, place: Place) -> (i32, Place)
    requires { place.held ≡ None }
    ensures code { IsMade (chosen_by options.now) result.0 }
    ensures place { result.1.at ≡ place.at }
    ensures held { IsGivenBy (chosen_by options.now) result.0 result.1.held }
{
    put_new(alloc, options.chosen(), place)
}

/// Makes a new one and puts its handle into this place, where there are such settings and memory.
fn put_new(alloc: Global, asked: Option<connection::Settings>, place: Place) -> (i32, Place)
    requires { place.held ≡ None }
    ensures code { IsMade asked result.0 }
    ensures place { result.1.at ≡ place.at }
    ensures held { IsGivenBy asked result.0 result.1.held }
{
    let Some(chosen) = asked else {
        return (7, place);
    };
    match Box::new(alloc, HostedConnection::new(alloc, chosen)) {
        Ok(connection) => (0, place.put(Handle::of(connection))),
        Err(_) => (1, place),
    }
}

/// Frees it.
#[unsafe(no_mangle)]
pub extern "C" fn bm_free(handle: Handle) {
    drop(handle.into_box());
}

/// Feeds bytes of the input.
#[unsafe(no_mangle)]
pub extern "C" fn bm_feed(handle: &mut Handle, bytes: &[u8]) -> i32
    ensures said { (said : Said) × (result ≡ code_of_said said) ×
        HasFed (value_of handle.old).outlet (value_of handle.new).outlet bytes.now said }
    ensures lent { SameLoans (value_of handle.old) (value_of handle.new) }
{
    code_of(handle.as_mut().outlet.feed(bytes))
}

/// Says how the input ended.
#[unsafe(no_mangle)]
pub extern "C" fn bm_end(handle: &mut Handle, how: u32) -> i32
    ensures said { (said : Said) × (result ≡ code_of_said said) ×
        HasEnded (value_of handle.old).outlet (value_of handle.new).outlet how said }
    ensures lent { SameLoans (value_of handle.old) (value_of handle.new) }
{
    code_of(handle.as_mut().outlet.end(how))
}

/// Whether the input is at fault, and where.
#[unsafe(no_mangle)]
pub extern "C" fn bm_fault_at(handle: &mut Handle, place: &mut u64) -> bool
    ensures fault { HasFaultAt (value_of handle.old).outlet place.old place.new result }
    ensures same { value_of handle.new ≡ value_of handle.old }
{
    handle.as_mut().outlet.fault_at(place)
}

/// Tells the next event, and lends its texts.
#[unsafe(no_mangle)]
pub extern "C" fn bm_next(handle: &mut Handle, event: &mut LentEvent) -> i32
    ensures { (said : Said) × (result ≡ code_of_said said) ×
        Asked (value_of handle.old) (value_of handle.new) event.old event.new said }
{
    code_of(handle.as_mut().tell(event))
}

/// Says several things.
#[unsafe(no_mangle)]
pub extern "C" fn bm_say_all(
    handle: &mut Handle,
    sayings: &mut [Saying],
    bytes: &[u8],
    refused: &mut usize,
) -> i32
    ensures said { (said : Said) × (result ≡ code_of_said said) ×
        HasSaidAll (value_of handle.old).outlet (value_of handle.new).outlet sayings.old sayings.new bytes.now refused.old refused.new said }
    ensures lent { SameLoans (value_of handle.old) (value_of handle.new) }
{
    code_of(handle.as_mut().outlet.say_all(sayings, bytes, refused))
}

/// Calls the other side.
#[unsafe(no_mangle)]
pub extern "C" fn bm_call(
    handle: &mut Handle,
    number: u64,
    method: &[u8],
    params: &[u8],
    key: &mut u64,
) -> i32
    ensures said { (said : Said) × (result ≡ code_of_said said) ×
        HasCalled (value_of handle.old).outlet (value_of handle.new).outlet number method.now params.now key.old key.new said }
    ensures lent { SameLoans (value_of handle.old) (value_of handle.new) }
{
    code_of(handle.as_mut().outlet.call(number, method, params, key))
}

/// Calls the other side several times.
#[unsafe(no_mangle)]
pub extern "C" fn bm_call_batch(
    handle: &mut Handle,
    number: u64,
    bytes: &[u8],
    lengths: &[usize],
    first: &mut u64,
) -> i32
    ensures said { (said : Said) × (result ≡ code_of_said said) ×
        HasCalledAll (value_of handle.old).outlet (value_of handle.new).outlet number bytes.now lengths.now first.old first.new said }
    ensures lent { SameLoans (value_of handle.old) (value_of handle.new) }
{
    code_of(
        handle
            .as_mut()
            .outlet
            .call_batch(number, bytes, lengths, first),
    )
}

/// Notifies the other side.
#[unsafe(no_mangle)]
pub extern "C" fn bm_notify(handle: &mut Handle, method: &[u8], params: &[u8]) -> i32
    ensures said { (said : Said) × (result ≡ code_of_said said) ×
        HasNotified (value_of handle.old).outlet (value_of handle.new).outlet method.now params.now said }
    ensures lent { SameLoans (value_of handle.old) (value_of handle.new) }
{
    code_of(handle.as_mut().outlet.notify(method, params))
}

/// Withdraws a call.
#[unsafe(no_mangle)]
pub extern "C" fn bm_withdraw(handle: &mut Handle, key: u64) -> i32
    ensures said { (said : Said) × (result ≡ code_of_said said) ×
        HasWithdrawn (value_of handle.old).outlet (value_of handle.new).outlet key said }
    ensures lent { SameLoans (value_of handle.old) (value_of handle.new) }
{
    code_of(handle.as_mut().outlet.withdraw(key))
}

/// Answers a request with a result, or closes a notification.
#[unsafe(no_mangle)]
pub extern "C" fn bm_answer(handle: &mut Handle, number: u64, bytes: &[u8]) -> i32
    ensures said { (said : Said) × (result ≡ code_of_said said) ×
        HasAnswered (value_of handle.old).outlet (value_of handle.new).outlet number bytes.now said }
    ensures lent { SameLoans (value_of handle.old) (value_of handle.new) }
{
    code_of(handle.as_mut().outlet.answer(number, bytes))
}

/// Closes a notification.
#[unsafe(no_mangle)]
pub extern "C" fn bm_close_call(handle: &mut Handle, number: u64) -> i32
    ensures said { (said : Said) × (result ≡ code_of_said said) ×
        HasAnswered (value_of handle.old).outlet (value_of handle.new).outlet number [] said }
    ensures lent { SameLoans (value_of handle.old) (value_of handle.new) }
{
    code_of(handle.as_mut().outlet.close(number))
}

/// Answers a request with an error, or closes a notification.
#[unsafe(no_mangle)]
pub extern "C" fn bm_fail(
    handle: &mut Handle,
    number: u64,
    code: i64,
    message: &[u8],
    extra: &[u8],
) -> i32
    ensures said { (said : Said) × (result ≡ code_of_said said) ×
        HasFailed (value_of handle.old).outlet (value_of handle.new).outlet number code message.now extra.now said }
    ensures lent { SameLoans (value_of handle.old) (value_of handle.new) }
{
    code_of(handle.as_mut().outlet.fail(number, code, message, extra))
}

/// Answers a request as cancelled.
#[unsafe(no_mangle)]
pub extern "C" fn bm_cancel(handle: &mut Handle, number: u64) -> i32
    ensures said { (said : Said) × (result ≡ code_of_said said) ×
        HasCancelled (value_of handle.old).outlet (value_of handle.new).outlet number said }
    ensures lent { SameLoans (value_of handle.old) (value_of handle.new) }
{
    code_of(handle.as_mut().outlet.cancel(number))
}

/// Lends what is to be written.
#[unsafe(no_mangle)]
pub extern "C" fn bm_output(handle: &mut Handle, at: &mut *const u8) -> usize
    ensures at { at.new ≡ output_at (value_of handle.new) }
    ensures lent { HasLent (value_of handle.old) (value_of handle.new) result }
{
    handle.as_mut().lend(at)
}

/// So many of the lent bytes were written.
#[unsafe(no_mangle)]
pub extern "C" fn bm_written(handle: &mut Handle, count: usize) -> i32
    ensures { (said : Said) × (result ≡ code_of_said said) ×
        HasGone (value_of handle.old) (value_of handle.new) count said }
{
    code_of(handle.as_mut().written(count))
}

/// How many bytes are to be written.
#[unsafe(no_mangle)]
pub extern "C" fn bm_pending(handle: &mut Handle) -> usize
    ensures count { result ≡ pending (value_of handle.old) }
    ensures same { value_of handle.new ≡ value_of handle.old }
{
    handle.as_mut().pending()
}

/// For how many bytes its buffers have room.
#[unsafe(no_mangle)]
pub extern "C" fn bm_held(handle: &mut Handle) -> usize
    ensures all { (output (value_of handle.old).outlet.connection).framing ≢ Contents →
        pending (value_of handle.old) ≤ result }
    ensures little { IsAllTaken (output (value_of handle.old).outlet.connection) →
        result ≤ 73728 + lent_room (value_of handle.old) }
    ensures same { value_of handle.new ≡ value_of handle.old }
{
    handle.as_mut().held()
}

/// Whether all is done.
#[unsafe(no_mangle)]
pub extern "C" fn bm_is_done(handle: &mut Handle) -> bool
    ensures done { (history : History) (told : List Event) → StandsAfter (value_of handle.old).outlet.connection history told →
        (IsTrue result ↔ IsDone (value_of handle.old) history told) }
    ensures same { value_of handle.new ≡ value_of handle.old }
{
    handle.as_mut().is_done()
}

/// Writes what has happened so far.
#[unsafe(no_mangle)]
pub extern "C" fn bm_counts(handle: &mut Handle, report: &mut Report)
    ensures counts { (history : History) (told : List Event) → StandsAfter (value_of handle.old).outlet.connection history told →
        report.new ≡ as_c (report_of (value_of handle.old).outlet.connection.settings.order history) }
    ensures same { value_of handle.new ≡ value_of handle.old }
{
    *report = Report::of(&handle.as_mut().outlet.connection);
}
