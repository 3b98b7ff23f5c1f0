//! The limits of a run.
ghost use Rattle.std.specs.Prelude.{◌≡◌, IfOk};

use crate::command_line::LimitOptions;
use program_edge::Failure;
use rpc_peer::Limits;

/// The limits that a command line asks for. It lets none through that a peer can't have.
///
/// # Errors
/// `Words` where one is over the standard limit.
pub fn limits_of(options: LimitOptions) -> Result<Limits, Failure>
    ensures content { IfOk result (λ limits. limits.content ≡ options.content) }
    ensures calls { IfOk result (λ limits. limits.numbers ≡ options.calls) }
{
    match Limits::new(options.content, options.calls) {
        Some(limits) => Ok(limits),
        None => Err(Failure::Words),
    }
}
