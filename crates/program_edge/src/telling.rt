//! What a program writes of itself, and the status that it then ends with.
ghost use Rattle.std.specs.Prelude.{◌≡◌, ◌≢◌, OnOk, IfErr};

use crate::failure::Failure;
use crate::refusal::Refusal;
use clap::error::ErrorKind;
use std::io::Write;

/// Tells why the program gave up, where it did, and gives the status.
pub fn tell_end<W: Write>(outcome: Result<(), Failure>, errors: &mut W) -> u8
    ensures well { OnOk outcome (result ≡ 0) }
    ensures words { IfErr outcome (λ failure. failure ≡ Failure.Words → result ≡ 2) }
    ensures others { IfErr outcome (λ failure. failure ≢ Failure.Words → result ≡ 1) }
{
    match outcome {
        Ok(()) => 0,
        Err(failure) => {
            let _ = writeln!(errors, "{failure}");
            failure.status()
        }
    }
}

/// Writes the text of a command line that asks for no work, and gives the status: 0 for help and the version, 2 where the
/// words are refused, 1 where the text can't be written.
pub fn answer_words<W: Write, E: Write>(refusal: &Refusal, output: &mut W, errors: &mut E) -> u8 {
    let error = &refusal.error;
    if error.kind() == ErrorKind::OutOfMemory {
        return tell_end(Err(Failure::Memory), errors);
    }
    if error.use_stderr() {
        let _ = write!(errors, "{error}");
        return 2;
    }
    if write!(output, "{error}").is_err() || output.flush().is_err() {
        return tell_end(Err(Failure::Write), errors);
    }
    0
}
