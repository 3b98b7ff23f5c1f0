use crate::failure::Failure;
use std::io::ErrorKind;
use std::rt::Env;

/// The words of the command line, of which the first is the program's name.
///
/// # Errors
/// `Memory` where there is none for them, and `Words` where they can't be read.
pub fn read_words<R: Env + AllocGlobal>(rt: &R) -> Result<Vec<String>, Failure> {
    match std::env::args(rt) {
        Ok(words) => Ok(words.collect(rt.alloc())?),
        Err(error) if error.kind() == ErrorKind::OutOfMemory => Err(Failure::Memory),
        Err(_) => Err(Failure::Words),
    }
}
