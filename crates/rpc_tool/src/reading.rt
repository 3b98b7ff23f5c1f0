//! A reader, read to its end.
use program_edge::Failure;
use std::alloc::AllocError;
use std::io::Read;

/// How many reads the program makes before it gives up on a reader that doesn't end.
const MOST_READS: u32 = 1_000_000;

/// What takes bytes as they are read.
pub trait Taker {
    /// Takes more bytes.
    fn take(&mut self, bytes: &[u8]) -> Result<(), AllocError>;
}

impl Taker for Vec<u8> {
    fn take(&mut self, bytes: &[u8]) -> Result<(), AllocError> {
        self.extend_from_slice(bytes)
    }
}

/// Gives all bytes of a reader to a taker, as many at a time as there is room for.
///
/// # Errors
/// `Read` where the reader fails or hasn't ended after 1,000,000 reads, `Memory` where a growth is refused.
pub fn read_all<I: Read, T: Taker>(
    input: &mut I,
    room: &mut [u8],
    taker: &mut T,
) -> Result<(), Failure> {
    for _ in 0..MOST_READS {
        match input.read(room) {
            Ok(0) => return Ok(()),
            Ok(count) => taker.take(&room[..count])?,
            Err(_) => return Err(Failure::Read),
        }
    }
    Err(Failure::Read)
}
