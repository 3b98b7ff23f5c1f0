//! How long heads and contents may be.

/// `Decoder::new` takes no greater limit: no content is larger.
pub const LARGEST_CONTENT: u32 = 16_777_216;

/// `Decoder::for_long_contents` takes no greater limit: 2^31 - 1, the greatest length that every host can count in a
/// signed number of 32 bits.
pub const LONGEST_CONTENT: u32 = 2_147_483_647;

/// A head has at most so many bytes, with its empty line.
pub(crate) const LONGEST_HEAD: usize = 4096;

/// The value of a `Content-Length` has at most so many digits.
pub(crate) const LONGEST_NUMBER: usize = 10;
