//! Where bytes lie that are lent.

ghost use Rattle.std.specs.Prelude.{◌≡◌};
ghost use Rattle.std.specs.Vec.{vec_ptr};
ghost use denote.RawPtr.{InBlock, ◌+ₚ◌};

/// A `Vec` that is lent points to a block, and so never to nothing.
fn not_null(bytes: &Vec<u8>)
    ensures { InBlock (vec_ptr bytes.now) }
{}

/// The place of a byte.
pub(crate) fn place_of(bytes: &Vec<u8>, start: usize) -> *const u8
    ensures { result ≡ vec_ptr bytes.now +ₚ start }
{
    not_null(bytes);
    unsafe { bytes.as_ptr().byte_add(start) }
}
