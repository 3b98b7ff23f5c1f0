//! Streams that are made of texts, and their pieces.
use std::alloc::{AllocError, Global};

/// The bytes of the texts, one behind the other.
pub fn texts(alloc: Global, texts: &[&str]) -> Result<Vec<u8>, AllocError> {
    let mut all = Vec::new(alloc);
    for text in texts {
        all.extend_from_slice(text.as_bytes())?;
    }
    Ok(all)
}

/// Copies of the pieces.
pub fn owned(alloc: Global, pieces: &[&[u8]]) -> Result<Vec<Vec<u8>>, AllocError> {
    let mut owned = Vec::new(alloc);
    for piece in pieces {
        owned.push(piece.to_vec(alloc)?)?;
    }
    Ok(owned)
}

/// The bytes in pieces of one byte each.
pub fn bytewise(alloc: Global, bytes: &[u8]) -> Result<Vec<Vec<u8>>, AllocError> {
    let pieces: Vec<&[u8]> = bytes.chunks(1).collect(alloc)?;
    owned(alloc, pieces.as_slice())
}

/// Whether these are the texts, one behind the other.
pub fn is_made_of(bytes: &[u8], texts: &[&str]) -> bool {
    let mut rest = bytes;
    for text in texts {
        match rest.strip_prefix(text.as_bytes()) {
            Some(behind) => rest = behind,
            None => return false,
        }
    }
    rest.is_empty()
}
