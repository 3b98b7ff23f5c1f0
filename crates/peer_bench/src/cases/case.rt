//! A case: a stream of bytes, and how it is run.
use std::alloc::{AllocError, Global};

/// How a stream is run.
#[derive(Clone, Copy)]
pub enum Way<'a> {
    /// On one thread, lazily or eagerly, with the picks of this word.
    Play { lazy: bool, picks: &'a str },
    /// By so many workers.
    Serve { workers: u32 },
}

/// A stream of bytes, and how it is run.
#[derive(Clone, Copy)]
pub struct Case<'a> {
    pub way: Way<'a>,
    /// How many bytes each piece of the stream has, as a word. What is left behind these is a piece too.
    pub sizes: &'a str,
    pub stream: &'a [u8],
}

/// The stream in pieces of these sizes, and of what is left.
pub fn pieces(alloc: Global, sizes: &[u32], stream: &[u8]) -> Result<Vec<Vec<u8>>, AllocError> {
    let mut pieces = Vec::new(alloc);
    let mut rest = stream;
    for size in sizes {
        let (piece, later) = rest.split_at((*size as usize).min(rest.len()));
        pieces.push(piece.to_vec(alloc)?)?;
        rest = later;
    }
    pieces.push(rest.to_vec(alloc)?)?;
    Ok(pieces)
}
