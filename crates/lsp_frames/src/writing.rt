//! Writing a frame.

ghost use Rattle.std.specs.Prelude.{◌≡◌, ◌≤◌, ◌<◌, ◌++◌, IfOk, OnOk, OnErr, codes, decimal, length, take};

use itoa::Buffer;
use std::alloc::{AllocError, Global};

/// No head that is written is longer: the words around a number of at most 20 digits.
const HEAD_ROOM: usize = 40;

/// The frame of a content: `Content-Length: N`, CR LF, CR LF, and the content.
pub fn encode(alloc: Global, content: &[u8]) -> Result<Vec<u8>, AllocError>
    ensures { IfOk result (λ bytes.
        bytes.items ≡ codes "Content-Length: " ++ decimal (length content.now)
        ++ codes "\r\n\r\n" ++ content.now) }
{
    let mut bytes = Vec::with_capacity(alloc, HEAD_ROOM + content.len())?;
    put_frame(&mut bytes, content)?;
    Ok(bytes)
}

/// Puts the frame of a content behind the bytes; the content is copied once.
pub fn put_frame(bytes: &mut Vec<u8>, content: &[u8]) -> Result<(), AllocError>
    ensures ok { OnOk result (bytes.new.items ≡ bytes.old.items
        ++ codes "Content-Length: " ++ decimal (length content.now)
        ++ codes "\r\n\r\n" ++ content.now) }
    ensures err { OnErr result (bytes.new.items ≡ bytes.old.items) }
{
    let before = bytes.len();
    put_head(bytes, content.len())?;
    match bytes.extend_from_slice(content) {
        Ok(()) => Ok(()),
        Err(error) => {
            bytes.truncate(before);
            Err(error)
        }
    }
}

/// Puts the head of a content of `length` bytes behind the bytes: `Content-Length: N`, CR LF, CR LF.
pub fn put_head(bytes: &mut Vec<u8>, length: usize) -> Result<(), AllocError>
    ensures ok { OnOk result (bytes.new.items ≡ bytes.old.items
        ++ codes "Content-Length: " ++ decimal length ++ codes "\r\n\r\n") }
    ensures err { OnErr result (bytes.new.items ≡ bytes.old.items) }
{
    // Most messages have a length of two or three digits. Such a head is of a size that is known when this is compiled, so
    // it is copied in place, and its room is asked for once.
    if length < 10 || length >= 1000 {
        return put_any_head(bytes, length);
    }
    if length < 100 {
        bytes.extend_from_slice(&head_of_two(length))
    } else {
        bytes.extend_from_slice(&head_of_three(length))
    }
}

/// The head of a length of two digits.
fn head_of_two(length: usize) -> [u8; 22]
    requires { (10 ≤ length) × (length < 100) }
    ensures { result ≡ codes "Content-Length: " ++ decimal length ++ codes "\r\n\r\n" }
{
    let mut head = *b"Content-Length: 00\r\n\r\n";
    head[16] = b'0' + (length / 10) as u8;
    head[17] = b'0' + (length % 10) as u8;
    head
}

/// The head of a length of three digits.
fn head_of_three(length: usize) -> [u8; 23]
    requires { (100 ≤ length) × (length < 1000) }
    ensures { result ≡ codes "Content-Length: " ++ decimal length ++ codes "\r\n\r\n" }
{
    let mut head = *b"Content-Length: 000\r\n\r\n";
    head[16] = b'0' + (length / 100) as u8;
    head[17] = b'0' + (length / 10 % 10) as u8;
    head[18] = b'0' + (length % 10) as u8;
    head
}

/// Puts the head of any length.
fn put_any_head(bytes: &mut Vec<u8>, length: usize) -> Result<(), AllocError>
    ensures ok { OnOk result (bytes.new.items ≡ bytes.old.items
        ++ codes "Content-Length: " ++ decimal length ++ codes "\r\n\r\n") }
    ensures err { OnErr result (bytes.new.items ≡ bytes.old.items) }
{
    let before = bytes.len();
    match put_head_parts(bytes, length) {
        Ok(()) => Ok(()),
        Err(error) => {
            bytes.truncate(before);
            Err(error)
        }
    }
}

/// The same; where it fails, a part of the head may stand behind the bytes.
fn put_head_parts(bytes: &mut Vec<u8>, size: usize) -> Result<(), AllocError>
    ensures ok { OnOk result (bytes.new.items ≡ bytes.old.items
        ++ codes "Content-Length: " ++ decimal size ++ codes "\r\n\r\n") }
    ensures err { OnErr result (take (length bytes.old.items) bytes.new.items ≡ bytes.old.items) }
{
    let mut digits = Buffer::new();
    bytes.extend_from_slice(b"Content-Length: ")?;
    bytes.extend_from_slice(digits.format(size).as_bytes())?;
    bytes.extend_from_slice(b"\r\n\r\n")
}
