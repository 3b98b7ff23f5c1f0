//! Writing a text.

ghost use Rattle.std.specs.Prelude.{◌≡◌, ◌++◌, ◌∷◌, [], OnOk, OnErr};
ghost use Rattle.stream_framing.specs.Framed.{framed};

use crate::framing::Framing;
use lsp_frames::put_frame;
use std::alloc::AllocError;

/// Puts a text behind the bytes, as this framing writes it.
pub fn put_text(bytes: &mut Vec<u8>, framing: Framing, text: &[u8]) -> Result<(), AllocError>
    ensures ok { OnOk result (bytes.new.items ≡ bytes.old.items ++ framed framing text.now) }
    ensures err { OnErr result (bytes.new.items ≡ bytes.old.items) }
{
    match framing {
        Framing::Frames => put_frame(bytes, text),
        Framing::Lines => put_line(bytes, text),
    }
}

fn put_line(bytes: &mut Vec<u8>, text: &[u8]) -> Result<(), AllocError>
    ensures ok { OnOk result (bytes.new.items ≡ bytes.old.items ++ text.now ++ 10 ∷ []) }
    ensures err { OnErr result (bytes.new.items ≡ bytes.old.items) }
{
    let before = bytes.len();
    bytes.extend_from_slice(text)?;
    match bytes.push(b'\n') {
        Ok(()) => Ok(()),
        Err(_) => {
            bytes.truncate(before);
            Err(AllocError)
        }
    }
}
