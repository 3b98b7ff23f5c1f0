//! What frames are gathered in.

ghost use Rattle.std.specs.Prelude.{◌≡◌, ◌++◌, ◌∷◌, [], List, OnOk};
ghost use Rattle.lsp_frames.specs.declared.frame.Frame.{Frame as OneFrame};

use crate::frame::Frame;
use crate::frames::Frames;
use std::alloc::{AllocError, Global};

/// Frames are put into it, one behind the other.
pub(crate) trait Gathering {
    /// Those that it has.
    ghost gathered: { Self → List OneFrame };

    /// Puts a frame behind the others.
    fn put(&mut self, alloc: Global, content: &[u8], foreign: bool) -> Result<(), AllocError>
        ensures { OnOk result (gathered self.new ≡ gathered self.old
            ++ record { content = content.now; foreign = foreign } ∷ []) };
}

impl Gathering for Vec<Frame> {
    ghost gathered = { λ frames. frames.items };

    fn put(&mut self, alloc: Global, content: &[u8], foreign: bool) -> Result<(), AllocError> {
        let content = Vec::from_slice(alloc, content)?.into();
        self.push(Frame { content, foreign })?;
        Ok(())
    }
}

impl Gathering for Frames {
    ghost gathered = { λ frames. frames };

    fn put(&mut self, _alloc: Global, content: &[u8], foreign: bool) -> Result<(), AllocError> {
        self.push(content, foreign)
    }
}
