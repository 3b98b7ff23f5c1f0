ghost use Rattle.std.specs.Prelude.{◌≡◌, ◌≤◌, IfSome, length, true};
ghost use Rattle.open_numbers.specs.SpareBlocks.{are_empty, is_empty};

use crate::kept::Kept;
use std::alloc::{AllocError, Global};

/// So many blocks of numbers that are over are kept at most.
const SPARE: usize = 128;

/// Blocks of numbers that are over, which serve again. They hold nothing of what stood in them.
#[derive(Drop)]
pub struct SpareBlocks {
    blocks: Vec<Box<Kept>>,
    ghost empty: { are_empty blocks.items ≡ true },
    ghost few: { length blocks.items ≤ 128 },
}

impl SpareBlocks {
    /// None. Takes no memory.
    pub fn new(alloc: Global) -> SpareBlocks {
        SpareBlocks {
            blocks: Vec::new(alloc),
        }
    }

    /// Makes the room for all that will be kept, once.
    pub fn make_room(&mut self) -> Result<(), AllocError> {
        if self.blocks.capacity() == 0 {
            self.blocks.reserve_exact(SPARE)?;
        }
        Ok(())
    }

    /// Takes a block, where there is one.
    pub fn take(&mut self) -> Option<Box<Kept>>
        ensures { IfSome result (λ block. is_empty (block.value) ≡ true) }
    {
        self.blocks.pop()
    }

    /// Keeps a block without what it held, where there is room for it.
    pub fn keep(&mut self, mut block: Box<Kept>) {
        if self.blocks.len() < SPARE && self.blocks.len() < self.blocks.capacity() {
            block.clear();
            self.blocks.push_reserved(block);
        } else {
            drop(block);
        }
    }
}
