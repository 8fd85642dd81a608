//! Blocks that are overwritten before their memory is freed.
ghost use Rattle.std.specs.Prelude.{◌≡◌, length, replicate};

use crate::block::Block;
use crate::wiped_blocks::WipedBlocks;

/// The blocks of a matrix, lane after lane, or the address blocks of lanes. The tag can be computed
/// from a matrix, and a guess be tested against its first blocks, so the memory goes back to the
/// heap with zeros alone; so does that of address blocks, in which a block of a matrix could be left.
pub(crate) struct Blocks {
    pub(crate) held: WipedBlocks,
}

impl Drop for Blocks {
    fn drop(self) {
        let Blocks { mut held } = self;
        wipe(held.blocks_mut());
        held.free();
    }
}

// Puts a 0 in the place of each word.
#[inline(never)]
fn wipe(blocks: &mut [Block])
    ensures zeros { blocks.new ≡ replicate (length blocks.old) (replicate 128 0) }
{
    for i in 0..blocks.len() {
        blocks[i].fill(0);
    }
}
