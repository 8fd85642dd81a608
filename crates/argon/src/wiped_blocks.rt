//! Lists of blocks, which leave this file in no other way than as blocks that are lent: what has one can't make it grow,
//! nor take memory from its heap.
ghost use Rattle.std.specs.Prelude.{◌≡◌, length, replicate, vec_len};
ghost use Rattle.std.specs.Borrow.{sem};
ghost use Rattle.argon.specs.Inside.WipedBlocks.{LendsMutableBlocks};

use crate::block::Block;

/// Blocks that a source of memory grants. They are let go of as they are, so nobody can write to them
/// before a matrix or lanes hold them.
#[derive(Drop)]
pub struct GrantedBlocks {
    list: Vec<Block>,
}

impl GrantedBlocks {
    /// The blocks of this list.
    pub fn new(list: Vec<Block>) -> GrantedBlocks
        ensures list { result.list ≡ list }
    {
        GrantedBlocks { list }
    }
}

/// A list of blocks that can be let go of by [`WipedBlocks::free`] alone, when each word of each block in it is
/// 0. It has no `Drop`, so that it cannot be forgotten, and it lends its blocks, never the list, so that
/// none can be cut off.
pub(crate) struct WipedBlocks {
    list: Vec<Block>,
}

impl WipedBlocks {
    /// Takes the blocks in.
    pub(crate) fn new(granted: GrantedBlocks) -> WipedBlocks
        ensures list { result.list ≡ granted.list }
    {
        let GrantedBlocks { list } = granted;
        WipedBlocks { list }
    }

    /// The blocks.
    #[inline(always)]
    pub(crate) fn blocks(&self) -> &[Block]
        ensures value { result.now ≡ self.now.list.items }
    {
        self.list.as_slice()
    }

    /// The blocks, to be written: as many as before.
    #[inline(always)]
    pub(crate) fn blocks_mut(&mut self) -> &mut [Block]
        ensures* writes_back { sem 𝓛 (LendsMutableBlocks self.entry result) }
        ensures value { result.now ≡ self.old.list.items }
        ensures len { length result.now ≡ vec_len self.old.list }
    {
        self.list.as_mut_slice()
    }

    /// Frees a list in which nothing is left.
    pub(crate) fn free(self)
        requires wiped { self.list.items ≡ replicate (length self.list.items) (replicate 128 0) }
    {
        let WipedBlocks { list: _freed } = self;
    }
}
