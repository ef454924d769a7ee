//! What a block is used for.

ghost use Rattle.std.specs.Prelude.{◌≡◌};

use crate::tree::NONE;

/// Who has a block.
#[derive(Clone, Copy, PartialEq, Eq, Debug)]
pub enum BlockState {
    /// Nobody: the block may be reserved.
    Free,
    /// One writeback, between its reservation and its commit or release.
    Held,
    /// One page, whose contents the block has.
    Owned,
    /// Readers alone: the page gave the block up while they were reading it.
    Left,
}

impl BlockState {
    ghost use Rattle.block_map.specs.BlockMap.{owned_of};
    ghost use Rattle.block_map.specs.Tree.{block_number};

    /// 1 where a page owns the block, else 0.
    pub fn owned(self) -> u32
        ensures { result ≡ owned_of self }
    {
        match self {
            BlockState::Owned => 1,
            BlockState::Free | BlockState::Held | BlockState::Left => 0,
        }
    }

    /// The number at the block's place in the tree of free blocks.
    pub fn number(self, block: u32) -> u32
        ensures { result ≡ block_number self block }
    {
        match self {
            BlockState::Free => block,
            BlockState::Held | BlockState::Owned | BlockState::Left => NONE,
        }
    }
}
