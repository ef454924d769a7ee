//! The least free block, found by a tournament.
//!
//! `n` blocks take `2 n` places. Place `n + b` has the number `b` while block `b` is free, else
//! `NONE`. Each place `j` from 1 to `n - 1` has the lesser number of places `2 j` and `2 j + 1`, so
//! place 1 has the least free block. Place 0 is not used.
//!
//! ```text
//! n = 4, block 0 taken:            1: 1
//!                          2: 1            3: 2
//!                      4: NONE  5: 1    6: 2   7: 3
//! ```

ghost use Rattle.std.specs.Prelude.{◌≡◌, ◌≢◌, ℕ, ◌+◌, ◌-◌, ◌*◌, ◌^◌, ◌<◌, ◌≤◌, length, slice_index, vec_len, IfOk, IfSome, IfNone, ◌⊎◌};
ghost use Rattle.block_map.specs.Tree.{IsBlockTree, IsRoot, HasOwnNumbers, KeepsLeavesBut};

use std::alloc::{AllocError, Global};

/// Stands for no block: there are fewer blocks than this number.
pub const NONE: u32 = u32::MAX;

/// The tree of `blocks` blocks, all of them free.
pub fn all_free(alloc: Global, blocks: u32) -> Result<Vec<u32>, AllocError>
    ensures tree { IfOk result (λ tree. IsBlockTree tree.items blocks) }
    ensures leaves { IfOk result (λ tree. HasOwnNumbers tree.items blocks) }
{
    let mut tree = leaves(alloc, blocks)?;
    settle(&mut tree, blocks as usize);
    Ok(tree)
}

/// The least free block, if there is one.
pub fn least(tree: &[u32]) -> Option<u32>
    ensures found { IfSome result (IsRoot tree.now) }
    ensures none { IfNone result (NONE ≤ slice_index tree.now 1 ⊎ length tree.now ≤ 1) }
{
    tree.get(1).copied().filter(|number| *number < NONE)
}

fn leaves(alloc: Global, blocks: u32) -> Result<Vec<u32>, AllocError>
    ensures places { IfOk result (λ tree. vec_len tree ≡ 2 * blocks) }
    ensures leaves { IfOk result (λ tree. HasOwnNumbers tree.items blocks) }
{
    let mut tree = Vec::with_capacity(alloc, 2 * blocks as usize)?;
    tree.resize(blocks as usize, NONE)?;
    for block in 0..blocks {
        tree.push(block)?;
    }
    Ok(tree)
}

// Settles all places above the leaves, from the last one up.
fn settle(tree: &mut [u32], blocks: usize)
    requires { length tree.old ≡ 2 * blocks }
    ensures tree { IsBlockTree tree.new blocks }
    ensures leaves { (k : ℕ) → blocks ≤ k → slice_index tree.new k ≡ slice_index tree.old k }
{
    for at in (1..blocks).rev() {
        tree[at] = tree[2 * at].min(tree[2 * at + 1]);
    }
}

/// Puts a number at a block's place, and settles the places above it.
pub fn put(tree: &mut [u32], blocks: usize, block: usize, number: u32)
    requires tree { IsBlockTree tree.old blocks }
    requires block { block < blocks }
    ensures tree { IsBlockTree tree.new blocks }
    ensures leaf { slice_index tree.new (blocks + block) ≡ number }
    ensures others { KeepsLeavesBut tree.old tree.new blocks block }
{
    let leaf = blocks + block;
    tree[leaf] = number;
    let mut at = leaf / 2;
    while at > 0 {
        tree[at] = tree[2 * at].min(tree[2 * at + 1]);
        at /= 2;
    }
}
