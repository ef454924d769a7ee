//! The blocks of a backing device: which are free, held or owned, and how many may still be
//! written.
//!
//! A writeback reserves the least free block and holds it while it writes. Then it commits the
//! block, which a page owns from then on, or releases it. A block has one owner, since only a free
//! one is reserved.
//!
//! | State | Who has it | Left by |
//! |---|---|---|
//! | free | nobody | `reserve`, to held |
//! | held | one writeback | `commit`, to owned; `release`, to free |
//! | owned | one page | `release`, to free |
//! | left | readers of a page that is gone | nothing yet |
#![tactic(auto)]

mod blocks;
mod state;
#[cfg(test)]
mod tests;
mod tree;

pub use blocks::{Blocks, Reserve};
pub use state::BlockState;
