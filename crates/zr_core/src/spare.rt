//! The device and the map of its blocks, before the disk's size is given.

use backing_dev::{Backing, Dev};
use block_map::Blocks;

/// What stands beside the row before there is one.
#[derive(Drop)]
pub struct Spare<D: Backing> {
    pub device: Dev<D>,
    pub blocks: Blocks,
}
