//! Limits of a disk.

/// The most frames of a chain of cells.
pub const MOST_CHAIN: u32 = 4;
