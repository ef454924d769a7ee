//! The limits that more than one layer rests on.

/// The most pages of a disk; a page has 4096 bytes.
pub const MOST_PAGES: u32 = 262_144;

/// The most sectors of a request; a sector has 512 bytes.
pub const MOST_SECTORS: u32 = 2048;

/// The most actors of a phase.
pub const MOST_ACTORS: usize = 64;

/// The most operations of a job, and so of a phase.
pub const MOST_OPERATIONS: u32 = 1_000_000;
