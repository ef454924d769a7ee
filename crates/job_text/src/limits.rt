//! The limits of a job that the reader alone counts; those that lower layers rest on too are
//! `zr_base`'s.

/// The most bytes of a job's text.
pub const MOST_BYTES: usize = 16_777_216;

/// The greatest limit on memory, in pages of 4096 bytes: 1 TiB.
pub const MOST_LIMIT_PAGES: u64 = 268_435_456;

/// The most blocks of a backing device that a job uses; a block has 4096 bytes.
pub const MOST_BLOCKS: u32 = 65_536;

/// The greatest limit on writebacks, in units of 4096 bytes: 16 TiB.
pub const MOST_BUDGET: u64 = 4_294_967_296;

/// The most phases of a job.
pub const MOST_PHASES: u32 = 1000;

/// The most pieces of the requests of a job: for each request, the pages that it touches.
pub const MOST_PIECES: u32 = 1_048_576;

/// The most sectors that the operations of a job read.
pub const MOST_SECTORS_READ: u32 = 262_144;

/// The most pages that the operations of a job scan: for each `idle` and each `writeback`, the pages of
/// the disk, by the job's first `disksize`.
pub const MOST_SCANNED: u32 = 16_777_216;

/// The most turns in all schedules of a job.
pub const MOST_TURNS: u32 = 16_777_216;

/// The most pages of the disk of a generated job.
pub const MOST_GENERATED: u32 = 16_384;
