//! What the account is told: how a page is kept, and what happened.

/// How much of a disk's memory one page takes, by the form that it is kept in.
#[derive(Clone, Copy, PartialEq, Eq, Debug)]
pub enum Weight {
    /// A page that reads as zeros and takes nothing.
    Empty,
    /// A page of one repeated word of 8 bytes.
    Same,
    /// A page in the pool, packed in so many bytes.
    Packed(u32),
    /// A page in the pool, as its 4096 bytes.
    Huge,
    /// A page on the backing device.
    Back,
}

/// A piece of news for the counters.
#[derive(Clone, Copy, PartialEq, Eq, Debug)]
pub enum Delta {
    /// A page that was kept with one weight is kept with another.
    Kept { old: Weight, new: Weight },
    /// A piece of a read ended with a fault of the device.
    FailedRead,
    /// A piece of a write ended at the limit, for want of memory or with a fault of the device.
    FailedWrite,
    /// A request reached beyond the disk.
    InvalidIo,
    /// A discard emptied a page that wasn't empty.
    NotifyFree,
    /// Compaction freed so many frames.
    Compacted(u32),
}
