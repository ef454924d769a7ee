//! Pieces that have events, as the machine of a phase speaks of them.

use std::collections::LinkedList;
use zr_base::{Op, OpEnd};

/// A piece that has events: the operation's number among the actor's, counted from 0, the
/// operation, and the page. An operation beyond the disk is one piece, whose page says nothing. No
/// running code makes one.
pub struct Part {
    pub nr: u32,
    pub op: Op,
    pub page: u32,
}

/// How a piece ended. An end other than `Carried` ends its operation too; where it is `Eio`, a read's
/// piece stands in the order of its page.
#[derive(Clone, Copy, PartialEq, Eq)]
pub enum PartEnd {
    /// It was carried out.
    Carried,
    /// It was refused at the memory limit: the frames charged, those needed, and the limit.
    AtLimit { pages: u64, need: u64, limit: u64 },
    /// It was refused for want of memory.
    NoMemory,
    /// A read of the device failed: the device's count of faults after it.
    Eio { fault: u64 },
    /// It was all of its operation, which ended so: beyond the disk.
    Whole(OpEnd),
}

/// A piece that is over, with the sectors that it read. No running code makes one.
pub struct Done {
    pub part: Part,
    pub end: PartEnd,
    pub got: LinkedList<LinkedList<u8>>,
}
