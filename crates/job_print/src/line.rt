//! A line of an output.

use backing_dev::BdStat;
use job_text::JobFault;
use mem_account::{IoStat, MmStat};
use size_class::ClassStat;
use zr_base::{Bytes, List, OpEnd, Tag};

/// The calls of an order, the first first.
pub type TagList = List<Tag>;

/// Why an attribute was refused.
#[derive(Clone, Copy, PartialEq, Eq, Debug)]
pub enum Refusal {
    /// The disk's size is set already.
    DisksizeBusy,
    /// It is set, so that no backing can be.
    BackingBusy,
    /// The device has fewer blocks.
    BackingRange,
}

/// A line of an output.
#[derive(Drop)]
pub enum OutLine {
    /// How operation `op` of an actor ended.
    Op {
        actor: u32,
        op: u32,
        end: OpEnd,
    },
    /// A sector whose 64 words of 8 bytes are all this one.
    Fill(u64),
    /// The 512 bytes of any other sector.
    Hex(Bytes),
    /// The calls on a page, in their order.
    Order {
        page: u32,
        tags: TagList,
    },
    /// The statistics of the memory.
    Mm(MmStat),
    /// Those of what failed, was refused or was discarded.
    Io(IoStat),
    /// Those of the backing device.
    Bd(BdStat),
    /// An attribute was refused.
    Refused(Refusal),
    /// A page that isn't empty: the letters `s`, `w`, `h` and `i`, each replaced by `.` where it
    /// doesn't hold, and when the page was touched, in seconds.
    State {
        page: u32,
        letters: [u8; 4],
        touched: u64,
    },
    /// A class that has zspages.
    Class(ClassStat),
    /// A text is no job.
    Job(JobFault),
    /// The usage of `zramsim`.
    Usage,
}

/// The lines of an output.
pub type OutText = List<OutLine>;
