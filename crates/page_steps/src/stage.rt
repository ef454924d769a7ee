//! The stages of a page's call. Each has what the call holds there, so a stage tells the next
//! event.
//!
//! | Stage | Holds | Next event | Function | The event's work |
//! |---|---|---|---|---|
//! | `Start` | | takes the slot | `start` | none |
//! | `Beyond` | | takes the account | `beyond` | none |
//! | `Refusing` | account | gives the account | `refuse_request` | counts a request beyond the disk |
//! | `Seen` | slot | takes the class of the page's object | `seen` | none |
//! | `Pinning` | slot, that class | gives the class | `pin` | pins the object |
//! | `Pinned` | slot, cell | takes that class | `pinned` | none |
//! | `Unpinning` | slot, cell, that class | gives the class | `unpin` | unpins the object |
//! | `Away` | slot | takes the device | `away` | none |
//! | `Fetching` | slot, device | gives the device | `fetch` | reads the page's block, or fails |
//! | `Failing` | slot | takes the account | `fail` | none |
//! | `Counting` | slot, account | gives the account | `count` | counts that the device failed |
//! | `Plain`, `Leaving` | slot | gives the slot | `leave_plain`, `leave` | notes the read |
//! | `Missed` | slot | gives the slot | `miss` | notes a read that failed |
//! | `Refused` | slot | gives the slot | `refuse` | none |
//! | `Wanting` | slot, cell if pinned | takes the class of the new object | `want` | none |
//! | `Inside` | slot, cell, new class | takes the account | `ask` | none |
//! | `Both` | slot, cell, new class, account | gives the account | `charge` | makes the object, or fails |
//! | `Made` | slot, cell, new class | gives the class | `made` | none |
//! | `Old` | slot, cell if pinned | takes the class of the old object | `old` | none |
//! | `Freeing` | slot, cell, that class | gives the class | `free` | unpins and frees the object |
//! | `Backed` | slot | takes the blocks | `backed` | none |
//! | `Releasing` | slot, blocks | gives the blocks | `release` | frees the page's block |
//! | `Owing` | slot | takes the account | `owe` | none |
//! | `Giving` | slot, account | gives the account | `repay` | repays frames, counts the page |
//! | `Ready` | slot | gives the slot | `put` | puts the new form, and notes the piece |
//! | `Over` | | none | | |

use arrayvec::ArrayVec;
use backing_dev::{Backing, Dev};
use block_map::Blocks;
use cell_arena::Cell;
use class_pool::ClassPool;
use lock_row::{Held, LockNo};
use mem_account::{Account, Weight};
use size_class::ClassTable;
use slot_entry::{Entry, Kept, Stored};
use zr_base::{Page, Piece, Tag};

/// What a lock of a disk over the device `D` guards.
pub type DiskHeld<D> = Held<Entry, ClassPool, Account, Blocks, Dev<D>>;

/// The buffers of a call, and the classes of new objects. From a call's first event to its end it
/// is
/// given the same scratch, which nothing else changes.
#[derive(Drop)]
pub struct Scratch {
    /// A page that was read.
    pub page: Page,
    /// A page that is written: a write's sectors stand in it, each at its place in the page.
    pub fresh: Page,
    /// The packing of that page.
    pub packed: ArrayVec<u8, 4128>,
    /// The classes for the disk's longest chains.
    pub table: ClassTable,
}

/// How a piece ended. `at` is the place of its tag in the page's order, from 0.
#[derive(Clone, Copy, PartialEq, Eq, Debug)]
pub enum PieceEnd {
    Read { at: u32 },
    Wrote { at: u32 },
    Discarded { at: u32 },
    /// It was a discard of a part of a page, which does nothing.
    Skipped,
    /// It was a request beyond the disk.
    Range,
    /// It was refused at the memory limit: the frames charged, those needed, and the limit.
    AtLimit { pages: u64, need: u64, limit: u64 },
    /// It was refused for want of memory.
    NoMemory,
    /// A read of the device failed: the device's count of faults after it.
    Eio { fault: u64 },
    /// It was a scan that marks pages: how many marks are new.
    Marked(u32),
    /// It was a writeback: the pages that it left on the device, and those that it wrote in vain.
    Written { wrote: u32, lost: u32 },
    /// The same, until the limit on writes allowed no other.
    Budget { wrote: u32, lost: u32 },
    /// The same, until no block was free.
    NoBlock { wrote: u32, lost: u32 },
    /// The same, until the device failed to write a page: the device's count of faults after it.
    WriteEio { fault: u64, wrote: u32, lost: u32 },
    /// It was a compaction: the objects that it moved, and the frames that it freed.
    Compacted { moves: u64, frames: u64 },
}

/// What a turn of a call was.
#[derive(Clone, Copy, PartialEq, Eq, Debug)]
pub enum Progress {
    /// One event, and the call goes on.
    Moved,
    /// A miss: this lock was held.
    Waits(LockNo),
    /// The last event.
    Done(PieceEnd),
}

/// What a call does.
#[derive(Clone, Copy, PartialEq, Eq, Debug)]
pub enum Work {
    Reads,
    Writes,
    Discards,
    /// Counts a request beyond the disk.
    Counts,
}

/// What stays during a call.
#[derive(Clone, Copy)]
pub struct Head {
    pub work: Work,
    pub piece: Piece,
    pub tag: Tag,
    pub now: u64,
}

/// An object's cell that its pool has lent.
#[derive(Drop)]
pub struct Lent {
    pub object: Stored,
    pub cell: Cell,
}

/// What a call has of its page: the entry, the object's cell where it is pinned, and whether the page
/// was read, from the cell or from the device.
#[derive(Drop)]
pub struct Own {
    pub entry: Entry,
    pub lent: Option<Lent>,
    pub read: bool,
}

/// Where a new object goes: its class, and whether it is the page itself.
#[derive(Clone, Copy)]
pub struct New {
    pub class: u8,
    pub huge: bool,
}

/// What came of making a new object.
#[derive(Clone, Copy)]
pub enum Outcome {
    Object(Stored),
    Refused(PieceEnd),
}

/// What is to be put: the entry, whether its page was read, and the new form.
#[derive(Drop)]
pub struct Due {
    pub entry: Entry,
    pub read: bool,
    pub next: Kept,
}

/// What a call is at, with the values that it holds.
#[derive(Drop)]
pub enum Stage<D: Backing> {
    Start,
    Beyond,
    Refusing(Account),
    Seen(Entry, Stored),
    Pinning(Entry, Stored, ClassPool),
    /// The last field is the refusal that ends the piece, if it has one.
    Pinned(Entry, Lent, Option<PieceEnd>),
    Unpinning(Entry, Lent, Option<PieceEnd>, ClassPool),
    /// The page is in this block of the device.
    Away(Entry, u32),
    Fetching(Entry, u32, Dev<D>),
    /// The second field is the device's count of faults, from the failure on.
    Failing(Entry, u64),
    Counting(Entry, u64, Account),
    /// The page has no object and is in no block.
    Plain(Entry),
    /// The page was read from its object's cell or from the device.
    Leaving(Entry),
    /// The page couldn't be read.
    Missed(Entry, u64),
    /// The second field says whether the page was read.
    Refused(Entry, bool, PieceEnd),
    Wanting(Own, New),
    Inside(Own, New, ClassPool),
    Both(Own, New, ClassPool, Account),
    /// The second field is the class of the new object.
    Made(Own, u8, ClassPool, Outcome),
    /// The last field is the form that is to be put.
    Old(Own, Stored, Kept),
    Freeing(Own, Stored, Kept, ClassPool),
    /// The second field is the page's block.
    Backed(Own, u32, Kept),
    Releasing(Own, u32, Kept, Blocks),
    /// The frames that are to be given back, and what the account counts of the page where its
    /// object is gone.
    Owing(Due, u32, Option<Weight>),
    Giving(Due, u32, Option<Weight>, Account),
    /// What the account counts of the page, and what it counted before.
    Ready(Due, Option<Weight>, Option<Weight>),
    Over,
}
