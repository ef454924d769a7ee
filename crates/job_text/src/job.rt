//! Jobs: attributes, reports and phases, in the order of their lines.

ghost use Rattle.std.specs.Prelude.{◌≡◌, [], ◌∷◌, ◌++◌, OnOk};

use std::alloc::AllocError;
use zr_base::{ActorOps, List, Turns};

/// An attribute of the disk.
#[derive(Clone, Copy, PartialEq, Eq, Debug)]
pub enum Attr {
    /// The disk's size in pages of 4096 bytes, 1 to 262,144.
    DiskPages(u32),
    /// How many pages of 4096 bytes of memory the disk may take, up to 2^28; 0 for no limit.
    LimitPages(u64),
    /// How many blocks of 4096 bytes of the backing device are used, 1 to 65,536.
    Backing(u32),
    /// How many blocks of 4096 bytes writebacks may still write while their limit is on, up to 2^32.
    WritebackLimit(u64),
    /// Whether the limit on writebacks is on; off at the start of a job.
    WritebackLimitEnable(bool),
    /// The time from now on, in seconds, not below the time before; 0 at the start of a job.
    Clock(u64),
    /// The greatest memory that the disk took so far is from now on what it takes now.
    LowerMax,
}

/// A report: statistics that are printed.
#[derive(Clone, Copy, PartialEq, Eq, Debug)]
pub enum Report {
    /// What the disk's pages hold and take in bytes, with the limit, and how many are kept in which
    /// way.
    MmStat,
    /// How many requests and pieces failed, and how many pages were discarded.
    IoStat,
    /// How many pages are on the backing device, and how many were read from it and written to it.
    BdStat,
    /// How each page that isn't empty is kept.
    States,
    /// The pool of each size class that has a zspage.
    Classes,
}

/// The operations of a phase, and the turns that its schedule gives, those of all its `schedule`
/// lines joined.
#[derive(Drop)]
pub struct PhaseText {
    pub actors: ActorList,
    pub schedule: TurnList,
}

/// An item of a job.
#[derive(Drop)]
pub enum Item {
    Attr(Attr),
    Report(Report),
    Phase(PhaseText),
}

/// The actors of a phase, each with its operations.
pub type ActorList = List<ActorOps>;

/// The turns that a schedule gives, one after the other.
pub type TurnList = List<Turns>;

/// The items of a job.
pub type Job = List<Item>;

/// Puts an item last. Err says that memory was refused.
pub(crate) fn push<T: Drop>(list: &mut List<T>, item: T) -> Result<(), AllocError>
    ensures { OnOk result (list.new ≡ list.old ++ item ∷ []) }
{
    match list.push(item) {
        Ok(()) => Ok(()),
        Err(_) => Err(AllocError),
    }
}
