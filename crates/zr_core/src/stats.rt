//! The statistics of a disk.

ghost use Rattle.std.specs.Prelude.{◌≡◌, Some, IfSome, IfNone};
ghost use Rattle.std.specs.Option.{option_copied};
ghost use Rattle.mem_account.specs.Stat.{mm_stat_of, io_stat_of};
ghost use Rattle.zr_core.specs.Rests.{account_in, account_of, pool_in, pool_of, device_by, IsAtRest};
ghost use Rattle.zr_core.specs.Stats.{zspages_of, HasStat};

use crate::disk::World;
use backing_dev::{Backing, BdStat};
use class_pool::ClassPool;
use lock_row::{Held, LockNo, names_have_places};
use mem_account::{Account, IoStat, MmStat};
use page_steps::DiskHeld;
use size_class::{CLASSES, ClassStat};

// The pool that a class's lock guards.
fn pool_in<D: Backing>(value: &DiskHeld<D>) -> Option<&ClassPool>
    ensures { option_copied result ≡ pool_in (Some value.now) }
{
    match value {
        Held::Class(pool) => Some(pool),
        Held::Slot(_) | Held::Account(_) | Held::Blocks(_) | Held::Device(_) => None,
    }
}

// The account that its lock guards, or another one.
fn account_in<D: Backing>(value: &DiskHeld<D>, other: Account) -> Account
    ensures { result ≡ account_in other (Some value.now) }
{
    match value {
        Held::Account(account) => *account,
        Held::Slot(_) | Held::Class(_) | Held::Blocks(_) | Held::Device(_) => other,
    }
}

impl<D: Backing> World<D> {
    // The account that is at home, or one that has the limit alone.
    pub(crate) fn account(&self) -> Account
        ensures { result ≡ account_of self.now.limit self.now.pages self.now.row.cells }
    {
        names_have_places();
        let mut none = Account::new();
        none.set_limit(self.limit);
        if self.pages == 0 {
            return none;
        }
        match self.row.value(LockNo::Account) {
            None => none,
            Some(value) => account_in(value, none),
        }
    }

    /// zram's `mm_stat`. Before the disk's size is given each field is 0 but the limit.
    pub fn mm_stat(&self) -> MmStat
        ensures { result ≡ mm_stat_of (account_of self.now.limit self.now.pages self.now.row.cells) }
    {
        self.account().mm_stat()
    }

    /// zram's `io_stat`. Before the disk's size is given each field is 0.
    pub fn io_stat(&self) -> IoStat
        ensures { result ≡ io_stat_of (account_of self.now.limit self.now.pages self.now.row.cells) }
    {
        self.account().io_stat()
    }

    /// zram's `bd_stat`. Before the disk's size is given no page is on the device.
    pub fn bd_stat(&self) -> BdStat
        requires rest { IsAtRest self.now.pages self.now.noted.items self.now.row.cells }
        ensures { result ≡ record {
          count = (account_of self.now.limit self.now.pages self.now.row.cells).back;
          reads = (device_by self.now.spare self.now.pages self.now.row.cells).reads;
          writes = (device_by self.now.spare self.now.pages self.now.row.cells).writes;
        } }
    {
        let device = self.device();
        BdStat {
            count: self.account().bd_count(),
            reads: device.reads(),
            writes: device.writes(),
        }
    }

    /// The statistics of a class's pool. None comes exactly where the class has no zspage.
    pub fn class_stat(&self, class: u8) -> Option<ClassStat>
        ensures some { IfSome result (HasStat (pool_of self.now.pages self.now.row.cells class)) }
        ensures none { IfNone result
            (zspages_of (pool_of self.now.pages self.now.row.cells class) ≡ 0) }
    {
        names_have_places();
        if self.pages == 0 || class == CLASSES {
            return None;
        }
        let Some(value) = self.row.value(LockNo::Class(class)) else {
            return None;
        };
        let Some(pool) = pool_in(value) else {
            return None;
        };
        let stat = pool.stat();
        if stat.zspages == 0 {
            return None;
        }
        Some(stat)
    }
}
