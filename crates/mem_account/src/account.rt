//! The counters behind one lock, and what changes them.
//!
//! | Call | Frames charged | Pages by form | What happened |
//! |---|---|---|---|
//! | `charge`, `give_back` | up, or refused at the limit; down | | |
//! | `lower_max` | | | the maximum is what is charged now |
//! | `count` of `Kept` | | one page goes over | `huge_since`, where it is huge |
//! | `count` of other news | | | its own count |

ghost use Rattle.std.specs.Prelude.{◌≡◌, ℕ, ◌+◌, ◌-◌, ◌*◌, ◌^◌, ◌<◌, ◌≤◌, ◌↔◌};

use crate::weight::{Delta, Weight};
use std::marker::Model;

/// What a charge was answered. All three numbers of a refusal are frames of 4096 bytes.
#[derive(Clone, Copy, PartialEq, Eq, Debug)]
pub enum Charge {
    Charged,
    /// So many frames are charged, so many more were needed, and this is the limit.
    AtLimit { pages: u64, need: u64, limit: u64 },
}

/// The fields of zram's `mm_stat`, in its order. `orig`, `compr`, `used`, `limit` and `max` are
/// bytes, the others pages.
#[derive(Clone, Copy, PartialEq, Eq, Debug)]
pub struct MmStat {
    /// Bytes of the pages that aren't empty, those on the backing device among them.
    pub orig: u64,
    /// Bytes of the packed and the huge pages in the pool.
    pub compr: u64,
    /// Bytes of the frames that are charged.
    pub used: u64,
    /// Bytes that may be charged; 0 is no limit.
    pub limit: u64,
    /// The greatest `used` since the maximum was last lowered, or from the start.
    pub max: u64,
    /// Pages kept as one repeated word.
    pub same: u64,
    /// Frames that compaction freed.
    pub compacted: u64,
    /// Pages kept as their 4096 bytes.
    pub huge: u64,
    /// Writes that kept a page as its 4096 bytes.
    pub huge_since: u64,
}

/// The fields of zram's `io_stat`, in its order.
#[derive(Clone, Copy, PartialEq, Eq, Debug)]
pub struct IoStat {
    /// Pieces of reads that failed.
    pub failed_reads: u64,
    /// Pieces of writes that failed.
    pub failed_writes: u64,
    /// Requests beyond the disk.
    pub invalid_io: u64,
    /// Pages that a discard emptied.
    pub notify_free: u64,
}

/// The counters of a disk's memory. A count that only rises stands still at 2^64 - 1.
#[derive(Clone, Copy)]
pub struct Account {
    pages: u64,
    limit: u64,
    most: u64,
    same: u64,
    packed: u64,
    packed_bytes: u64,
    huge: u64,
    back: u64,
    huge_since: u64,
    compacted: u64,
    failed_reads: u64,
    failed_writes: u64,
    invalid_io: u64,
    notify_free: u64,
}

impl Model for Account {
    ghost use Rattle.mem_account.specs.Counters.{Counters, IsAccount};

    ghost Value = { Counters };

    ghost use Rattle.mem_account.specs.Views.{counters_of, account_of};

    ghost view = { counters_of };

    ghost invariant = { λ a. IsAccount (counters_of a) };

    ghost inverse = { account_of };
}

impl Account {
    ghost use Rattle.mem_account.specs.Counters.{no_counts, IsPastLimit, IsWithinLimit, AnswersCharge, charged, without_one, with_one, counted, IsCounted, IsOldCounted, HasFittingSizes};
    ghost use Rattle.mem_account.specs.Stat.{mm_stat_of, io_stat_of};
    ghost use Rattle.mem_account.specs.Tally.{KeepsTally};

    /// The account of a disk without pages, with no limit.
    pub fn new() -> Account
        ensures zeros { result ≡ no_counts }
    {
        Account {
            pages: 0,
            limit: 0,
            most: 0,
            same: 0,
            packed: 0,
            packed_bytes: 0,
            huge: 0,
            back: 0,
            huge_since: 0,
            compacted: 0,
            failed_reads: 0,
            failed_writes: 0,
            invalid_io: 0,
            notify_free: 0,
        }
    }

    /// Takes so many frames, or answers that they would pass the limit.
    pub fn charge(&mut self, need: u64) -> Charge
        requires { self.old.pages + need < 2 ^ 52 }
        ensures answer { AnswersCharge self.old need result }
        ensures refused { IsPastLimit self.old need → self.new ≡ self.old }
        ensures taken { IsWithinLimit self.old need → self.new ≡ charged self.old need }
    {
        let pages = self.pages + need;
        if self.limit > 0 && pages > self.limit {
            return Charge::AtLimit {
                pages: self.pages,
                need,
                limit: self.limit,
            };
        }
        self.pages = pages;
        self.most = self.most.max(pages);
        Charge::Charged
    }

    /// Gives back frames that were charged.
    pub fn give_back(&mut self, frames: u64)
        requires { frames ≤ self.old.pages }
        ensures pages { self.new ≡ record self.old { pages = self.old.pages - frames } }
    {
        self.pages -= frames;
    }

    /// Sets the limit, in frames; 0 is none. What is charged stays, also above it.
    pub fn set_limit(&mut self, pages: u64)
        requires { pages < 2 ^ 52 }
        ensures limit { self.new ≡ record self.old { limit = pages } }
    {
        self.limit = pages;
    }

    /// Makes the maximum what is charged now.
    pub fn lower_max(&mut self)
        ensures most { self.new ≡ record self.old { most = self.old.pages } }
    {
        self.most = self.pages;
    }

    /// Moves the statistics by a piece of news.
    pub fn count(&mut self, delta: Delta)
        requires old { IsOldCounted self.old delta }
        requires fits { HasFittingSizes (counted self.old delta) }
        ensures counted { self.new ≡ counted self.old delta }
        ensures tally { KeepsTally self.old self.new delta }
    {
        match delta {
            Delta::Kept { old, new } => {
                self.remove(old);
                self.add(new);
            }
            Delta::FailedRead => self.failed_reads = self.failed_reads.saturating_add(1),
            Delta::FailedWrite => self.failed_writes = self.failed_writes.saturating_add(1),
            Delta::InvalidIo => self.invalid_io = self.invalid_io.saturating_add(1),
            Delta::NotifyFree => self.notify_free = self.notify_free.saturating_add(1),
            Delta::Compacted(frames) => self.compacted = self
                .compacted
                .saturating_add(u64::from(frames)),
        }
    }

    fn remove(&mut self, weight: Weight)
        requires { IsCounted self.old weight }
        ensures { self.new ≡ without_one self.old weight }
    {
        match weight {
            Weight::Empty => {}
            Weight::Same => self.same -= 1,
            Weight::Packed(len) => {
                self.packed -= 1;
                self.packed_bytes -= u64::from(len);
            }
            Weight::Huge => self.huge -= 1,
            Weight::Back => self.back -= 1,
        }
    }

    fn add(&mut self, weight: Weight)
        requires { HasFittingSizes (with_one self.old weight) }
        ensures { self.new ≡ with_one self.old weight }
    {
        match weight {
            Weight::Empty => {}
            Weight::Same => self.same += 1,
            Weight::Packed(len) => {
                self.packed += 1;
                self.packed_bytes += u64::from(len);
            }
            Weight::Huge => {
                self.huge += 1;
                self.huge_since = self.huge_since.saturating_add(1);
            }
            Weight::Back => self.back += 1,
        }
    }

    /// zram's `mm_stat`.
    pub fn mm_stat(&self) -> MmStat
        ensures fields { result ≡ mm_stat_of self.now }
        ensures most { result.used ≤ result.max }
    {
        MmStat {
            orig: 4096 * (self.same + self.packed + self.huge + self.back),
            compr: self.packed_bytes + 4096 * self.huge,
            used: 4096 * self.pages,
            limit: 4096 * self.limit,
            max: 4096 * self.most,
            same: self.same,
            compacted: self.compacted,
            huge: self.huge,
            huge_since: self.huge_since,
        }
    }

    /// How many pages are on the backing device.
    pub fn bd_count(&self) -> u64
        ensures { result ≡ self.now.back }
    {
        self.back
    }

    /// zram's `io_stat`.
    pub fn io_stat(&self) -> IoStat
        ensures fields { result ≡ io_stat_of self.now }
    {
        IoStat {
            failed_reads: self.failed_reads,
            failed_writes: self.failed_writes,
            invalid_io: self.invalid_io,
            notify_free: self.notify_free,
        }
    }
}

impl Default for Account {
    ghost use Rattle.mem_account.specs.Counters.{no_counts};

    ghost is_default = { λ a. a ≡ no_counts };

    fn default() -> Self {
        Account::new()
    }
}
