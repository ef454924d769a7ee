//! zram's `bd_stat`.

/// What zram's `bd_stat` tells, in pages of 4096 bytes: how many pages are on the device, and how
/// many were read from it and written to it.
#[derive(Clone, Copy, PartialEq, Eq, Debug)]
pub struct BdStat {
    pub count: u64,
    pub reads: u64,
    pub writes: u64,
}
