//! Backing devices: blocks of one page each, to which pages are written back.
//!
//! Whatever can keep pages is a [`Backing`]. It counts its faults, so that a failed call can be
//! told from a lie: a call fails only where the count rose. [`MemBacking`] keeps its blocks in
//! memory and fails at planned calls. [`Dev`] owns a device and counts the calls that succeeded, as
//! zram's `bd_stat` does.
#![tactic(auto)]

mod backing;
mod dev;
mod memory;
mod plan;
mod stat;
#[cfg(test)]
mod tests;

pub use backing::Backing;
pub use dev::Dev;
pub use memory::MemBacking;
pub use stat::BdStat;
