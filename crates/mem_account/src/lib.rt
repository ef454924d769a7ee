//! The account of a disk's memory: how many frames are charged, under which limit, and zram's
//! counters.
//!
//! A frame is a page of 4096 bytes that the pools took. Who needs frames charges them first; who
//! frees frames gives them back. The statistics are those of Linux's zram (`mm_stat` and
//! `io_stat`), kept as sums: each piece of news moves them by what it changes.
#![tactic(auto)]

mod account;
mod laws;
#[cfg(test)]
mod tests;
mod weight;

pub use account::{Account, Charge, IoStat, MmStat};
pub use laws::tallied_pages_are_counted;
pub use weight::{Delta, Weight};
