//! The disk and its actors: phases by turns, the joint rule, what a phase prints, and statistics.
#![tactic(auto)]

mod disk;
mod limits;
mod phase;
mod prepare;
mod row;
mod spare;
mod stats;
mod world;

pub use actor_steps::Turn;
pub use backing_dev::BdStat;
pub use disk::World;
pub use limits::MOST_CHAIN;
pub use page_steps::DiskHeld;
pub use phase::Phase;
pub use spare::Spare;

#[cfg(test)]
mod tests;
