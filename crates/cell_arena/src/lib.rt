//! Chains of frames cut into cells.
#![tactic(auto)]

mod cell;
mod cells;
mod chain;
mod raw;
#[cfg(test)]
mod tests;

pub use cell::Cell;
pub use cells::{Cells, join, split};
pub use chain::Chain;
