//! Size classes: which cell size serves an object, how many frames a chain of cells has, and how
//! full zspages are. Class `k`, from 0 to 254, has cells of `32 + 16k` bytes. Neighbours whose
//! chains are alike share one pool.
#![tactic(auto)]

mod laws;
mod stat;
mod table;
#[cfg(test)]
mod tests;

pub use laws::packed_classes_stay_below;
pub use stat::{ClassStat, group};
pub use table::{CLASSES, ClassTable, size};
