//! The names of locks, hands that take and give them, a row of locks for one thread, and the
//! machine of
//! a row and its actors: events, turns and the states that they lead to.
#![tactic(auto)]

mod hand;
mod laws;
mod names;
mod row;
mod rule;

pub use hand::{Hand, NextLocal, Still};
pub use laws::{names_have_places, sums_move, totals_move, values_stay_apart};
pub use names::{At, Compaction, Held, Local, LockNo, Object, Pin, Plan, Scan, State, Step, Trip};
pub use row::{SimHand, SimRow};
pub use rule::{PhaseStart, RowValue};
