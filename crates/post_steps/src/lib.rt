//! The calls that tend the pools as steps: each is one event, the taking or the giving of one lock,
//! by any hand.
#![tactic(auto)]

mod compact;
mod copy;
mod evict;
mod flight;
mod idle;
mod laws;
mod nexts;
mod sweep;
mod visit;
mod writeback;

pub use compact::{CompactCall, CompactStage};
pub use idle::{IdleCall, IdleHead, IdleStage};
pub use laws::{
    classes_come_in_turn, compactions_are_events, scans_are_events, writebacks_are_events,
};
pub use writeback::{WritebackCall, WritebackHead, WritebackStage};
