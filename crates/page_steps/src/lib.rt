//! The calls of pages as steps: each is one event, the taking or the giving of one lock, by any hand.
#![tactic(auto)]

mod call;
mod device;
mod enter;
mod forms;
mod laws;
mod leave;
mod nexts;
mod objects;
mod pins;
mod settle;
mod stage;
mod values;

pub use call::PageCall;
pub use laws::{calls_are_events, refusals_leave_all};
pub use nexts::{Chosen, Takes, Told, give_by, take_by};
pub use pins::{pin_object, read_cell, unpin_object};
pub use stage::{
    DiskHeld, Due, Head, Lent, New, Outcome, Own, PieceEnd, Progress, Scratch, Stage, Work,
};
pub use values::{account_of, blocks_of, device_of, entry_of, pool_of, weight_in};
