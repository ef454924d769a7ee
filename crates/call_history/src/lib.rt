//! The pieces of an actor's operations, what is over of them, and what a finished history says of
//! the
//! operations: how they ended, which stand in the order of a page, and what they read.
#![tactic(auto)]

mod laws;
mod part;

pub use laws::{histories_go_on, histories_tell, pieces_keep};
pub use part::{Done, Part, PartEnd};
