//! The pool of one size class: objects of bytes under handles, in the cells of zspages.
#![tactic(auto)]

mod laws;
mod places;
mod pool;
mod zspages;

pub use laws::{compactions_end, objects_move};
pub use pool::{ClassPool, Moved};
