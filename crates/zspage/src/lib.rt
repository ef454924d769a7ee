//! A zspage, after zsmalloc's: a chain of frames cut into cells of one size. Each cell is free, or
//! it is used by one object, and then it is at home or lent out.
#![tactic(auto)]

mod cell;
mod spot;
mod zspage;

pub use cell_arena::Cell;
pub use zspage::{Movable, Zspage};
