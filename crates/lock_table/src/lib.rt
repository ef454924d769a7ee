//! A row of locks on atomic words, for hands on threads of their own. Each lock has one word and
//! one slot of a
//! table. These are all the steps on them:
//!
//! | Step | Move | Event of the machine |
//! |---|---|---|
//! | take | compare and exchange, from free to the actor's number | the taking |
//! | miss | the same, which finds another number | none |
//! | value out | exchange on the slot | part of the taking |
//! | value in | exchange on the slot | part of the giving |
//! | give | the word to free | the giving |
//! | split | a load of word 0, in `make` | none |
//! | join | a load of word 0, in `shut` | none |
//!
//! Between any two steps the words, the slots and what the hands know make a state that is reached
//! from the
//! phase's start.
#![tactic(auto)]

mod at_row;
mod closing;
mod hands;
mod make;
mod plays;
mod row;
mod view;

pub use at_row::AtRow;
pub use closing::shut;
pub use hands::TableHands;
pub use row::{TableHand, TableRow};
pub use view::{LocksRule, Seated, View};
