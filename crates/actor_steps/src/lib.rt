//! An actor goes through its operations, piece by piece, by any hand.
#![tactic(auto)]

mod call;
mod count;
mod place;
mod prepare;
mod reply;
mod work;
mod worker;

pub use call::Call;
pub use count::count_pieces;
pub use place::{Place, first_piece, next_place, settled};
pub use prepare::new_workers;
pub use reply::Reply;
pub use worker::{Turn, Worker};
