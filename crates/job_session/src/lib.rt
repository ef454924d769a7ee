//! Whole jobs: their items one after the other, sessions, and the top call.
#![tactic(auto)]

mod generated;
mod io;
mod items;
mod laws;
mod output;
mod quiet;
mod session;
mod sim;
mod stop;
mod tell;
mod words;

pub use laws::{jobs_are_legal, outputs_are_bounded};
pub use session::{Next, Running, Session};
pub use sim::{Status, sim_main};

#[cfg(test)]
mod tests;
