//! The reader of job texts. A text is read once, from its bytes to a job:
//!
//! - a line's words stand for values (`number`, `turns`, `joined`), and together for a `Line`: what
//!   it says by itself, or the first cause that its words have (`line`);
//! - the lines so far stand for a `Reading`: the items that have ended, the phase that has begun
//!   (`begun`), and what of a job's limits is used (`reading`);
//! - the text stands for a job, or for its first faulty line with its cause (`reader`).
#![tactic(auto)]

mod begun;
mod fault;
mod generator;
mod job;
mod joined;
mod limits;
mod line;
mod number;
mod reader;
mod reading;
mod turns;

pub use fault::{Cause, JobFault, ReadFault};
pub use generator::gen_job;
pub use job::{ActorList, Attr, Item, Job, PhaseText, Report, TurnList};
pub use limits::{
    MOST_BLOCKS, MOST_BYTES, MOST_GENERATED, MOST_LIMIT_PAGES, MOST_PHASES, MOST_PIECES,
    MOST_SCANNED, MOST_SECTORS_READ, MOST_TURNS,
};
pub use line::Line;
pub use reader::read_job;

#[cfg(test)]
mod tests;
