//! The words that every layer speaks: pages and their sectors, operations with their pieces and
//! ends, and the errors of whatever is handed in.
#![tactic(auto)]

mod limits;
mod list;
mod op;
mod page;
mod planned;
mod request;
mod sink;
mod source;
mod walk;

pub use limits::{MOST_ACTORS, MOST_OPERATIONS, MOST_PAGES, MOST_SECTORS};
pub use list::List;
pub use op::{ActorOps, Bytes, Mode, Op, OpEnd, Piece, Stuff, Tag, Turns};
pub use page::{Failed, Handle, Page, PageIx};
pub use sink::{MemSink, Sink, StdSink};
pub use source::{MemSource, Source, StdSource};
pub use walk::{PieceWalk, pieces};

#[cfg(test)]
mod tests;
