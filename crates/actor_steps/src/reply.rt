//! What an operation has told so far.

ghost use Rattle.std.specs.Prelude.{◌≡◌, ℕ, ◌+◌, ◌-◌, ◌*◌, ◌<◌, ◌≤◌, false, Some, ◌++◌, slice_get, vec_len, vec_capacity};
ghost use Rattle.zr_base.specs.Plain.{is_maintenance};
ghost use Rattle.call_history.specs.declared.part.Part.{Part};
ghost use Rattle.call_history.specs.Parts.{is_carried, op_end};
ghost use Rattle.page_steps.specs.Calls.{end_of, got_of};
ghost use Rattle.actor_steps.specs.Work.{Touches, reads};
ghost use Rattle.actor_steps.specs.Replies.{HasRoomFor, HasMore};

use crate::work::append_read;
use page_steps::PieceEnd;
use zr_base::{Op, OpEnd, Page};

/// How an operation ends, and the sectors that it has read so far.
#[derive(Drop)]
pub struct Reply {
    pub end: OpEnd,
    pub sectors: Vec<[u8; 512]>,
}

// The end of an operation whose piece has ended so, after `carried` pieces that were carried out.
fn op_end(end: PieceEnd, carried: u32) -> OpEnd
    ensures { result ≡ op_end (end_of end) carried }
{
    match end {
        PieceEnd::Read { .. }
        | PieceEnd::Wrote { .. }
        | PieceEnd::Discarded { .. }
        | PieceEnd::Skipped => OpEnd::Ok,
        PieceEnd::Range => OpEnd::Range,
        PieceEnd::AtLimit { pages, need, limit } => OpEnd::AtLimit {
            pages,
            need,
            limit,
            done: carried,
        },
        PieceEnd::NoMemory => OpEnd::NoMemory { done: carried },
        PieceEnd::Eio { fault } => OpEnd::Eio {
            fault,
            done: carried,
        },
        PieceEnd::Marked(pages) => OpEnd::Marked(pages),
        PieceEnd::Written { wrote, lost } => OpEnd::Written { wrote, lost },
        PieceEnd::Budget { wrote, lost } => OpEnd::Budget { wrote, lost },
        PieceEnd::NoBlock { wrote, lost } => OpEnd::NoBlock { wrote, lost },
        PieceEnd::WriteEio { fault, wrote, lost } => OpEnd::WriteEio { fault, wrote, lost },
        PieceEnd::Compacted { moves, frames } => OpEnd::Compacted { moves, frames },
    }
}

/// Whether an operation goes on after a piece with this end.
pub(crate) fn goes_on(end: PieceEnd) -> bool
    ensures { result ≡ is_carried (end_of end) }
{
    match end {
        PieceEnd::Read { .. }
        | PieceEnd::Wrote { .. }
        | PieceEnd::Discarded { .. }
        | PieceEnd::Skipped => true,
        PieceEnd::Range
        | PieceEnd::AtLimit { .. }
        | PieceEnd::NoMemory
        | PieceEnd::Eio { .. }
        | PieceEnd::Marked(_)
        | PieceEnd::Written { .. }
        | PieceEnd::Budget { .. }
        | PieceEnd::NoBlock { .. }
        | PieceEnd::WriteEio { .. }
        | PieceEnd::Compacted { .. } => false,
    }
}

// Appends what a piece has read from its page.
fn keep_sectors(op: &Op, page: u32, end: PieceEnd, read: &Page, sectors: &mut Vec<[u8; 512]>)
    requires touched { is_maintenance op.now ≡ false → Touches op.now page }
    requires room { HasRoomFor end (vec_len sectors.old + reads op.now page) (vec_capacity sectors.old) }
    ensures got { (p : Part) → p.op ≡ op.now → p.page ≡ page
        → sectors.new.items ≡ sectors.old.items ++ got_of end read.now p }
    ensures len { vec_len sectors.new ≤ vec_len sectors.old + reads op.now page }
    ensures capacity { vec_capacity sectors.old ≤ vec_capacity sectors.new }
{
    if !matches!(end, PieceEnd::Read { .. }) {
        return;
    }
    if let Op::Read { start, count } = op {
        append_read(*start, *count, op.piece_on(page), read, sectors);
    }
}

/// Keeps how a piece has ended and what it has read, where `carried` pieces of its operation were
/// carried out before it.
pub(crate) fn keep(
    replies: &mut Vec<Reply>,
    nr: usize,
    op: &Op,
    page: u32,
    end: PieceEnd,
    carried: u32,
    read: &Page,
)
    requires there { nr < vec_len replies.old }
    requires touched { is_maintenance op.now ≡ false → Touches op.now page }
    requires room { (r : Reply) → slice_get replies.old.items nr ≡ Some r
        → HasRoomFor end (vec_len r.sectors + reads op.now page) (vec_capacity r.sectors) }
    ensures { (p : Part) → p.op ≡ op.now → p.page ≡ page
        → HasMore nr (op_end (end_of end) carried) (got_of end read.now p) (reads op.now page) replies.old.items replies.new.items }
{
    let reply = &mut replies[nr];
    reply.end = op_end(end, carried);
    keep_sectors(op, page, end, read, &mut reply.sectors);
}
