//! How many pieces with events a phase has on each page, for which the page's order needs room.

ghost use Rattle.std.specs.Prelude.{◌≡◌, ℕ, Bool, ◌+◌, ◌<◌, ◌^◌, IfOk, OnOk, Some};
ghost use Rattle.std.specs.BTreeMap.{Updates};
ghost use Rattle.std.specs.Ordering.{nat_cmp};
ghost use Rattle.zr_base.specs.Plain.{IsRequest};
ghost use Rattle.call_history.specs.Parts.{parts, program};
ghost use Rattle.actor_steps.specs.Places.{AreRequests, IsWork};
ghost use Rattle.actor_steps.specs.Counts.{pieces_on, pieces_each, count_at, HasOnlyCounts};

use crate::place::is_single;
use std::alloc::{AllocError, Global};
use std::collections::BTreeMap;
use zr_base::{ActorOps, Op, pieces};

// Counts one piece more on a page.
fn count_piece(page: u32, counts: &mut BTreeMap<u32, u32>) -> Result<(), AllocError>
    requires { count_at counts.old page + 1 < 2 ^ 32 }
    ensures { OnOk result (Updates nat_cmp counts.old counts.new page (Some (count_at counts.old page + 1))) }
{
    *counts.entry(page)?.or_insert(0) += 1;
    Ok(())
}

// Counts the pieces with events of an operation; one that is over in one piece is on no page.
fn count_op(size: u32, op: &Op, counts: &mut BTreeMap<u32, u32>) -> Result<(), AllocError>
    requires request { IsRequest op.now }
    requires only { HasOnlyCounts size counts.old }
    requires fits { (backed : Bool) (p : ℕ) → p < size
        → count_at counts.old p + pieces_on size p (parts size backed 0 op.now) < 2 ^ 32 }
    ensures only { OnOk result (HasOnlyCounts size counts.new) }
    ensures counted { OnOk result ((backed : Bool) (p : ℕ) → p < size
        → count_at counts.new p
        ≡ count_at counts.old p + pieces_on size p (parts size backed 0 op.now)) }
{
    if is_single(size, op) {
        return Ok(());
    }
    for piece in pieces(op.start(), op.count()) {
        let page = piece.page.0;
        if op.has_event(page) {
            count_piece(page, counts)?;
        }
    }
    Ok(())
}

// Counts those of an actor.
fn count_actor(size: u32, ops: &[Op], counts: &mut BTreeMap<u32, u32>) -> Result<(), AllocError>
    requires requests { AreRequests ops.now }
    requires only { HasOnlyCounts size counts.old }
    requires fits { (backed : Bool) (p : ℕ) → p < size
        → count_at counts.old p + pieces_on size p (program size backed 0 ops.now) < 2 ^ 32 }
    ensures only { OnOk result (HasOnlyCounts size counts.new) }
    ensures counted { OnOk result ((backed : Bool) (p : ℕ) → p < size
        → count_at counts.new p
        ≡ count_at counts.old p + pieces_on size p (program size backed 0 ops.now)) }
{
    for op in ops {
        count_op(size, op, counts)?;
    }
    Ok(())
}

/// The pieces with events that a phase has on each page, whether the disk has a backing or none. A page
/// without any has no entry.
pub fn count_pieces(
    alloc: Global,
    size: u32,
    ops: &[ActorOps],
) -> Result<BTreeMap<u32, u32>, AllocError>
    requires { IsWork ops.now }
    ensures only { IfOk result (HasOnlyCounts size) }
    ensures counted { IfOk result (λ counts. (backed : Bool) (p : ℕ) → p < size
        → count_at counts p ≡ pieces_each size backed ops.now p) }
{
    let mut counts = BTreeMap::new(alloc);
    for actor in ops {
        count_actor(size, actor.as_slice(), &mut counts)?;
    }
    Ok(counts)
}
