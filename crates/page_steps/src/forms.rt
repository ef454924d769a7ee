//! New pages and their forms.

ghost use Rattle.std.specs.Prelude.{◌≡◌, ◌+◌, ◌<◌, ◌≤◌, ℕ, true, length};
ghost use Rattle.zr_base.specs.Sectors.{page_sector};
ghost use Rattle.page_steps.specs.Calls.{IsBeside, IsOwn, IsWithin, is_write, settled_by};
ghost use Rattle.page_steps.specs.Turns.{IsFormed, Keeps};

use crate::stage::{Due, Head, New, Own, Scratch, Stage, Work};
use backing_dev::Backing;
use slot_entry::{Form, HUGE_CLASS, Kept, form_of, packed_objects_have_classes};
use zr_base::{Page, Piece};

/// Whether a call writes.
pub(crate) fn is_write(work: Work) -> bool
    ensures { result ≡ is_write work }
{
    matches!(&work, Work::Writes)
}

/// Gives a new page the sectors of the old one that a piece doesn't have.
pub(crate) fn merge(piece: Piece, old: &Page, fresh: &mut Page)
    requires { IsWithin piece }
    ensures kept { (k : ℕ) → k < 8 → piece.first ≤ k → k < piece.first + piece.count
        → page_sector fresh.new k ≡ page_sector fresh.old k }
    ensures merged { (k : ℕ) → k < 8 → IsBeside piece k → page_sector fresh.new k ≡ page_sector
        old.now k }
    ensures long { length fresh.new ≡ 4096 }
{
    let _size = fresh.bytes();
    for k in 0..8 {
        if k < piece.first || piece.first + piece.count <= k {
            fresh.put_sector(k, old.sector(k));
        }
    }
}

/// What stands has to be given up, and `next` is to be put.
pub(crate) fn settled<D: Backing>(own: Own, next: Kept) -> Stage<D>
    ensures is { result ≡ settled_by own next own.entry.kept }
{
    match own.entry.kept() {
        Kept::Obj(object) => Stage::Old(own, object, next),
        Kept::Wb(block) => Stage::Backed(own, block, next),
        _ => Stage::Owing(
            Due {
                entry: own.entry,
                read: own.read,
                next,
            },
            0,
            None,
        ),
    }
}

/// The form of the new page is found.
pub(crate) fn formed<D: Backing>(head: Head, own: Own, scratch: &mut Scratch) -> Stage<D>
    requires own { IsOwn head scratch.old own }
    requires write { is_write head.work ≡ true }
    ensures formed { IsFormed head own scratch.new result }
    ensures same { Keeps scratch.old scratch.new }
{
    packed_objects_have_classes();
    match form_of(&scratch.fresh, &mut scratch.packed) {
        Form::Same(word) => settled(own, Kept::Same(word)),
        Form::Packed => {
            let class = scratch.table.class_for(scratch.packed.len() as u32);
            Stage::Wanting(own, New { class, huge: false })
        }
        Form::Huge => {
            let _size = scratch.fresh.bytes();
            Stage::Wanting(
                own,
                New {
                    class: HUGE_CLASS,
                    huge: true,
                },
            )
        }
    }
}
