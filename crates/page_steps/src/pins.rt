//! The events of a page's object that is read: it is pinned, and the page is read from its cell
//! once its
//! class is given back; then it is unpinned.

ghost use Rattle.std.specs.Prelude.{◌≡◌, ◌≤◌, ◌+◌, ◌++◌, length, take, drop};
ghost use Rattle.zspage.specs.Cells.{header_size, object_in};
ghost use Rattle.page_steps.specs.declared.stage.Stage.TheVariants as stage;
ghost use Rattle.class_pool.specs.Pool.{IsLent};
ghost use Rattle.page_steps.specs.Pages.{page_in_cell};
ghost use Rattle.page_steps.specs.Pools.{Lends, Returns};
ghost use Rattle.page_steps.specs.Fits.{CanPin};
ghost use Rattle.page_steps.specs.Calls.{HasObject, unpinned_by};
ghost use Rattle.page_steps.specs.Turns.{IsReady, HasAdvanced, HasRead, CanRead};

use crate::forms::{formed, is_write, merge};
use crate::nexts::{Takes, Unpins, give_by};
use crate::stage::{DiskHeld, Head, Lent, Own, PieceEnd, Progress, Scratch, Stage};
use crate::values::pool_of;
use backing_dev::Backing;
use cell_arena::Cell;
use class_pool::ClassPool;
use lock_row::{Hand, Held, LockNo};
use slot_entry::{Entry, Stored, restore};
use std::marker::Brand;
use zr_base::Page;

/// Takes the class of the page's object.
pub(crate) fn seen<D: Backing, H: Hand<Value = DiskHeld<D>>>(
    head: Head,
    entry: Entry,
    object: Stored,
    hand: &mut H,
    scratch: &Scratch,
) -> (Stage<D>, Progress)
    requires { IsReady H.can_take H.takes H.can_give {D = D} head scratch.now (stage.Seen entry object)
        hand.old }
    ensures { HasAdvanced H.takes H.misses H.gives head scratch.now (stage.Seen entry object)
        hand.old scratch.now result.0 hand.new result.1 }
{
    let lock = LockNo::Class(object.class);
    match hand.try_take::<Takes>(lock) {
        None => (Stage::Seen(entry, object), Progress::Waits(lock)),
        Some(value) => (
            Stage::Pinning(entry, object, pool_of(value)),
            Progress::Moved,
        ),
    }
}

// Two parts without so many bytes at their beginning.
fn behind<'a>(first: &'a [u8], second: &'a [u8], gone: usize) -> (&'a [u8], &'a [u8])
    requires { gone ≤ length first.now + length second.now }
    ensures { result.0.now ++ result.1.now ≡ drop gone (first.now ++ second.now) }
{
    if gone <= first.len() {
        (&first[gone..], second)
    } else {
        (&second[gone - first.len()..], &[])
    }
}

// So many bytes at the beginning of two parts.
fn front<'a>(first: &'a [u8], second: &'a [u8], len: usize) -> (&'a [u8], &'a [u8])
    requires { len ≤ length first.now + length second.now }
    ensures { result.0.now ++ result.1.now ≡ take len (first.now ++ second.now) }
{
    if len <= first.len() {
        (&first[..len], &[])
    } else {
        (first, &second[..len - first.len()])
    }
}

/// Reads the page from its object's cell, whose bytes may lie in two frames.
pub fn read_cell(lent: &Lent, page: &mut Page)
    requires { CanRead lent.now }
    ensures { page.new ≡ page_in_cell lent.now.object lent.now.cell }
{
    let object = lent.object;
    let header = if object.len == 4096 { 0 } else { 8 };
    let (left, right) = lent.cell.parts();
    let (first, second) = behind(left, right, header);
    let (first, second) = front(first, second, object.len as usize);
    restore(first, second, object.huge, page);
}

// The page was read from its object's cell.
fn read_stage<D: Backing>(head: Head, entry: Entry, lent: Lent, scratch: &mut Scratch) -> Stage<D>
    requires { HasObject head entry lent.object }
    ensures { HasRead head scratch.old entry lent scratch.new result }
{
    if is_write(head.work) {
        merge(head.piece, &scratch.page, &mut scratch.fresh);
        formed(
            head,
            Own {
                entry,
                lent: Some(lent),
                read: true,
            },
            scratch,
        )
    } else {
        Stage::Pinned(entry, lent, None)
    }
}

/// Pins an object that has a page's bytes: its cell, from which the page can be read.
pub fn pin_object(pool: &mut ClassPool, object: Stored) -> Cell
    requires { CanPin object pool.old }
    ensures lends { Lends pool.old pool.new object.handle.0 result }
    ensures read { CanRead (record { object = object; cell = result }) }
{
    pool.pin(object.handle)
}

/// Unpins an object.
pub fn unpin_object(pool: &mut ClassPool, object: Stored, cell: Cell)
    requires { IsLent pool.old object.handle.0 cell }
    ensures { Returns pool.old pool.new object.handle.0 }
{
    pool.unpin(object.handle, cell);
}

/// Pins the object, gives its class back, and reads the page.
pub(crate) fn pin<D: Backing, H: Hand<Value = DiskHeld<D>>>(
    head: Head,
    entry: Entry,
    object: Stored,
    pool: ClassPool,
    hand: &mut H,
    scratch: &mut Scratch,
) -> (Stage<D>, Progress)
    requires { IsReady H.can_take H.takes H.can_give {D = D} head scratch.old (stage.Pinning entry object
        pool) hand.old }
    ensures { HasAdvanced H.takes H.misses H.gives head scratch.old (stage.Pinning entry object
        pool) hand.old scratch.new result.0 hand.new result.1 }
{
    let mut lender = pool;
    let cell = pin_object(&mut lender, object);
    let lock = LockNo::Class(object.class);
    give_by::<D, H, Brand, Stored, Cell, LockNo>(
        hand,
        lock,
        Held::Class(lender),
        &object,
        &cell,
        &lock,
    );
    let lent = Lent { object, cell };
    read_cell(&lent, &mut scratch.page);
    (read_stage(head, entry, lent, scratch), Progress::Moved)
}

/// Takes the class of the object that is pinned.
pub(crate) fn pinned<D: Backing, H: Hand<Value = DiskHeld<D>>>(
    head: Head,
    entry: Entry,
    lent: Lent,
    end: Option<PieceEnd>,
    hand: &mut H,
    scratch: &Scratch,
) -> (Stage<D>, Progress)
    requires { IsReady H.can_take H.takes H.can_give {D = D} head scratch.now (stage.Pinned entry lent end)
        hand.old }
    ensures { HasAdvanced H.takes H.misses H.gives head scratch.now (stage.Pinned entry lent end)
        hand.old scratch.now result.0 hand.new result.1 }
{
    let lock = LockNo::Class(lent.object.class);
    match hand.try_take::<Takes>(lock) {
        None => (Stage::Pinned(entry, lent, end), Progress::Waits(lock)),
        Some(value) => (
            Stage::Unpinning(entry, lent, end, pool_of(value)),
            Progress::Moved,
        ),
    }
}

// The cell is back.
fn unpinned<D: Backing>(entry: Entry, end: Option<PieceEnd>) -> Stage<D>
    ensures { result ≡ unpinned_by entry end }
{
    match end {
        None => Stage::Leaving(entry),
        Some(refusal) => Stage::Refused(entry, true, refusal),
    }
}

/// Unpins the object, and gives its class back.
pub(crate) fn unpin<D: Backing, H: Hand<Value = DiskHeld<D>>>(
    head: Head,
    entry: Entry,
    lent: Lent,
    end: Option<PieceEnd>,
    pool: ClassPool,
    hand: &mut H,
    scratch: &Scratch,
) -> (Stage<D>, Progress)
    requires { IsReady H.can_take H.takes H.can_give {D = D} head scratch.now (stage.Unpinning entry lent
        end pool) hand.old }
    ensures { HasAdvanced H.takes H.misses H.gives head scratch.now (stage.Unpinning entry lent end
        pool) hand.old scratch.now result.0 hand.new result.1 }
{
    let Lent { object, cell } = lent;
    let mut lender = pool;
    unpin_object(&mut lender, object, cell);
    hand.give::<Unpins>(LockNo::Class(object.class), Held::Class(lender));
    (unpinned(entry, end), Progress::Moved)
}
