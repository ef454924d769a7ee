//! The events of a writeback by which it copies a page into the scratch and marks the page's slot: the
//! page's object is pinned, the page is read from its cell once its class is given back, and the cell
//! goes back.

ghost use Rattle.std.specs.Prelude.{◌≡◌};
ghost use Rattle.post_steps.specs.declared.writeback.WritebackStage.TheVariants as stage;
ghost use Rattle.post_steps.specs.Writeback.{IsReady, HasAdvanced};

use crate::nexts::{Copies, Flies};
use crate::writeback::{WritebackHead, WritebackStage};
use backing_dev::Backing;
use cell_arena::Cell;
use class_pool::ClassPool;
use lock_row::{Hand, Held, LockNo, Trip};
use page_steps::{
    DiskHeld, Lent, Progress, Scratch, Takes, give_by, pin_object, pool_of, read_cell, unpin_object,
};
use slot_entry::{Entry, Stored};
use std::marker::Brand;
use zr_base::PageIx;

/// Takes the class of the page's object.
pub(crate) fn see<D: Backing, H: Hand<Value = DiskHeld<D>>>(
    head: WritebackHead,
    x: Trip,
    entry: Entry,
    object: Stored,
    hand: &mut H,
    scratch: &Scratch,
) -> (WritebackStage<D>, Progress)
    requires { IsReady H.can_take H.takes H.can_give {D = D} head scratch.now (stage.Seen x entry
        object) hand.old }
    ensures { HasAdvanced H.takes H.misses H.gives head scratch.now (stage.Seen x entry object)
        hand.old scratch.now result.0 hand.new result.1 }
{
    let lock = LockNo::Class(object.class);
    match hand.try_take::<Takes>(lock) {
        None => (
            WritebackStage::Seen(x, entry, object),
            Progress::Waits(lock),
        ),
        Some(value) => (
            WritebackStage::Pinning(x, entry, object, pool_of(value)),
            Progress::Moved,
        ),
    }
}

/// Pins the object, gives its class back, and copies the page.
pub(crate) fn pin<D: Backing, H: Hand<Value = DiskHeld<D>>>(
    head: WritebackHead,
    x: Trip,
    entry: Entry,
    object: Stored,
    pool: ClassPool,
    hand: &mut H,
    scratch: &mut Scratch,
) -> (WritebackStage<D>, Progress)
    requires { IsReady H.can_take H.takes H.can_give {D = D} head scratch.old (stage.Pinning x entry
        object pool) hand.old }
    ensures { HasAdvanced H.takes H.misses H.gives head scratch.old (stage.Pinning x entry object
        pool) hand.old scratch.new result.0 hand.new result.1 }
{
    let mut lender = pool;
    let cell = pin_object(&mut lender, object);
    let lock = LockNo::Class(object.class);
    give_by::<D, H, Brand, Stored, Cell, LockNo>(
        hand,
        lock,
        Held::Class(lender),
        &object,
        &cell,
        &lock,
    );
    let lent = Lent { object, cell };
    read_cell(&lent, &mut scratch.page);
    (WritebackStage::Pinned(x, entry, lent), Progress::Moved)
}

/// Takes the class of the object that is pinned.
pub(crate) fn regain<D: Backing, H: Hand<Value = DiskHeld<D>>>(
    head: WritebackHead,
    x: Trip,
    entry: Entry,
    lent: Lent,
    hand: &mut H,
    scratch: &Scratch,
) -> (WritebackStage<D>, Progress)
    requires { IsReady H.can_take H.takes H.can_give {D = D} head scratch.now (stage.Pinned x entry
        lent) hand.old }
    ensures { HasAdvanced H.takes H.misses H.gives head scratch.now (stage.Pinned x entry lent)
        hand.old scratch.now result.0 hand.new result.1 }
{
    let lock = LockNo::Class(lent.object.class);
    match hand.try_take::<Takes>(lock) {
        None => (
            WritebackStage::Pinned(x, entry, lent),
            Progress::Waits(lock),
        ),
        Some(value) => (
            WritebackStage::Unpinning(x, entry, lent, pool_of(value)),
            Progress::Moved,
        ),
    }
}

/// Unpins the object, and gives its class back.
pub(crate) fn unpin<D: Backing, H: Hand<Value = DiskHeld<D>>>(
    head: WritebackHead,
    x: Trip,
    entry: Entry,
    lent: Lent,
    pool: ClassPool,
    hand: &mut H,
    scratch: &Scratch,
) -> (WritebackStage<D>, Progress)
    requires { IsReady H.can_take H.takes H.can_give {D = D} head scratch.now (stage.Unpinning x entry
        lent pool) hand.old }
    ensures { HasAdvanced H.takes H.misses H.gives head scratch.now (stage.Unpinning x entry lent
        pool) hand.old scratch.now result.0 hand.new result.1 }
{
    let Lent { object, cell } = lent;
    let mut lender = pool;
    unpin_object(&mut lender, object, cell);
    hand.give::<Copies>(LockNo::Class(object.class), Held::Class(lender));
    (WritebackStage::Marking(x, entry), Progress::Moved)
}

/// Marks the page with the block, and gives its slot. From here on other actors' calls may come to
/// the page. Each that is carried out removes the mark (`Entry::accessed`), and `land` looks whether
/// this very mark still stands before the page is given up. By a mark without its block an old page
/// would be committed: examples/race_writeback_new_page.job draws the shortest interleaving with a
/// discard that does.
pub(crate) fn mark<D: Backing, H: Hand<Value = DiskHeld<D>>>(
    head: WritebackHead,
    x: Trip,
    entry: Entry,
    hand: &mut H,
    scratch: &Scratch,
) -> (WritebackStage<D>, Progress)
    requires { IsReady H.can_take H.takes H.can_give {D = D} head scratch.now (stage.Marking x entry)
        hand.old }
    ensures { HasAdvanced H.takes H.misses H.gives head scratch.now (stage.Marking x entry) hand.old
        scratch.now result.0 hand.new result.1 }
{
    let mut page = entry;
    page.set_under(x.block);
    hand.give::<Flies>(LockNo::Slot(PageIx(x.page)), Held::Slot(page));
    (WritebackStage::Flying(x), Progress::Moved)
}
