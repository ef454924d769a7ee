//! The events of a writeback while it doesn't hold the page's slot, up to where it has the slot again:
//! the block is written, or the device fails; and where its mark is gone or the write failed, the block
//! is freed.

ghost use Rattle.std.specs.Prelude.{◌≡◌, ℕ, ◌-◌, ◌+◌, ◌^◌, ◌<◌, ◌≤◌, Some};
ghost use Rattle.page_steps.specs.Steps.{is_mark_of};
ghost use Rattle.page_steps.specs.Visits.{lost_page, unmarked};
ghost use Rattle.post_steps.specs.declared.writeback.WritebackStage.TheVariants as stage;
ghost use Rattle.post_steps.specs.Writeback.{IsReady, HasAdvanced, landed_with};

use crate::nexts::{Loses, Stores};
use crate::visit::onward;
use crate::writeback::{WritebackHead, WritebackStage};
use backing_dev::{Backing, Dev};
use block_map::Blocks;
use lock_row::{Hand, Held, LockNo, Trip};
use page_steps::{
    DiskHeld, PieceEnd, Progress, Scratch, Takes, blocks_of, device_of, entry_of, give_by,
};
use slot_entry::{Entry, Kept};
use std::marker::Brand;
use zr_base::PageIx;

/// Takes the device.
pub(crate) fn fly<D: Backing, H: Hand<Value = DiskHeld<D>>>(
    head: WritebackHead,
    x: Trip,
    hand: &mut H,
    scratch: &Scratch,
) -> (WritebackStage<D>, Progress)
    requires { IsReady H.can_take H.takes H.can_give {D = D} head scratch.now (stage.Flying x)
        hand.old }
    ensures { HasAdvanced H.takes H.misses H.gives head scratch.now (stage.Flying x) hand.old
        scratch.now result.0 hand.new result.1 }
{
    let lock = LockNo::Device;
    match hand.try_take::<Takes>(lock) {
        None => (WritebackStage::Flying(x), Progress::Waits(lock)),
        Some(value) => (
            WritebackStage::Storing(x, device_of(value)),
            Progress::Moved,
        ),
    }
}

/// The block of a writeback that has one.
pub(crate) fn block_of(x: Trip) -> u32
    requires { (b : ℕ) × (x.block ≡ Some b) }
    ensures { x.block ≡ Some result }
{
    match x.block {
        Some(block) => block,
        None => unreachable!(),
    }
}

/// Writes the page to the block, and gives the device. Where this fails, it is tried no more.
pub(crate) fn store<D: Backing, H: Hand<Value = DiskHeld<D>>>(
    head: WritebackHead,
    x: Trip,
    device: Dev<D>,
    hand: &mut H,
    scratch: &Scratch,
) -> (WritebackStage<D>, Progress)
    requires { IsReady H.can_take H.takes H.can_give {D = D} head scratch.now (stage.Storing x device)
        hand.old }
    ensures { HasAdvanced H.takes H.misses H.gives head scratch.now (stage.Storing x device) hand.old
        scratch.now result.0 hand.new result.1 }
{
    let mut writer = device;
    let lock = LockNo::Device;
    match writer.write(block_of(x), &scratch.page) {
        Ok(()) => {
            hand.give::<Stores>(lock, Held::Device(writer));
            (WritebackStage::Landing(x, None), Progress::Moved)
        }
        Err(fault) => {
            give_by::<D, H, Brand, u64, LockNo, LockNo>(
                hand,
                lock,
                Held::Device(writer),
                &fault,
                &lock,
                &lock,
            );
            let end = PieceEnd::WriteEio {
                fault,
                wrote: x.wrote,
                lost: x.lost,
            };
            (WritebackStage::Landing(x, Some(end)), Progress::Moved)
        }
    }
}

// Whether a slot has the mark of this block.
fn is_mark(block: Option<u32>, under: Option<u32>) -> bool
    ensures { result ≡ is_mark_of block under }
{
    match (block, under) {
        (Some(mine), Some(shown)) => mine == shown,
        _ => false,
    }
}

// The slot is taken again.
fn landed<D: Backing>(x: Trip, end: Option<PieceEnd>, entry: Entry) -> WritebackStage<D>
    ensures is { result ≡ landed_with end (is_mark_of x.block entry.under) x entry entry.kept }
{
    if end.is_some() {
        return WritebackStage::Losing(x, entry, end);
    }
    if is_mark(x.block, entry.under()) {
        match entry.kept() {
            Kept::Obj(object) => WritebackStage::Won(x, entry, object),
            _ => WritebackStage::Losing(x, entry, end),
        }
    } else {
        WritebackStage::Losing(x, entry, end)
    }
}

/// Takes the page's slot again, which `mark` gave with the mark of the block. A call that was carried
/// out on the page since then removed that mark (`Entry::accessed`), and another writeback may have
/// marked the page anew. So the block is compared, which is held all the time and has no other mark,
/// and not only whether there is a mark: examples/race_writeback_new_page.job draws the shortest
/// interleaving with a discard for which it matters.
pub(crate) fn land<D: Backing, H: Hand<Value = DiskHeld<D>>>(
    head: WritebackHead,
    x: Trip,
    end: Option<PieceEnd>,
    hand: &mut H,
    scratch: &Scratch,
) -> (WritebackStage<D>, Progress)
    requires { IsReady H.can_take H.takes H.can_give {D = D} head scratch.now (stage.Landing x end)
        hand.old }
    ensures { HasAdvanced H.takes H.misses H.gives head scratch.now (stage.Landing x end) hand.old
        scratch.now result.0 hand.new result.1 }
{
    let lock = LockNo::Slot(PageIx(x.page));
    match hand.try_take::<Takes>(lock) {
        None => (WritebackStage::Landing(x, end), Progress::Waits(lock)),
        Some(value) => (landed(x, end, entry_of(value)), Progress::Moved),
    }
}

// The entry without the mark of this block.
fn without_mark(block: Option<u32>, entry: Entry) -> Entry
    ensures { result ≡ unmarked block entry }
{
    let mut page = entry;
    if is_mark(block, page.under()) {
        page.set_under(None);
        return page;
    }
    page
}

/// Gives the page's slot without the mark of its block.
pub(crate) fn lose<D: Backing, H: Hand<Value = DiskHeld<D>>>(
    head: WritebackHead,
    x: Trip,
    entry: Entry,
    end: Option<PieceEnd>,
    hand: &mut H,
    scratch: &Scratch,
) -> (WritebackStage<D>, Progress)
    requires { IsReady H.can_take H.takes H.can_give {D = D} head scratch.now (stage.Losing x entry
        end) hand.old }
    ensures { HasAdvanced H.takes H.misses H.gives head scratch.now (stage.Losing x entry end)
        hand.old scratch.now result.0 hand.new result.1 }
{
    hand.give::<Loses>(
        LockNo::Slot(PageIx(x.page)),
        Held::Slot(without_mark(x.block, entry)),
    );
    (WritebackStage::Undoing(x, end), Progress::Moved)
}

/// Takes the blocks.
pub(crate) fn undo<D: Backing, H: Hand<Value = DiskHeld<D>>>(
    head: WritebackHead,
    x: Trip,
    end: Option<PieceEnd>,
    hand: &mut H,
    scratch: &Scratch,
) -> (WritebackStage<D>, Progress)
    requires { IsReady H.can_take H.takes H.can_give {D = D} head scratch.now (stage.Undoing x end)
        hand.old }
    ensures { HasAdvanced H.takes H.misses H.gives head scratch.now (stage.Undoing x end) hand.old
        scratch.now result.0 hand.new result.1 }
{
    let lock = LockNo::Blocks;
    match hand.try_take::<Takes>(lock) {
        None => (WritebackStage::Undoing(x, end), Progress::Waits(lock)),
        Some(value) => (
            WritebackStage::Releasing(x, end, blocks_of(value)),
            Progress::Moved,
        ),
    }
}

// At the next page, with one page more that was written in vain.
fn lost(x: Trip) -> Trip
    requires { (x.page < 2 ^ 32 - 1) × (x.wrote + x.lost ≤ x.page) }
    ensures { result ≡ lost_page x }
{
    Trip {
        page: x.page + 1,
        wrote: x.wrote,
        lost: x.lost + 1,
        block: None,
    }
}

/// Frees the block, and gives the blocks.
pub(crate) fn release<D: Backing, H: Hand<Value = DiskHeld<D>>>(
    head: WritebackHead,
    x: Trip,
    end: Option<PieceEnd>,
    blocks: Blocks,
    hand: &mut H,
    scratch: &Scratch,
) -> (WritebackStage<D>, Progress)
    requires { IsReady H.can_take H.takes H.can_give {D = D} head scratch.now (stage.Releasing x end
        blocks) hand.old }
    ensures { HasAdvanced H.takes H.misses H.gives head scratch.now (stage.Releasing x end blocks)
        hand.old scratch.now result.0 hand.new result.1 }
{
    let mut map = blocks;
    map.release(block_of(x));
    let lock = LockNo::Blocks;
    give_by::<D, H, Brand, WritebackHead, LockNo, LockNo>(
        hand,
        lock,
        Held::Blocks(map),
        &head,
        &lock,
        &lock,
    );
    match end {
        None => onward(lost(x), head),
        Some(end) => (WritebackStage::Over, Progress::Done(end)),
    }
}
