//! The events of a writeback that take a page's slot and reserve a block, and those by which it leaves
//! a page that isn't written back.

ghost use Rattle.std.specs.Prelude.{◌≡◌, ◌≢◌, ◌-◌, ◌^◌, ◌<◌, Some};
ghost use Rattle.block_map.specs.BlockMap.{AnswersReserve};
ghost use Rattle.call_history.specs.declared.part.PartEnd.TheVariants as over;
ghost use Rattle.slot_entry.specs.Entries.{is_eligible};
ghost use Rattle.page_steps.specs.Calls.{end_of};
ghost use Rattle.page_steps.specs.Visits.{passed_page, refused_end};
ghost use Rattle.page_steps.specs.declared.stage.Progress.TheVariants as progress;
ghost use Rattle.page_steps.specs.declared.stage.PieceEnd.TheVariants as ends;
ghost use Rattle.post_steps.specs.declared.writeback.WritebackStage.TheVariants as stage;
ghost use Rattle.post_steps.specs.Writeback.{IsReady, HasAdvanced, IsStop, arrived_with, without_block};

use crate::nexts::LeavesAll;
use crate::writeback::{WritebackHead, WritebackStage};
use backing_dev::Backing;
use block_map::{Blocks, Reserve};
use lock_row::{Hand, Held, LockNo, Trip};
use page_steps::{
    DiskHeld, PieceEnd, Progress, Scratch, Takes, blocks_of, entry_of, give_by, take_by,
};
use slot_entry::{Entry, Kept, Stored};
use std::marker::Brand;
use zr_base::{Mode, PageIx};

// The slot of a page is taken, and the page is to be written back or not.
fn arrived<D: Backing>(x: Trip, entry: Entry, mode: Mode) -> WritebackStage<D>
    ensures is { result ≡ arrived_with (is_eligible mode entry) x entry entry.kept }
{
    if entry.eligible(mode) {
        match entry.kept() {
            Kept::Obj(object) => WritebackStage::Asking(x, entry, object),
            _ => WritebackStage::Passing(x, entry),
        }
    } else {
        WritebackStage::Passing(x, entry)
    }
}

/// Takes the slot of the first page.
pub(crate) fn start<D: Backing, H: Hand<Value = DiskHeld<D>>>(
    head: WritebackHead,
    hand: &mut H,
    scratch: &Scratch,
) -> (WritebackStage<D>, Progress)
    requires { IsReady H.can_take H.takes H.can_give {D = D} head scratch.now stage.Start hand.old }
    ensures { HasAdvanced H.takes H.misses H.gives head scratch.now stage.Start hand.old
        scratch.now result.0 hand.new result.1 }
{
    let lock = LockNo::Slot(PageIx(0));
    match take_by::<D, H, Brand, WritebackHead>(hand, lock, &head) {
        None => (WritebackStage::Start, Progress::Waits(lock)),
        Some(value) => {
            let first = Trip {
                page: 0,
                wrote: 0,
                lost: 0,
                block: None,
            };
            (arrived(first, entry_of(value), head.mode), Progress::Moved)
        }
    }
}

/// Takes the slot of the page that it is at.
pub(crate) fn arrive<D: Backing, H: Hand<Value = DiskHeld<D>>>(
    head: WritebackHead,
    x: Trip,
    hand: &mut H,
    scratch: &Scratch,
) -> (WritebackStage<D>, Progress)
    requires { IsReady H.can_take H.takes H.can_give {D = D} head scratch.now (stage.Arriving x)
        hand.old }
    ensures { HasAdvanced H.takes H.misses H.gives head scratch.now (stage.Arriving x) hand.old
        scratch.now result.0 hand.new result.1 }
{
    let lock = LockNo::Slot(PageIx(x.page));
    match hand.try_take::<Takes>(lock) {
        None => (WritebackStage::Arriving(x), Progress::Waits(lock)),
        Some(value) => (arrived(x, entry_of(value), head.mode), Progress::Moved),
    }
}

/// The visit of a page is over, and this is the next one: the call goes on there, or is over where the
/// disk has no such page.
pub(crate) fn onward<D: Backing>(x: Trip, head: WritebackHead) -> (WritebackStage<D>, Progress)
    ensures over { x.page ≡ head.pages → (result.0 ≡ stage.Over)
        × (result.1 ≡ progress.Done (ends.Written x.wrote x.lost)) }
    ensures next { x.page ≢ head.pages → (result.0 ≡ stage.Arriving x)
        × (result.1 ≡ progress.Moved) }
{
    if x.page == head.pages {
        let end = PieceEnd::Written {
            wrote: x.wrote,
            lost: x.lost,
        };
        (WritebackStage::Over, Progress::Done(end))
    } else {
        (WritebackStage::Arriving(x), Progress::Moved)
    }
}

// At the next page.
fn passed(x: Trip) -> Trip
    requires { x.page < 2 ^ 32 - 1 }
    ensures { result ≡ passed_page x }
{
    Trip {
        page: x.page + 1,
        block: None,
        ..x
    }
}

/// Gives the slot of a page that isn't written back.
pub(crate) fn pass<D: Backing, H: Hand<Value = DiskHeld<D>>>(
    head: WritebackHead,
    x: Trip,
    entry: Entry,
    hand: &mut H,
    scratch: &Scratch,
) -> (WritebackStage<D>, Progress)
    requires { IsReady H.can_take H.takes H.can_give {D = D} head scratch.now (stage.Passing x entry)
        hand.old }
    ensures { HasAdvanced H.takes H.misses H.gives head scratch.now (stage.Passing x entry) hand.old
        scratch.now result.0 hand.new result.1 }
{
    let lock = LockNo::Slot(PageIx(x.page));
    give_by::<D, H, Brand, WritebackHead, LockNo, LockNo>(
        hand,
        lock,
        Held::Slot(entry),
        &head,
        &lock,
        &lock,
    );
    onward(passed(x), head)
}

/// Takes the blocks.
pub(crate) fn ask<D: Backing, H: Hand<Value = DiskHeld<D>>>(
    head: WritebackHead,
    x: Trip,
    entry: Entry,
    object: Stored,
    hand: &mut H,
    scratch: &Scratch,
) -> (WritebackStage<D>, Progress)
    requires { IsReady H.can_take H.takes H.can_give {D = D} head scratch.now (stage.Asking x entry
        object) hand.old }
    ensures { HasAdvanced H.takes H.misses H.gives head scratch.now (stage.Asking x entry object)
        hand.old scratch.now result.0 hand.new result.1 }
{
    let lock = LockNo::Blocks;
    match hand.try_take::<Takes>(lock) {
        None => (
            WritebackStage::Asking(x, entry, object),
            Progress::Waits(lock),
        ),
        Some(value) => (
            WritebackStage::Reserving(x, entry, object, blocks_of(value)),
            Progress::Moved,
        ),
    }
}

// How the call ends where it was answered so, and got no block.
fn refused(x: Trip, answer: Reserve) -> PieceEnd
    ensures end { end_of result ≡ over.Whole (without_block answer x) }
    ensures stop { IsStop result }
{
    let Trip { wrote, lost, .. } = x;
    match answer {
        Reserve::BudgetSpent => PieceEnd::Budget { wrote, lost },
        _ => PieceEnd::NoBlock { wrote, lost },
    }
}

// Gives the blocks as they were, of which it got none.
fn refrain<D: Backing, H: Hand<Value = DiskHeld<D>>>(
    head: WritebackHead,
    x: Trip,
    entry: Entry,
    object: Stored,
    map: Blocks,
    answer: Reserve,
    hand: &mut H,
    scratch: &Scratch,
) -> (WritebackStage<D>, Progress)
    requires ready { IsReady H.can_take H.takes H.can_give {D = D} head scratch.now (stage.Reserving x
        entry object map) hand.old }
    requires answer { AnswersReserve map answer }
    requires none { refused_end answer x ≡ Some (without_block answer x) }
    ensures { HasAdvanced H.takes H.misses H.gives head scratch.now (stage.Reserving x entry object
        map) hand.old scratch.now result.0 hand.new result.1 }
{
    let lock = LockNo::Blocks;
    give_by::<D, H, Brand, Reserve, Trip, LockNo>(
        hand,
        lock,
        Held::Blocks(map),
        &answer,
        &x,
        &lock,
    );
    (
        WritebackStage::Quitting(x, entry, refused(x, answer)),
        Progress::Moved,
    )
}

/// Reserves a block, or none, and gives the blocks.
pub(crate) fn reserve<D: Backing, H: Hand<Value = DiskHeld<D>>>(
    head: WritebackHead,
    x: Trip,
    entry: Entry,
    object: Stored,
    blocks: Blocks,
    hand: &mut H,
    scratch: &Scratch,
) -> (WritebackStage<D>, Progress)
    requires { IsReady H.can_take H.takes H.can_give {D = D} head scratch.now (stage.Reserving x entry
        object blocks) hand.old }
    ensures { HasAdvanced H.takes H.misses H.gives head scratch.now (stage.Reserving x entry object
        blocks) hand.old scratch.now result.0 hand.new result.1 }
{
    let mut map = blocks;
    let answer = map.reserve();
    match answer {
        Reserve::Got(block) => {
            let lock = LockNo::Blocks;
            give_by::<D, H, Brand, u32, LockNo, LockNo>(
                hand,
                lock,
                Held::Blocks(map),
                &block,
                &lock,
                &lock,
            );
            let next = Trip {
                block: Some(block),
                ..x
            };
            (WritebackStage::Seen(next, entry, object), Progress::Moved)
        }
        Reserve::BudgetSpent | Reserve::NoBlock => {
            refrain(head, x, entry, object, map, answer, hand, scratch)
        }
    }
}

/// Gives the slot where no block was reserved. The call is over.
pub(crate) fn quit<D: Backing, H: Hand<Value = DiskHeld<D>>>(
    head: WritebackHead,
    x: Trip,
    entry: Entry,
    end: PieceEnd,
    hand: &mut H,
    scratch: &Scratch,
) -> (WritebackStage<D>, Progress)
    requires { IsReady H.can_take H.takes H.can_give {D = D} head scratch.now (stage.Quitting x entry
        end) hand.old }
    ensures { HasAdvanced H.takes H.misses H.gives head scratch.now (stage.Quitting x entry end)
        hand.old scratch.now result.0 hand.new result.1 }
{
    hand.give::<LeavesAll>(LockNo::Slot(PageIx(x.page)), Held::Slot(entry));
    (WritebackStage::Over, Progress::Done(end))
}
