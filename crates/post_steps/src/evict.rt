//! The events by which a page whose mark still stands goes over to its block: its object is freed, the
//! block becomes the page's, the account counts the page, and the entry gets its new form.

ghost use Rattle.std.specs.Prelude.{◌≡◌, ◌-◌, ◌+◌, ◌^◌, ◌<◌, ◌≤◌};
ghost use Rattle.class_pool.specs.Pool.{IsAtHome};
ghost use Rattle.page_steps.specs.Pools.{Drops};
ghost use Rattle.page_steps.specs.Visits.{put_back, wrote_page};
ghost use Rattle.post_steps.specs.declared.writeback.WritebackStage.TheVariants as stage;
ghost use Rattle.post_steps.specs.Writeback.{IsReady, HasAdvanced};

use crate::flight::block_of;
use crate::nexts::Commits;
use crate::visit::onward;
use crate::writeback::{WritebackHead, WritebackStage};
use backing_dev::Backing;
use block_map::Blocks;
use class_pool::ClassPool;
use lock_row::{Hand, Held, LockNo, Trip};
use mem_account::{Account, Delta, Weight};
use page_steps::{
    DiskHeld, Progress, Scratch, Takes, account_of, blocks_of, give_by, pool_of, weight_in,
};
use slot_entry::{Entry, Kept, Stored};
use std::marker::Brand;
use zr_base::PageIx;

/// Takes the class of the page's object.
pub(crate) fn win<D: Backing, H: Hand<Value = DiskHeld<D>>>(
    head: WritebackHead,
    x: Trip,
    entry: Entry,
    object: Stored,
    hand: &mut H,
    scratch: &Scratch,
) -> (WritebackStage<D>, Progress)
    requires { IsReady H.can_take H.takes H.can_give {D = D} head scratch.now (stage.Won x entry
        object) hand.old }
    ensures { HasAdvanced H.takes H.misses H.gives head scratch.now (stage.Won x entry object)
        hand.old scratch.now result.0 hand.new result.1 }
{
    let lock = LockNo::Class(object.class);
    match hand.try_take::<Takes>(lock) {
        None => (WritebackStage::Won(x, entry, object), Progress::Waits(lock)),
        Some(value) => (
            WritebackStage::Freeing(x, entry, object, pool_of(value)),
            Progress::Moved,
        ),
    }
}

// Frees an object. Gives the frames that its zspage had.
fn dropped(pool: &mut ClassPool, object: Stored) -> u32
    requires { IsAtHome pool.old object.handle.0 }
    ensures { Drops pool.old pool.new object.handle.0 result }
{
    pool.free(object.handle)
}

/// Frees the object, and gives its class.
pub(crate) fn free<D: Backing, H: Hand<Value = DiskHeld<D>>>(
    head: WritebackHead,
    x: Trip,
    entry: Entry,
    object: Stored,
    pool: ClassPool,
    hand: &mut H,
    scratch: &Scratch,
) -> (WritebackStage<D>, Progress)
    requires { IsReady H.can_take H.takes H.can_give {D = D} head scratch.now (stage.Freeing x entry
        object pool) hand.old }
    ensures { HasAdvanced H.takes H.misses H.gives head scratch.now (stage.Freeing x entry object
        pool) hand.old scratch.now result.0 hand.new result.1 }
{
    let mut owner = pool;
    let frames = dropped(&mut owner, object);
    let lock = LockNo::Class(object.class);
    give_by::<D, H, Brand, u32, Entry, LockNo>(
        hand,
        lock,
        Held::Class(owner),
        &frames,
        &entry,
        &lock,
    );
    let was = weight_in(entry.kept());
    let mut emptied = entry;
    emptied.put(Kept::Empty);
    (
        WritebackStage::Backing(x, emptied, frames, was),
        Progress::Moved,
    )
}

/// Takes the blocks.
pub(crate) fn back<D: Backing, H: Hand<Value = DiskHeld<D>>>(
    head: WritebackHead,
    x: Trip,
    entry: Entry,
    frames: u32,
    was: Weight,
    hand: &mut H,
    scratch: &Scratch,
) -> (WritebackStage<D>, Progress)
    requires { IsReady H.can_take H.takes H.can_give {D = D} head scratch.now (stage.Backing x entry
        frames was) hand.old }
    ensures { HasAdvanced H.takes H.misses H.gives head scratch.now (stage.Backing x entry frames
        was) hand.old scratch.now result.0 hand.new result.1 }
{
    let lock = LockNo::Blocks;
    match hand.try_take::<Takes>(lock) {
        None => (
            WritebackStage::Backing(x, entry, frames, was),
            Progress::Waits(lock),
        ),
        Some(value) => (
            WritebackStage::Committing(x, entry, frames, was, blocks_of(value)),
            Progress::Moved,
        ),
    }
}

/// Makes the block the page's, and gives the blocks.
pub(crate) fn commit<D: Backing, H: Hand<Value = DiskHeld<D>>>(
    head: WritebackHead,
    x: Trip,
    entry: Entry,
    frames: u32,
    was: Weight,
    blocks: Blocks,
    hand: &mut H,
    scratch: &Scratch,
) -> (WritebackStage<D>, Progress)
    requires { IsReady H.can_take H.takes H.can_give {D = D} head scratch.now (stage.Committing x
        entry frames was blocks) hand.old }
    ensures { HasAdvanced H.takes H.misses H.gives head scratch.now (stage.Committing x entry frames
        was blocks) hand.old scratch.now result.0 hand.new result.1 }
{
    let mut map = blocks;
    map.commit(block_of(x));
    hand.give::<Commits>(LockNo::Blocks, Held::Blocks(map));
    (
        WritebackStage::Owing(x, entry, frames, was),
        Progress::Moved,
    )
}

/// Takes the account.
pub(crate) fn owe<D: Backing, H: Hand<Value = DiskHeld<D>>>(
    head: WritebackHead,
    x: Trip,
    entry: Entry,
    frames: u32,
    was: Weight,
    hand: &mut H,
    scratch: &Scratch,
) -> (WritebackStage<D>, Progress)
    requires { IsReady H.can_take H.takes H.can_give {D = D} head scratch.now (stage.Owing x entry
        frames was) hand.old }
    ensures { HasAdvanced H.takes H.misses H.gives head scratch.now (stage.Owing x entry frames was)
        hand.old scratch.now result.0 hand.new result.1 }
{
    let lock = LockNo::Account;
    match hand.try_take::<Takes>(lock) {
        None => (
            WritebackStage::Owing(x, entry, frames, was),
            Progress::Waits(lock),
        ),
        Some(value) => (
            WritebackStage::Paying(x, entry, frames, was, account_of(value)),
            Progress::Moved,
        ),
    }
}

/// Gives frames back, counts the page as one on the device, and gives the account.
pub(crate) fn pay<D: Backing, H: Hand<Value = DiskHeld<D>>>(
    head: WritebackHead,
    x: Trip,
    entry: Entry,
    frames: u32,
    was: Weight,
    account: Account,
    hand: &mut H,
    scratch: &Scratch,
) -> (WritebackStage<D>, Progress)
    requires { IsReady H.can_take H.takes H.can_give {D = D} head scratch.now (stage.Paying x entry
        frames was account) hand.old }
    ensures { HasAdvanced H.takes H.misses H.gives head scratch.now (stage.Paying x entry frames was
        account) hand.old scratch.now result.0 hand.new result.1 }
{
    let mut after = account;
    after.give_back(frames as u64);
    after.count(Delta::Kept {
        old: was,
        new: Weight::Back,
    });
    let lock = LockNo::Account;
    give_by::<D, H, Brand, Entry, LockNo, LockNo>(
        hand,
        lock,
        Held::Account(after),
        &entry,
        &lock,
        &lock,
    );
    (WritebackStage::Putting(x, entry), Progress::Moved)
}

// The entry of a page that is kept in this block.
fn kept_back(block: u32, entry: Entry) -> Entry
    ensures { result ≡ put_back block entry }
{
    let mut page = entry;
    page.put(Kept::Wb(block));
    page.set_under(None);
    page.clear_idle();
    page
}

// At the next page, with one page more that is on the device.
fn wrote(x: Trip) -> Trip
    requires { (x.page < 2 ^ 32 - 1) × (x.wrote + x.lost ≤ x.page) }
    ensures { result ≡ wrote_page x }
{
    Trip {
        page: x.page + 1,
        wrote: x.wrote + 1,
        lost: x.lost,
        block: None,
    }
}

/// Keeps the page in its block, and gives its slot.
pub(crate) fn put<D: Backing, H: Hand<Value = DiskHeld<D>>>(
    head: WritebackHead,
    x: Trip,
    entry: Entry,
    hand: &mut H,
    scratch: &Scratch,
) -> (WritebackStage<D>, Progress)
    requires { IsReady H.can_take H.takes H.can_give {D = D} head scratch.now (stage.Putting x entry)
        hand.old }
    ensures { HasAdvanced H.takes H.misses H.gives head scratch.now (stage.Putting x entry) hand.old
        scratch.now result.0 hand.new result.1 }
{
    let lock = LockNo::Slot(PageIx(x.page));
    give_by::<D, H, Brand, WritebackHead, LockNo, LockNo>(
        hand,
        lock,
        Held::Slot(kept_back(block_of(x), entry)),
        &head,
        &lock,
        &lock,
    );
    onward(wrote(x), head)
}
