//! A read and a write of a part of a page that is on the device, whose first read fails: event by
//! event, over the row of a disk of one page.
//!
//! | Call | After the page's slot | End | The page's order then | Failed reads, writes |
//! |---|---|---|---|---|
//! | a read | device, account, slot | `Eio` with fault 1 | the read | 1, 0 |
//! | the same again | device, slot | `Read` at 0 | the second read | 1, 0 |
//! | a write of a sector | device, account, slot | `Eio` with fault 1 | empty | 0, 1 |
//! | a read then | device, slot | `Read` at 0 | the read | 0, 1 |
//!
//! The order is emptied before each call, as it is before a phase, so that it has room for a tag.

ghost use Rattle.std.specs.Prelude.{◌≡◌, IfOk, OnOk, IsTrue, Some, None};
ghost use Rattle.lock_row.specs.Rows.{IsIn, cell};
ghost use Rattle.page_steps.specs.declared.stage.Stage.TheVariants as stage;
ghost use Rattle.page_steps.specs.Calls.{IsFit, IsGoing};
ghost use Rattle.device_faults.specs.OnePage.{IsDisk, HasRoom, HasAccount, HasBlock, CanGo, DoesWork, IsReady, IsNew};

use arrayvec::ArrayVec;
use backing_dev::{Dev, MemBacking};
use block_map::{Blocks, Reserve};
use lock_row::{Hand, Held, LockNo, SimRow, Still};
use mem_account::{Account, Delta, Weight};
use page_steps::{DiskHeld, PageCall, PieceEnd, Progress, Scratch, Stage};
use size_class::ClassTable;
use slot_entry::{Entry, Kept};
use std::alloc::Global;
use std::test::Fail;
use zr_base::{Page, PageIx, Piece, Stuff, Tag};

type Disk = SimRow<DiskHeld<MemBacking>>;

type Call = PageCall<MemBacking>;

const SLOT: LockNo = LockNo::Slot(PageIx(0));

// ---- events

// The next event of a call, by the hand of the row.
fn turn(call: &mut Call, disk: &mut Disk, scratch: &mut Scratch) -> Progress
    requires going { IsGoing call.old.stage }
    requires fit { IsFit call.old.head scratch.old call.old.stage }
    requires work { DoesWork call.old.head scratch.old }
    requires disk { IsDisk disk.old }
    requires can { CanGo call.old.head scratch.old call.old.stage disk.old }
    ensures head { call.new.head ≡ call.old.head }
    ensures fit { IsFit call.old.head scratch.new call.new.stage }
    ensures work { DoesWork call.old.head scratch.new }
    ensures disk { IsDisk disk.new }
{
    let mut hand = disk.hand(0);
    call.advance(&mut hand, scratch)
}

// The first event of a call, which takes the page's slot.
fn begin(call: &mut Call, disk: &mut Disk, scratch: &mut Scratch) -> Progress
    requires new { IsNew call.old.head scratch.old call.old.stage }
    requires disk { IsDisk disk.old }
    requires room { HasRoom disk.old }
    ensures head { call.new.head ≡ call.old.head }
    ensures fit { IsFit call.old.head scratch.new call.new.stage }
    ensures work { DoesWork call.old.head scratch.new }
    ensures disk { IsDisk disk.new }
{
    turn(call, disk, scratch)
}

// Whether a lock of the row is held.
fn is_out(disk: &Disk, lock: LockNo) -> bool
    requires { IsIn disk.now lock }
    ensures { IsTrue result → cell disk.now lock ≡ Some None }
{
    disk.value(lock).is_none()
}

// Whether the account is at home.
fn has_account(disk: &Disk) -> bool
    ensures { IsTrue result → HasAccount disk.now }
{
    matches!(disk.value(LockNo::Account), Some(Held::Account(_)))
}

// Whether the device is at home, and has this block.
fn has_block(disk: &Disk, block: u32) -> bool
    ensures { IsTrue result → HasBlock disk.now block }
{
    match disk.value(LockNo::Device) {
        Some(Held::Device(device)) => block < device.blocks(),
        _ => false,
    }
}

// Whether the row has what the next event takes, or the place of what it gives.
fn is_ready(call: &Call, disk: &Disk) -> bool
    requires disk { IsDisk disk.now }
    ensures ready { IsTrue result → IsReady call.now.stage disk.now }
{
    match &call.stage {
        Stage::Away(_, block) => has_block(disk, *block),
        Stage::Fetching(_, _, _) => is_out(disk, LockNo::Device),
        Stage::Failing(_, _) => has_account(disk),
        Stage::Counting(_, _, _) => is_out(disk, LockNo::Account),
        Stage::Missed(_, _) => is_out(disk, SLOT),
        Stage::Leaving(_) => is_out(disk, SLOT),
        _ => false,
    }
}

// A later event; none where the row isn't ready for it.
fn step(call: &mut Call, disk: &mut Disk, scratch: &mut Scratch) -> Option<Progress>
    requires page { call.old.head.piece.page.0 ≡ 0 }
    requires fit { IsFit call.old.head scratch.old call.old.stage }
    requires work { DoesWork call.old.head scratch.old }
    requires disk { IsDisk disk.old }
    ensures head { call.new.head ≡ call.old.head }
    ensures fit { IsFit call.old.head scratch.new call.new.stage }
    ensures work { DoesWork call.old.head scratch.new }
    ensures disk { IsDisk disk.new }
{
    if !is_ready(call, disk) {
        return None;
    }
    Some(turn(call, disk, scratch))
}

// Whether the call is over.
fn is_over(call: &Call) -> bool {
    matches!(&call.stage, Stage::Over)
}

// An event after the first: its lock, whether that is out after it, and the progress.
type Event = (LockNo, bool, Progress);

// Whether these events follow the taking of the slot, and the call is over then.
fn goes(call: &mut Call, disk: &mut Disk, scratch: &mut Scratch, events: &[Event]) -> bool
    requires new { IsNew call.old.head scratch.old call.old.stage }
    requires disk { IsDisk disk.old }
    requires room { HasRoom disk.old }
    ensures disk { IsDisk disk.new }
{
    if begin(call, disk, scratch) != Progress::Moved {
        return false;
    }
    for event in events {
        let (lock, out, progress) = event;
        if step(call, disk, scratch) != Some(*progress) {
            return false;
        }
        if disk.value(*lock).is_none() != *out {
            return false;
        }
    }
    is_over(call)
}

// ---- the disk

// A page with words of 1 in its first half, and zeros after it.
fn half_page() -> Page {
    let mut page = Page::zero();
    let mut sector = [0; 512];
    Stuff::Fill(1).sector(0, &mut sector);
    for at in 0..4 {
        page.put_sector(at, &sector);
    }
    page
}

// The entry of a page that is in block 0, last accessed at 3 seconds.
fn entry_there(alloc: Global) -> Entry {
    let mut entry = Entry::new(alloc);
    entry.accessed(3);
    entry.put(Kept::Wb(0));
    entry
}

// The account of that page.
fn account_there() -> Account {
    let mut account = Account::new();
    account.count(Delta::Kept {
        old: Weight::Empty,
        new: Weight::Back,
    });
    account
}

// The blocks, of which the page owns the one.
fn blocks_there(alloc: Global) -> Result<Blocks, Fail> {
    let mut blocks = Blocks::new(alloc, 1)?;
    let Reserve::Got(block) = blocks.reserve() else {
        return Err("no block is free".into());
    };
    blocks.commit(block);
    Ok(blocks)
}

// The device, which has the page in its one block, and whose first read is to fail.
fn device_there(alloc: Global) -> Result<Dev<MemBacking>, Fail> {
    let mut device = Dev::new(MemBacking::new(alloc, 1, &[1], &[])?);
    device
        .write(0, &half_page())
        .map_err(|_fault| "a write failed")?;
    Ok(device)
}

// The row of the disk.
fn new_disk(alloc: Global) -> Result<Disk, Fail>
    ensures disk { IfOk result IsDisk }
{
    let names = vec![in alloc; SLOT, LockNo::Account, LockNo::Blocks, LockNo::Device]?;
    let mut cells = Vec::with_capacity(alloc, 4)?;
    cells.push(Some(Held::Slot(entry_there(alloc))))?;
    cells.push(Some(Held::Account(account_there())))?;
    cells.push(Some(Held::Blocks(blocks_there(alloc)?)))?;
    cells.push(Some(Held::Device(device_there(alloc)?)))?;
    Ok(SimRow::new(names, cells))
}

// Empties the order of the page, and makes room for a tag.
fn make_room(disk: &mut Disk) -> Result<(), Fail>
    requires disk { IsDisk disk.old }
    ensures disk { OnOk result (IsDisk disk.new) }
    ensures room { OnOk result (HasRoom disk.new) }
{
    let mut hand = disk.hand(0);
    let Some(Held::Slot(mut entry)) = hand.try_take::<Still>(SLOT) else {
        return Err("the page's slot is held".into());
    };
    entry.reserve_order(1)?;
    hand.give::<Still>(SLOT, Held::Slot(entry));
    Ok(())
}

// ---- calls

// The buffers of a call.
fn new_scratch() -> Scratch {
    Scratch {
        page: Page::zero(),
        fresh: Page::zero(),
        packed: ArrayVec::new(),
        table: ClassTable::new(4),
    }
}

const WHOLE: Piece = Piece {
    page: PageIx(0),
    first: 0,
    count: 8,
};

const PART: Piece = Piece {
    page: PageIx(0),
    first: 0,
    count: 1,
};

// A read of the page, at 7 seconds.
fn read(op: u32, scratch: &Scratch) -> Call
    ensures { IsNew result.head scratch.now result.stage }
{
    PageCall::read(WHOLE, Tag { actor: 0, op }, 7)
}

// A write of the first sector of the page, at 7 seconds.
fn write(op: u32, scratch: &mut Scratch) -> Call
    ensures { IsNew result.head scratch.new result.stage }
{
    let mut sector = [0; 512];
    Stuff::Fill(9).sector(0, &mut sector);
    scratch.fresh.put_sector(0, &sector);
    PageCall::write(PART, Tag { actor: 0, op }, 7)
}

// The events after the first of a call whose read of the device fails.
const FAILS: [Event; 5] = [
    (LockNo::Device, true, Progress::Moved),
    (LockNo::Device, false, Progress::Moved),
    (LockNo::Account, true, Progress::Moved),
    (LockNo::Account, false, Progress::Moved),
    (SLOT, false, Progress::Done(PieceEnd::Eio { fault: 1 })),
];

// Those of a read that succeeds, the first on the page since its order was emptied.
const READS: [Event; 3] = [
    (LockNo::Device, true, Progress::Moved),
    (LockNo::Device, false, Progress::Moved),
    (SLOT, false, Progress::Done(PieceEnd::Read { at: 0 })),
];

// The page's entry at home: whether it is as these say, on the device and without a mark.
fn has_entry(disk: &Disk, order: &[Tag], touched: u64) -> bool {
    match disk.value(SLOT) {
        Some(Held::Slot(entry)) => {
            entry.order() == order
                && entry.touched() == touched
                && entry.kept() == Kept::Wb(0)
                && entry.under().is_none()
                && !entry.idle()
        }
        _ => false,
    }
}

// Whether the account has so many failed reads and failed writes, and the page on the device.
fn has_failed(disk: &Disk, reads: u64, writes: u64) -> bool {
    match disk.value(LockNo::Account) {
        Some(Held::Account(account)) => {
            let stat = account.io_stat();
            stat.failed_reads == reads && stat.failed_writes == writes && account.bd_count() == 1
        }
        _ => false,
    }
}

// Whether so many reads of the device succeeded.
fn has_read(disk: &Disk, reads: u64) -> bool {
    match disk.value(LockNo::Device) {
        Some(Held::Device(device)) => device.reads() == reads && device.writes() == 1,
        _ => false,
    }
}

// Whether the page owns its block.
fn owns_block(disk: &Disk) -> bool {
    match disk.value(LockNo::Blocks) {
        Some(Held::Blocks(blocks)) => blocks.owned() == 1,
        _ => false,
    }
}

// Whether all of the disk is as these say: the page's order and time, how many reads and writes
// failed, and how many reads of the device succeeded. The page is on the device, and owns its block.
fn is_left(disk: &Disk, order: &[Tag], touched: u64, failed: (u64, u64), reads: u64) -> bool {
    has_entry(disk, order, touched)
        && has_failed(disk, failed.0, failed.1)
        && has_read(disk, reads)
        && owns_block(disk)
}

// ---- runs

// Whether a call goes as one does whose read of the device fails.
fn fails(call: &mut Call, disk: &mut Disk, scratch: &mut Scratch) -> bool
    requires new { IsNew call.old.head scratch.old call.old.stage }
    requires disk { IsDisk disk.old }
    requires room { HasRoom disk.old }
    ensures disk { IsDisk disk.new }
{
    goes(call, disk, scratch, &FAILS) && !call.device_read()
}

// Whether a call goes as a read does that succeeds.
fn succeeds(call: &mut Call, disk: &mut Disk, scratch: &mut Scratch) -> bool
    requires new { IsNew call.old.head scratch.old call.old.stage }
    requires disk { IsDisk disk.old }
    requires room { HasRoom disk.old }
    ensures disk { IsDisk disk.new }
{
    goes(call, disk, scratch, &READS) && call.device_read()
}

// Whether a read fails.
fn read_fails(op: u32, disk: &mut Disk, scratch: &mut Scratch) -> Result<bool, Fail>
    requires disk { IsDisk disk.old }
    ensures disk { OnOk result (IsDisk disk.new) }
{
    make_room(disk)?;
    let mut call = read(op, scratch);
    Ok(fails(&mut call, disk, scratch))
}

// Whether a write of a sector fails.
fn write_fails(op: u32, disk: &mut Disk, scratch: &mut Scratch) -> Result<bool, Fail>
    requires disk { IsDisk disk.old }
    ensures disk { OnOk result (IsDisk disk.new) }
{
    make_room(disk)?;
    let mut call = write(op, scratch);
    Ok(fails(&mut call, disk, scratch))
}

// Whether a read succeeds, and reads the page.
fn read_succeeds(op: u32, disk: &mut Disk, scratch: &mut Scratch) -> Result<bool, Fail>
    requires disk { IsDisk disk.old }
    ensures disk { OnOk result (IsDisk disk.new) }
{
    make_room(disk)?;
    let mut call = read(op, scratch);
    Ok(succeeds(&mut call, disk, scratch) && scratch.page.bytes() == half_page().bytes())
}

// ---- tests

const FIRST: Tag = Tag { actor: 0, op: 0 };

const SECOND: Tag = Tag { actor: 0, op: 1 };

// A read that fails, and the same again.
fn reads_twice(disk: &mut Disk, scratch: &mut Scratch) -> Result<bool, Fail>
    requires { IsDisk disk.old }
{
    let failed = read_fails(0, disk, scratch)?;
    let noted = is_left(disk, &[FIRST], 7, (1, 0), 0);
    let read = read_succeeds(1, disk, scratch)?;
    Ok(failed && noted && read && is_left(disk, &[SECOND], 7, (1, 0), 1))
}

// A write of a sector that fails, and a read.
fn writes_and_reads(disk: &mut Disk, scratch: &mut Scratch) -> Result<bool, Fail>
    requires { IsDisk disk.old }
{
    let failed = write_fails(0, disk, scratch)?;
    let kept = is_left(disk, &[], 3, (0, 1), 0);
    let read = read_succeeds(1, disk, scratch)?;
    Ok(failed && kept && read && is_left(disk, &[SECOND], 7, (0, 1), 1))
}

#[test]
fn a_failed_read_is_noted(rt: HostRuntime) -> Result<(), Fail> {
    let mut disk = new_disk(rt.alloc())?;
    let good = reads_twice(&mut disk, &mut new_scratch())?;
    assert!(rt; good);
    Ok(())
}

#[test]
fn a_failed_write_leaves_its_page(rt: HostRuntime) -> Result<(), Fail> {
    let mut disk = new_disk(rt.alloc())?;
    let good = writes_and_reads(&mut disk, &mut new_scratch())?;
    assert!(rt; good);
    Ok(())
}
