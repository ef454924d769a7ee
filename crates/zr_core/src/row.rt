//! The row of a new disk, and the values of a row.

ghost use Rattle.std.specs.Prelude.{◌≡◌, ℕ, ◌+◌, ◌<◌, ◌≤◌, ◌^◌, List, [], ◌∷◌, ◌++◌, OnOk, IfOk, Option, Some, None, slice_get, slice_set};
ghost use Rattle.zr_base.specs.declared.limits.TheConstants.{MOST_PAGES};
ghost use Rattle.mem_account.specs.Counters.{Counters, no_counts};
ghost use Rattle.block_map.specs.BlockMap.{BlockMap};
ghost use Rattle.backing_dev.specs.Dev.{DeviceState};
ghost use Rattle.lock_row.specs.declared.names.Held.TheVariants as holds;
ghost use Rattle.slot_entry.specs.Entries.{EntryState};
ghost use Rattle.page_steps.specs.Steps.{DiskHeld};
ghost use Rattle.zr_core.specs.Rests.{slots_of, classes_of, names_of, names_by, new_disk};
ghost use Rattle.zr_core.specs.Rows.{AreNew};

use crate::limits::MOST_CHAIN;
use crate::spare::Spare;
use backing_dev::{Backing, Dev};
use block_map::Blocks;
use class_pool::ClassPool;
use lock_row::{Hand, Held, LockNo, SimRow, Still, names_have_places};
use mem_account::Account;
use page_steps::DiskHeld;
use size_class::{CLASSES, ClassTable, size};
use slot_entry::Entry;
use std::alloc::{AllocError, Global};
use zr_base::PageIx;

// Puts the slots of a new disk into an empty row.
fn push_slots<D: Backing>(
    alloc: Global,
    pages: u32,
    names: &mut Vec<LockNo>,
    cells: &mut Vec<Option<DiskHeld<D>>>,
) -> Result<(), AllocError>
    requires no_names { names.old.items ≡ [] }
    requires no_cells { cells.old.items ≡ [] }
    ensures names { OnOk result (names.new.items ≡ slots_of pages) }
    ensures cells { OnOk result ((limit : ℕ) (device : DeviceState) → AreNew (new_disk pages limit device) pages cells.new.items) }
{
    for page in 0..pages {
        names.push(LockNo::Slot(PageIx(page)))?;
        cells.push(Some(Held::Slot(Entry::new(alloc))))?;
    }
    Ok(())
}

// Puts the classes after the slots, each with a pool.
fn push_pools<D: Backing>(
    alloc: Global,
    pages: u32,
    names: &mut Vec<LockNo>,
    cells: &mut Vec<Option<DiskHeld<D>>>,
) -> Result<(), AllocError>
    requires names { names.old.items ≡ slots_of pages }
    requires cells { (limit : ℕ) (device : DeviceState) → AreNew (new_disk pages limit device) pages cells.old.items }
    ensures names { OnOk result (names.new.items ≡ slots_of pages ++ classes_of 255) }
    ensures cells { OnOk result
        ((limit : ℕ) (device : DeviceState) → AreNew (new_disk pages limit device) (pages + 255) cells.new.items) }
{
    let table = ClassTable::new(MOST_CHAIN);
    for class in 0..CLASSES {
        let pool = ClassPool::new(
            alloc,
            class,
            size(class),
            table.chain(class),
            table.per(class),
        );
        names.push(LockNo::Class(class))?;
        cells.push(Some(Held::Class(pool)))?;
    }
    Ok(())
}

/// The row of a new disk of so many pages, with the account at this limit. The map of blocks and the
/// device are out.
pub(crate) fn new_row<D: Backing>(
    alloc: Global,
    pages: u32,
    limit: u64,
) -> Result<SimRow<DiskHeld<D>>, AllocError>
    requires most { pages ≤ MOST_PAGES }
    requires small { limit < 2 ^ 52 }
    ensures names { IfOk result (λ row. row.names ≡ names_of pages) }
    ensures cells { IfOk result (λ row. (front : List (Option DiskHeld))
        × ((device : DeviceState) → AreNew (new_disk pages limit device) (pages + 256) front)
        × (row.cells ≡ front ++ None ∷ None ∷ [])) }
    ensures account { IfOk result (λ row. slice_get row.cells (pages + 255)
        ≡ Some (Some (holds.Account (record no_counts { limit = limit })))) }
{
    let room = pages as usize + CLASSES as usize + 3;
    let mut names = Vec::with_capacity(alloc, room)?;
    let mut cells = Vec::with_capacity(alloc, room)?;
    push_slots(alloc, pages, &mut names, &mut cells)?;
    push_pools(alloc, pages, &mut names, &mut cells)?;
    let mut account = Account::new();
    account.set_limit(limit);
    names.push(LockNo::Account)?;
    cells.push(Some(Held::Account(account)))?;
    names.push(LockNo::Blocks)?;
    cells.push(None)?;
    names.push(LockNo::Device)?;
    cells.push(None)?;
    Ok(SimRow::new(names, cells))
}

/// The entry that a slot's lock guards.
pub(crate) fn entry_of<D: Backing>(value: DiskHeld<D>) -> Entry
    requires { (e : EntryState) × (value ≡ holds.Slot e) }
    ensures { value ≡ holds.Slot result }
{
    match value {
        Held::Slot(entry) => entry,
        _ => unreachable!(),
    }
}

/// The same, where it stays.
pub(crate) fn entry_in<D: Backing>(value: &DiskHeld<D>) -> &Entry
    requires { (e : EntryState) × (value.now ≡ holds.Slot e) }
    ensures { value.now ≡ holds.Slot result.now }
{
    match value {
        Held::Slot(entry) => entry,
        _ => unreachable!(),
    }
}

/// Puts this account in place of a disk's, which is at home.
pub(crate) fn put_account<D: Backing>(row: &mut SimRow<DiskHeld<D>>, size: u32, account: Account)
    requires names { row.old.names ≡ names_by size }
    requires some { 1 ≤ size }
    requires home { (c : Counters) × (slice_get row.old.cells (size + 255) ≡ Some (Some (holds.Account c))) }
    ensures names { row.new.names ≡ row.old.names }
    ensures cells { row.new.cells
        ≡ slice_set row.old.cells (size + 255) (Some (holds.Account account)) }
{
    names_have_places();
    let mut hand = row.hand(0);
    let Some(_value) = hand.try_take::<Still>(LockNo::Account) else {
        unreachable!()
    };
    hand.give::<Still>(LockNo::Account, Held::Account(account));
}

/// Puts the map of blocks and the device, which are out, into the row of a new disk.
pub(crate) fn put_device<D: Backing>(row: &mut SimRow<DiskHeld<D>>, size: u32, spare: Spare<D>)
    requires names { row.old.names ≡ names_by size }
    requires some { 1 ≤ size }
    requires out { (slice_get row.old.cells (size + 256) ≡ Some None)
        × (slice_get row.old.cells (size + 257) ≡ Some None) }
    ensures names { row.new.names ≡ row.old.names }
    ensures cells { row.new.cells ≡ slice_set
        (slice_set row.old.cells (size + 256) (Some (holds.Blocks spare.blocks)))
        (size + 257) (Some (holds.Device spare.device)) }
{
    names_have_places();
    let Spare { device, blocks } = spare;
    let mut hand = row.hand(0);
    hand.give::<Still>(LockNo::Blocks, Held::Blocks(blocks));
    hand.give::<Still>(LockNo::Device, Held::Device(device));
}

/// Gives a disk's map of blocks, which is at home, another budget, and turns its limit on or off.
pub(crate) fn set_blocks<D: Backing>(
    row: &mut SimRow<DiskHeld<D>>,
    size: u32,
    budget: u64,
    on: bool,
)
    requires names { row.old.names ≡ names_by size }
    requires some { 1 ≤ size }
    requires home { (x : BlockMap) × (slice_get row.old.cells (size + 256) ≡ Some (Some (holds.Blocks x))) }
    ensures names { row.new.names ≡ row.old.names }
    ensures cells { (x : BlockMap) → slice_get row.old.cells (size + 256) ≡ Some (Some (holds.Blocks x))
        → row.new.cells ≡ slice_set row.old.cells (size + 256)
        (Some (holds.Blocks (record x { budget = budget; enabled = on }))) }
{
    names_have_places();
    let mut hand = row.hand(0);
    let Some(value) = hand.try_take::<Still>(LockNo::Blocks) else {
        unreachable!()
    };
    let mut blocks = blocks_of(value);
    blocks.set_limit(budget);
    blocks.set_enable(on);
    hand.give::<Still>(LockNo::Blocks, Held::Blocks(blocks));
}

/// The map that the lock of the blocks guards.
pub(crate) fn blocks_of<D: Backing>(value: DiskHeld<D>) -> Blocks
    requires { (x : BlockMap) × (value ≡ holds.Blocks x) }
    ensures { value ≡ holds.Blocks result }
{
    match value {
        Held::Blocks(blocks) => blocks,
        _ => unreachable!(),
    }
}

/// The same, where it stays.
pub(crate) fn blocks_in<D: Backing>(value: &DiskHeld<D>) -> &Blocks
    requires { (x : BlockMap) × (value.now ≡ holds.Blocks x) }
    ensures { value.now ≡ holds.Blocks result.now }
{
    match value {
        Held::Blocks(blocks) => blocks,
        _ => unreachable!(),
    }
}

/// The device that its lock guards.
pub(crate) fn device_of<D: Backing>(value: DiskHeld<D>) -> Dev<D>
    requires { (d : DeviceState) × (value ≡ holds.Device d) }
    ensures { value ≡ holds.Device result }
{
    match value {
        Held::Device(device) => device,
        _ => unreachable!(),
    }
}

/// The same, where it stays.
pub(crate) fn device_in<D: Backing>(value: &DiskHeld<D>) -> &Dev<D>
    requires { (d : DeviceState) × (value.now ≡ holds.Device d) }
    ensures { value.now ≡ holds.Device result.now }
{
    match value {
        Held::Device(device) => device,
        _ => unreachable!(),
    }
}
