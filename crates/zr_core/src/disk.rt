//! A disk: its row of entries, one for each page, of pools, one for each class, and of the account.

ghost use Rattle.std.proofs.Props.{props};
ghost use Rattle.std.specs.Prelude.{◌≡◌, ◌+◌, ◌<◌, ◌≤◌, ◌^◌, true, false, [], replicate, slice_get, slice_set, Some, OnOk, OnErr};
ghost use Rattle.zr_base.specs.declared.limits.TheConstants.{MOST_PAGES};
ghost use Rattle.mem_account.specs.Counters.{Counters};
ghost use Rattle.block_map.specs.BlockMap.{BlockMap};
ghost use Rattle.lock_row.specs.declared.names.Held.TheVariants as holds;
ghost use Rattle.joint_rule.specs.Begins.{Begin};
ghost use Rattle.zr_core.specs.Rests.{names_by, no_blocks, IsEarly, device_by, blocks_by, IsAtRest, RestsAs, new_disk, with_limit, with_lowered, with_budget, with_map};
ghost use Rattle.zr_core.specs.Rows.{AreNew};

use crate::row::{
    blocks_in, device_in, device_of, entry_in, new_row, put_account, put_device, set_blocks,
};
use crate::spare::Spare;
use backing_dev::{Backing, Dev};
use block_map::{BlockState, Blocks};
use joint_rule::{disks_begin, phases_go_on};
use lock_row::{Hand, LockNo, SimRow, Still, names_have_places};
use page_steps::DiskHeld;
use slot_entry::Entry;
use std::alloc::{AllocError, Global};
use zr_base::PageIx;

/// A disk with its row of locks: a slot for each page, from page 0 on, the 255 classes, the account,
/// the blocks and the device. Before the disk's size is given it has no row, and of the account it
/// knows the limit alone.
#[derive(Drop)]
pub struct World<D: Backing> {
    pub(crate) alloc: Global,
    pub(crate) pages: u32,
    pub(crate) limit: u64,
    // whether blocks of the device are used
    pub(crate) backed: bool,
    pub(crate) row: SimRow<DiskHeld<D>>,
    // the pages that may have an order, in rising order
    pub(crate) noted: Vec<u32>,
    // the device and the map of its blocks, until they stand in the row
    pub(crate) spare: Option<Spare<D>>,
    ghost early: { IsEarly pages spare } by { Prim.hlevel props },
    ghost names: { row.names ≡ names_by pages },
    ghost small: { limit < 2 ^ 52 },
}

impl<D: Backing> World<D> {
    /// A disk without pages, without a limit and without a backing, over this device. It takes no
    /// memory.
    pub fn new(alloc: Global, dev: D) -> World<D>
        ensures pages { result.pages ≡ 0 }
        ensures limit { result.limit ≡ 0 }
        ensures backed { result.backed ≡ false }
        ensures cells { result.row.cells ≡ [] }
        ensures rest { IsAtRest result.pages result.noted.items result.row.cells }
        ensures device { device_by result.spare result.pages result.row.cells ≡ record {
          blocks = D.block_count dev;
          contents = D.contents dev;
          faults = D.fault_count dev;
          calls = D.calls dev;
          references = D.references dev;
          reads = 0;
          writes = 0;
        } }
        ensures blocks { blocks_by result.spare result.pages result.row.cells ≡ no_blocks }
    {
        World {
            alloc,
            pages: 0,
            limit: 0,
            backed: false,
            row: SimRow::empty(alloc),
            noted: Vec::new(alloc),
            spare: Some(Spare {
                device: Dev::new(dev),
                blocks: Blocks::none(alloc),
            }),
        }
    }

    /// Gives the disk so many pages of zeros, from 1 to `MOST_PAGES`, empty pools and an account with
    /// the limit. On Err nothing changed.
    pub fn set_disk(&mut self, pages: u32) -> Result<(), AllocError>
        requires none { self.old.pages ≡ 0 }
        requires some { 1 ≤ pages }
        requires most { pages ≤ MOST_PAGES }
        ensures pages { OnOk result (self.new.pages ≡ pages) }
        ensures limit { self.new.limit ≡ self.old.limit }
        ensures backed { self.new.backed ≡ self.old.backed }
        ensures values { OnOk result (AreNew (new_disk pages self.old.limit
            (device_by self.old.spare self.old.pages self.old.row.cells)) (pages + 258) self.new.row.cells) }
        ensures new { OnOk result (RestsAs (with_map (new_disk pages self.old.limit
            (device_by self.old.spare self.old.pages self.old.row.cells))
            (blocks_by self.old.spare self.old.pages self.old.row.cells)) pages self.new.row.cells) }
        ensures device { OnOk result (device_by self.new.spare self.new.pages self.new.row.cells
            ≡ device_by self.old.spare self.old.pages self.old.row.cells) }
        ensures blocks { OnOk result (blocks_by self.new.spare self.new.pages self.new.row.cells
            ≡ blocks_by self.old.spare self.old.pages self.old.row.cells) }
        ensures rest { OnOk result (IsAtRest self.new.pages self.new.noted.items self.new.row.cells) }
        ensures err { OnErr result ((self.new.pages ≡ 0) × (self.new.row ≡ self.old.row)
            × (self.new.noted.items ≡ self.old.noted.items) × (self.new.spare ≡ self.old.spare)) }
    {
        disks_begin();
        let mut row = new_row(self.alloc, pages, self.limit)?;
        let Some(spare) = self.spare.take() else {
            unreachable!()
        };
        put_device(&mut row, pages, spare);
        self.row = row;
        self.pages = pages;
        self.noted.clear();
        Ok(())
    }

    /// Uses so many blocks of the device, for the disk that is to come: another backing is replaced.
    /// The writeback limit stays. On Err nothing changed.
    pub fn set_backing(&mut self, blocks: u32) -> Result<(), AllocError>
        requires none { self.old.pages ≡ 0 }
        requires some { 1 ≤ blocks }
        requires fits { blocks ≤ (device_by self.old.spare self.old.pages self.old.row.cells).blocks }
        ensures pages { self.new.pages ≡ self.old.pages }
        ensures limit { self.new.limit ≡ self.old.limit }
        ensures backed { OnOk result (self.new.backed ≡ true) }
        ensures row { self.new.row ≡ self.old.row }
        ensures noted { self.new.noted.items ≡ self.old.noted.items }
        ensures rest { IsAtRest self.old.pages self.old.noted.items self.old.row.cells
            → IsAtRest self.new.pages self.new.noted.items self.new.row.cells }
        ensures device { device_by self.new.spare self.new.pages self.new.row.cells
            ≡ device_by self.old.spare self.old.pages self.old.row.cells }
        ensures blocks { OnOk result (blocks_by self.new.spare self.new.pages self.new.row.cells
            ≡ record (blocks_by self.old.spare self.old.pages self.old.row.cells)
            { states = replicate blocks BlockState.Free }) }
        ensures err { OnErr result ((self.new.spare ≡ self.old.spare)
            × (self.new.backed ≡ self.old.backed)) }
    {
        let mut map = Blocks::new(self.alloc, blocks)?;
        let Some(spare) = self.spare.take() else {
            unreachable!()
        };
        let Spare { device, blocks } = spare;
        map.set_limit(blocks.budget());
        map.set_enable(blocks.is_enabled());
        self.spare = Some(Spare {
            device,
            blocks: map,
        });
        self.backed = true;
        Ok(())
    }

    // Gives the map of blocks another budget, or turns its limit on or off.
    fn with_blocks(&mut self, budget: u64, on: bool)
        requires rest { IsAtRest self.old.pages self.old.noted.items self.old.row.cells }
        ensures pages { self.new.pages ≡ self.old.pages }
        ensures limit { self.new.limit ≡ self.old.limit }
        ensures backed { self.new.backed ≡ self.old.backed }
        ensures noted { self.new.noted.items ≡ self.old.noted.items }
        ensures device { device_by self.new.spare self.new.pages self.new.row.cells
            ≡ device_by self.old.spare self.old.pages self.old.row.cells }
        ensures blocks { blocks_by self.new.spare self.new.pages self.new.row.cells
            ≡ record (blocks_by self.old.spare self.old.pages self.old.row.cells)
            { budget = budget; enabled = on } }
        ensures none { self.old.pages ≡ 0 → self.new.row ≡ self.old.row }
        ensures cells { (x : BlockMap) → slice_get self.old.row.cells (self.old.pages + 256) ≡ Some (Some (holds.Blocks x))
            → self.new.row.cells ≡ slice_set self.old.row.cells (self.old.pages + 256)
            (Some (holds.Blocks (record x { budget = budget; enabled = on }))) }
        ensures rest { IsAtRest self.new.pages self.new.noted.items self.new.row.cells }
        ensures rests_as { (g : Begin) → RestsAs g self.old.pages self.old.row.cells
            → RestsAs (with_budget g budget on) self.new.pages self.new.row.cells }
    {
        phases_go_on();
        if let Some(spare) = &mut self.spare {
            spare.blocks.set_limit(budget);
            spare.blocks.set_enable(on);
            return;
        }
        set_blocks(&mut self.row, self.pages, budget, on);
    }

    /// Sets how many pages may be written back while the writeback limit is on. It holds with or
    /// without a backing, also for one that is set later.
    pub fn set_wb_limit(&mut self, units: u64)
        requires rest { IsAtRest self.old.pages self.old.noted.items self.old.row.cells }
        ensures pages { self.new.pages ≡ self.old.pages }
        ensures limit { self.new.limit ≡ self.old.limit }
        ensures backed { self.new.backed ≡ self.old.backed }
        ensures noted { self.new.noted.items ≡ self.old.noted.items }
        ensures device { device_by self.new.spare self.new.pages self.new.row.cells
            ≡ device_by self.old.spare self.old.pages self.old.row.cells }
        ensures blocks { blocks_by self.new.spare self.new.pages self.new.row.cells
            ≡ record (blocks_by self.old.spare self.old.pages self.old.row.cells) { budget = units } }
        ensures none { self.old.pages ≡ 0 → self.new.row ≡ self.old.row }
        ensures cells { (x : BlockMap) → slice_get self.old.row.cells (self.old.pages + 256) ≡ Some (Some (holds.Blocks x))
            → self.new.row.cells ≡ slice_set self.old.row.cells (self.old.pages + 256)
            (Some (holds.Blocks (record x {
              budget = units;
              enabled = (blocks_by self.old.spare self.old.pages self.old.row.cells).enabled;
            }))) }
        ensures rest { IsAtRest self.new.pages self.new.noted.items self.new.row.cells }
        ensures rests_as { (g : Begin) → RestsAs g self.old.pages self.old.row.cells
            → RestsAs (with_budget g units g.budgeted) self.new.pages self.new.row.cells }
    {
        let on = self.blocks().is_enabled();
        self.with_blocks(units, on);
    }

    /// Turns the writeback limit on or off.
    pub fn set_wb_enable(&mut self, on: bool)
        requires rest { IsAtRest self.old.pages self.old.noted.items self.old.row.cells }
        ensures pages { self.new.pages ≡ self.old.pages }
        ensures limit { self.new.limit ≡ self.old.limit }
        ensures backed { self.new.backed ≡ self.old.backed }
        ensures noted { self.new.noted.items ≡ self.old.noted.items }
        ensures device { device_by self.new.spare self.new.pages self.new.row.cells
            ≡ device_by self.old.spare self.old.pages self.old.row.cells }
        ensures blocks { blocks_by self.new.spare self.new.pages self.new.row.cells
            ≡ record (blocks_by self.old.spare self.old.pages self.old.row.cells) { enabled = on } }
        ensures none { self.old.pages ≡ 0 → self.new.row ≡ self.old.row }
        ensures cells { (x : BlockMap) → slice_get self.old.row.cells (self.old.pages + 256) ≡ Some (Some (holds.Blocks x))
            → self.new.row.cells ≡ slice_set self.old.row.cells (self.old.pages + 256)
            (Some (holds.Blocks (record x {
              budget = (blocks_by self.old.spare self.old.pages self.old.row.cells).budget;
              enabled = on;
            }))) }
        ensures rest { IsAtRest self.new.pages self.new.noted.items self.new.row.cells }
        ensures rests_as { (g : Begin) → RestsAs g self.old.pages self.old.row.cells
            → RestsAs (with_budget g g.budget on) self.new.pages self.new.row.cells }
    {
        let budget = self.blocks().budget();
        self.with_blocks(budget, on);
    }

    // The device, which is at home.
    pub(crate) fn device(&self) -> &Dev<D>
        requires rest { IsAtRest self.now.pages self.now.noted.items self.now.row.cells }
        ensures { result.now ≡ device_by self.now.spare self.now.pages self.now.row.cells }
    {
        names_have_places();
        if let Some(spare) = &self.spare {
            return &spare.device;
        }
        let Some(value) = self.row.value(LockNo::Device) else {
            unreachable!()
        };
        device_in(value)
    }

    // The map of blocks, which is at home.
    fn blocks(&self) -> &Blocks
        requires rest { IsAtRest self.now.pages self.now.noted.items self.now.row.cells }
        ensures { result.now ≡ blocks_by self.now.spare self.now.pages self.now.row.cells }
    {
        names_have_places();
        if let Some(spare) = &self.spare {
            return &spare.blocks;
        }
        let Some(value) = self.row.value(LockNo::Blocks) else {
            unreachable!()
        };
        blocks_in(value)
    }

    /// How many blocks the device has.
    pub fn device_blocks(&self) -> u32
        requires rest { IsAtRest self.now.pages self.now.noted.items self.now.row.cells }
        ensures { result ≡ (device_by self.now.spare self.now.pages self.now.row.cells).blocks }
    {
        self.device().blocks()
    }

    /// Gives the device back.
    pub fn close(self) -> D
        requires rest { IsAtRest self.pages self.noted.items self.row.cells }
        ensures blocks { D.block_count result ≡ (device_by self.spare self.pages self.row.cells).blocks }
        ensures contents { D.contents result ≡ (device_by self.spare self.pages self.row.cells).contents }
        ensures faults { D.fault_count result ≡ (device_by self.spare self.pages self.row.cells).faults }
        ensures calls { D.calls result ≡ (device_by self.spare self.pages self.row.cells).calls }
        ensures same { D.references result ≡ (device_by self.spare self.pages self.row.cells).references }
    {
        names_have_places();
        let World { mut row, spare, .. } = self;
        if let Some(spare) = spare {
            return spare.device.into_inner();
        }
        let mut hand = row.hand(0);
        let Some(value) = hand.try_take::<Still>(LockNo::Device) else {
            unreachable!()
        };
        device_of(value).into_inner()
    }

    /// How many pages the disk has.
    pub fn pages(&self) -> u32
        ensures { result ≡ self.now.pages }
    {
        self.pages
    }

    /// Sets the limit, in frames of 4096 bytes; 0 is none. What is charged stays, also above it.
    pub fn set_limit(&mut self, pages: u64)
        requires small { pages < 2 ^ 52 }
        requires rest { IsAtRest self.old.pages self.old.noted.items self.old.row.cells }
        ensures pages { self.new.pages ≡ self.old.pages }
        ensures noted { self.new.noted.items ≡ self.old.noted.items }
        ensures limit { self.new.limit ≡ pages }
        ensures backed { self.new.backed ≡ self.old.backed }
        ensures spare { self.new.spare ≡ self.old.spare }
        ensures none { self.old.pages ≡ 0 → self.new.row ≡ self.old.row }
        ensures cells { (c : Counters) → slice_get self.old.row.cells (self.old.pages + 255) ≡ Some (Some (holds.Account c))
            → self.new.row.cells ≡ slice_set self.old.row.cells (self.old.pages + 255)
            (Some (holds.Account (record c { limit = pages }))) }
        ensures rest { IsAtRest self.new.pages self.new.noted.items self.new.row.cells }
        ensures rests_as { (g : Begin) → RestsAs g self.old.pages self.old.row.cells
            → RestsAs (with_limit g pages) self.new.pages self.new.row.cells }
    {
        phases_go_on();
        if self.pages == 0 {
            self.limit = pages;
            return;
        }
        let mut account = self.account();
        account.set_limit(pages);
        put_account(&mut self.row, self.pages, account);
        self.limit = pages;
    }

    /// Makes the account's maximum what is charged now. Before the disk's size is given nothing
    /// changes.
    pub fn lower_max(&mut self)
        requires rest { IsAtRest self.old.pages self.old.noted.items self.old.row.cells }
        ensures pages { self.new.pages ≡ self.old.pages }
        ensures noted { self.new.noted.items ≡ self.old.noted.items }
        ensures limit { self.new.limit ≡ self.old.limit }
        ensures backed { self.new.backed ≡ self.old.backed }
        ensures spare { self.new.spare ≡ self.old.spare }
        ensures none { self.old.pages ≡ 0 → self.new.row ≡ self.old.row }
        ensures cells { (c : Counters) → slice_get self.old.row.cells (self.old.pages + 255) ≡ Some (Some (holds.Account c))
            → self.new.row.cells ≡ slice_set self.old.row.cells (self.old.pages + 255)
            (Some (holds.Account (record c { most = c.pages }))) }
        ensures rest { IsAtRest self.new.pages self.new.noted.items self.new.row.cells }
        ensures rests_as { (g : Begin) → RestsAs g self.old.pages self.old.row.cells
            → RestsAs (with_lowered g) self.new.pages self.new.row.cells }
    {
        phases_go_on();
        if self.pages == 0 {
            return;
        }
        let mut account = self.account();
        account.lower_max();
        put_account(&mut self.row, self.pages, account);
    }

    /// The pages that may have an order, in rising order: between two phases no other page has one.
    pub fn noted(&self) -> &[u32]
        ensures { result.now ≡ self.now.noted.items }
    {
        &self.noted
    }

    /// The entry of a page that is at home.
    pub fn entry(&self, page: PageIx) -> &Entry
        requires page { page.0 < self.now.pages }
        requires home { (e : _) × (slice_get self.now.row.cells page.0 ≡ Some (Some (holds.Slot e))) }
        ensures { slice_get self.now.row.cells page.0 ≡ Some (Some (holds.Slot result.now)) }
    {
        names_have_places();
        let Some(value) = self.row.value(LockNo::Slot(page)) else {
            unreachable!()
        };
        entry_in(value)
    }
}
