//! A backing device in memory, for tests and for disks without a file.

ghost use Rattle.std.specs.Prelude.{◌≡◌, ℕ, ◌<◌, ◌≤◌, ◌↔◌, List, Some, length, replicate, set, vec_len, vec_capacity, IfOk, IsErr, OnOk, OnErr};
ghost use Rattle.backing_dev.specs.Contents.{HasBlock, ChangesOnly, page_full_of};
ghost use Rattle.backing_dev.specs.MemoryInside.{all_blocks};

use crate::backing::Backing;
use crate::plan::Plan;
use std::alloc::{AllocError, Global};
use std::marker::Model;
use zr_base::{Failed, Page};

/// Blocks in memory. They tell their contents, and their reads and writes fail at planned calls. The
/// memory of all blocks is reserved when the device is made; a write fills it up to its block.
#[derive(Drop)]
pub struct MemBacking {
    // The front of the blocks, with room for all. The blocks after it are zeros.
    pages: Vec<Page>,
    blocks: u32,
    reads: Plan,
    writes: Plan,
}

impl Model for MemBacking {
    ghost use Rattle.backing_dev.specs.Memory.{Memory};

    ghost Value = { Memory };

    ghost use Rattle.backing_dev.specs.MemoryInside.{memory_of, IsMemory};

    ghost view = { memory_of };

    ghost invariant = { IsMemory };
}

impl MemBacking {
    ghost use Rattle.backing_dev.specs.Plan.{planned_calls};

    /// So many blocks of zeros. The reads and the writes with these numbers, from 1, are to fail; a
    /// failed write leaves its block full of the byte ff.
    pub fn new(
        alloc: Global,
        blocks: u32,
        bad_reads: &[u64],
        bad_writes: &[u64],
    ) -> Result<MemBacking, AllocError>
        ensures zeros { IfOk result (λ d. d.pages ≡ replicate blocks (page_full_of 0)) }
        ensures reads { IfOk result (λ d. d.reads ≡ planned_calls bad_reads.now) }
        ensures writes { IfOk result (λ d. d.writes ≡ planned_calls bad_writes.now) }
    {
        Ok(MemBacking {
            pages: Vec::with_capacity(alloc, blocks as usize)?,
            blocks,
            reads: Plan::new(alloc, bad_reads)?,
            writes: Plan::new(alloc, bad_writes)?,
        })
    }
}

#[tactic(auto, unfolding(crate::specs::Contents::page_full_of))]
fn zero_page() -> Page
    ensures { result ≡ page_full_of 0 }
{
    Page::zero()
}

// Makes the front longer, up to this block, so that the block can be changed.
fn reach(pages: &mut Vec<Page>, blocks: u32, b: u32)
    requires block { b < blocks }
    requires front { vec_len pages.old ≤ blocks }
    requires room { blocks ≤ vec_capacity pages.old }
    ensures same { all_blocks blocks pages.new.items ≡ all_blocks blocks pages.old.items }
    ensures reached { b < vec_len pages.new }
    ensures front { vec_len pages.new ≤ blocks }
    ensures room { vec_capacity pages.new ≡ vec_capacity pages.old }
{
    while pages.len() <= b as usize {
        pages.push_reserved(zero_page());
    }
}

// Sets a block, and makes the front long enough for it.
fn put_block(pages: &mut Vec<Page>, blocks: u32, b: u32, page: &[u8; 4096])
    requires block { b < blocks }
    requires front { vec_len pages.old ≤ blocks }
    requires room { blocks ≤ vec_capacity pages.old }
    ensures set { all_blocks blocks pages.new.items
        ≡ set (all_blocks blocks pages.old.items) b page.now }
    ensures front { vec_len pages.new ≤ blocks }
    ensures room { vec_capacity pages.new ≡ vec_capacity pages.old }
{
    reach(pages, blocks, b);
    pages[b as usize].put_bytes(page);
}

impl Backing for MemBacking {
    ghost use Rattle.std.specs.Prelude.{◌≡◌, ◌<◌, ◌≤◌, ◌↔◌, Some, length, IsErr, is_err, OnOk, OnErr};
    ghost use Rattle.backing_dev.specs.Contents.{HasBlock, ChangesOnly, IsHonest, page_full_of};
    ghost use Rattle.backing_dev.specs.Calls.{HasOneCallMore};
    ghost use Rattle.backing_dev.specs.Memory.{faults_of, calls_of, references_of};
    ghost use Rattle.zr_base.specs.Faults.{HasCause};
    ghost use Rattle.backing_dev.specs.Plan.{IsNextPlanned, after_call};

    ghost block_count = { λ d. length d.pages };

    ghost contents = { λ d. Some d.pages };

    ghost fault_count = { faults_of };

    ghost calls = { calls_of };

    ghost references = { references_of };

    fn blocks(&self) -> u32 {
        self.blocks
    }

    fn read(&mut self, b: u32, into: &mut Page) -> Result<(), Failed>
        requires { b < length self.old.pages }
        ensures blocks { length self.new.pages ≡ length self.old.pages }
        ensures same { references_of self.new ≡ references_of self.old }
        ensures contents { Some self.new.pages ≡ Some self.old.pages }
        ensures read { OnOk result (HasBlock (Some self.new.pages) b into.new) }
        ensures failed { OnErr result (into.new ≡ into.old) }
        ensures cause { HasCause (faults_of self.old) (faults_of self.new) result }
        ensures steady { OnOk result (faults_of self.new ≡ faults_of self.old) }
        ensures once { HasOneCallMore (calls_of self.old) (calls_of self.new) }
        ensures honest { IsHonest (Some self.old.pages) (length self.old.pages)
            → IsHonest (Some self.new.pages) (length self.new.pages) }

        // It fails exactly at the planned calls.
        ensures planned { IsErr result ↔ IsNextPlanned self.old.reads }
        ensures calls { self.new
            ≡ record self.old { reads = after_call self.old.reads (is_err result) } }
    {
        if self.reads.call() {
            return Err(Failed);
        }
        match self.pages.get(b as usize) {
            Some(page) => into.put_bytes(page.bytes()),
            None => *into = zero_page(),
        }
        Ok(())
    }

    #[tactic(auto, using(crate::proofs::Blocks::block_set, crate::proofs::Blocks::others_set))]
    fn write(&mut self, b: u32, from: &Page) -> Result<(), Failed>
        requires { b < length self.old.pages }
        ensures blocks { length self.new.pages ≡ length self.old.pages }
        ensures same { references_of self.new ≡ references_of self.old }
        ensures written { OnOk result (HasBlock (Some self.new.pages) b from.now) }
        ensures others { ChangesOnly (Some self.old.pages) (Some self.new.pages) b }
        ensures cause { HasCause (faults_of self.old) (faults_of self.new) result }
        ensures steady { OnOk result (faults_of self.new ≡ faults_of self.old) }
        ensures once { HasOneCallMore (calls_of self.old) (calls_of self.new) }
        ensures honest { IsHonest (Some self.old.pages) (length self.old.pages)
            → IsHonest (Some self.new.pages) (length self.new.pages) }

        // It fails exactly at the planned calls, and then leaves the block full of ff.
        ensures planned { IsErr result ↔ IsNextPlanned self.old.writes }
        ensures calls { self.new.writes ≡ after_call self.old.writes (is_err result) }
        ensures reads { self.new.reads ≡ self.old.reads }
        ensures spoilt { OnErr result (HasBlock (Some self.new.pages) b (page_full_of 255)) }
    {
        if self.writes.call() {
            put_block(&mut self.pages, self.blocks, b, &[0xff; 4096]);
            return Err(Failed);
        }
        put_block(&mut self.pages, self.blocks, b, from.bytes());
        Ok(())
    }

    fn faults(&self) -> u64 {
        self.reads.faults() + self.writes.faults()
    }
}
