//! A pool of one size class. Its index finds an object by its handle in one step, and the zspage of
//! the next object in a time that grows with the logarithm of the number of zspages.

ghost use Rattle.std.specs.Prelude.{◌≡◌, ◌≢◌, ◌-◌, ◌+◌, ◌*◌, ◌<◌, ◌≤◌, ◌^◌, ◌↔◌, ℕ, List, [], length, Some, None, true, false, replicate, IfOk, IfSome, MatchOption, OnErr, IsTrue, slice_set};
ghost use Rattle.zspage.specs.Cells.{CellState, Fits, IsStored, IsCellAt, UsedCell, used_of, entry, IsLowestFree};
ghost use Rattle.zs_plan.specs.Plan.{IsPlan, HasNoPlan, GoesOn};
ghost use Rattle.class_pool.specs.Zspages.{Cells, HasRoom, IsLeastAbsent, AreFilled, put_at};
ghost use Rattle.class_pool.specs.Rows.{rows};
ghost use Rattle.class_pool.specs.Pool.{objects, used_cells, HasOneMore, PoolHasRoom, IsFresh, IsAtHome, IsLent, IsPlace, Stores, Makes, Frees, IsPool, IsClass, AreGroups, with_cells, new_use};
ghost use Rattle.class_pool.specs.Index.{Fit};

use crate::places::{Place, Places};
use crate::zspages::Zspages;
use size_class::{ClassStat, group};
use std::alloc::{AllocError, Global};
use std::marker::Model;
use zr_base::Handle;
use zs_plan::plan_of;
use zspage::Cell;

mod moves;
#[cfg(test)]
mod tests;

pub use moves::Moved;

/// The objects of one size class.
#[derive(Drop)]
pub struct ClassPool {
    alloc: Global,
    class: u8,
    used: u32,
    zspages: Zspages,
    places: Places,
}

impl Model for ClassPool {
    ghost use Rattle.class_pool.specs.Pool.{PoolState};
    ghost use Rattle.class_pool.specs.Index.{pool_of, IsPooled};

    ghost Value = { PoolState };

    ghost view = { λ p. pool_of p.class p.zspages };

    ghost invariant = { λ p. IsPooled p.used p.zspages p.places };
}

impl ClassPool {
    /// A pool without zspages. It takes no memory.
    pub fn new(alloc: Global, class: u8, size: u32, chain: u32, per: u32) -> ClassPool
        requires { IsClass class size chain per }
        ensures is { result ≡ record {
          class = class;
          size = size;
          chain = chain;
          per =
              per;
          zspages = [];
        } }
        ensures pool { IsPool result }
    {
        ClassPool {
            alloc,
            class,
            used: 0,
            zspages: Zspages::new(alloc, size, chain, per),
            places: Places::new(alloc),
        }
    }

    /// The frames of a zspage's chain.
    pub fn chain(&self) -> u32
        ensures chain { result ≡ self.now.chain }
        ensures pool { IsPool self.now }
    {
        self.zspages.chain()
    }

    /// Whether some cell is free.
    pub fn room(&self) -> bool
        ensures room { IsTrue result → PoolHasRoom self.now }
        ensures none { result ≡ false → PoolHasRoom self.now → ⊥ }
        ensures pool { IsPool self.now }
    {
        self.zspages.has_room()
    }

    /// The live objects, those whose cells are out among them.
    pub fn used(&self) -> u32
        ensures used { result ≡ length (objects self.now) }
        ensures cells { result ≡ length (used_cells self.now.zspages) }
        ensures pool { IsPool self.now }
    {
        self.used
    }

    /// The pool's statistics. It looks at each zspage once.
    pub fn stat(&self) -> ClassStat
        ensures class { result.class ≡ self.now.class }
        ensures size { result.size ≡ self.now.size }
        ensures chain { result.chain ≡ self.now.chain }
        ensures per { result.per ≡ self.now.per }
        ensures used { result.used ≡ length (objects self.now) }
        ensures zspages { result.zspages ≡ used_of self.now.zspages }
        ensures groups { AreGroups self.now result.groups }
        ensures pool { IsPool self.now }
    {
        let per = self.zspages.per();
        let mut zspages = 0;
        let mut groups = [0; 11];
        for id in 0..self.zspages.len() {
            let used = self.zspages.used(id);
            if used > 0 {
                zspages += 1;
                let place = group(used, per) as usize - 1;
                groups[place] += 1;
            }
        }
        ClassStat {
            class: self.class,
            size: self.zspages.size(),
            chain: self.zspages.chain(),
            per,
            used: self.used,
            zspages,
            groups,
        }
    }

    /// The ids of the zspage that the next object moves from and of the one that it moves to. None
    /// where no zspage is partial, or none beside the destination can give an object. It takes no
    /// memory.
    pub fn next_move(&self) -> Option<(u32, u32)>
        ensures plan { IfSome result (λ p. IsPlan self.now.per (rows self.now.zspages) p.0 p.1) }
        ensures none { MatchOption result (HasNoPlan self.now.per (rows self.now.zspages))
            (λ p. p.0 ≢ p.1) }

        // After the move the destination is full, or it is the destination of the next one.
        ensures goes_on { IfSome result (λ p. GoesOn self.now.per (rows self.now.zspages) p.0 p.1) }
        ensures pool { IsPool self.now }
    {
        plan_of(self.zspages.source(), self.zspages.destination())
    }

    /// Adds an object under a handle that no live object has. It takes no memory.
    pub fn alloc(&mut self, bytes: &[u8]) -> Handle
        requires room { PoolHasRoom self.old }
        requires few { length (used_cells self.old.zspages) < 2 ^ 32 - 1 }
        requires fits { Fits (length bytes.now) self.old.size }
        ensures fresh { IsFresh self.old result.0 }
        ensures home { IsAtHome self.new result.0 }
        ensures others { (h : ℕ) → IsAtHome self.old h → IsAtHome self.new h }
        ensures others_lent { (h : ℕ) (cell : CellState) → IsLent self.old h cell
            → IsLent self.new h cell }
        ensures object { HasOneMore (objects self.old) (objects self.new)
            (record { handle = result.0; bytes = bytes.now }) }
        ensures place { (id : ℕ) × (ix : ℕ) × (cells : Cells) × (cell : CellState)
            × Stores self.old self.new result.0 bytes.now id ix cells cell }
        ensures pool { IsPool self.new }
    {
        let id = self.zspages.fullest();
        let handle = store(&mut self.zspages, &mut self.places, id, bytes);
        self.used += 1;
        handle
    }

    /// Makes a zspage with an object in it, under a handle that no live object has. Err is want of
    /// memory.
    pub fn alloc_new(&mut self, bytes: &[u8]) -> Result<Handle, AllocError>
        requires full { PoolHasRoom self.old → ⊥ }
        requires few { length (used_cells self.old.zspages) < 2 ^ 32 - 1 }
        requires fits { Fits (length bytes.now) self.old.size }
        ensures fresh { IfOk result (λ h. IsFresh self.old h.0) }
        ensures home { IfOk result (λ h. IsAtHome self.new h.0) }
        ensures others { (h : ℕ) → IsAtHome self.old h → IsAtHome self.new h }
        ensures others_lent { (h : ℕ) (cell : CellState) → IsLent self.old h cell
            → IsLent self.new h cell }
        ensures object { IfOk result (λ h. HasOneMore (objects self.old) (objects self.new)
            (record { handle = h.0; bytes = bytes.now })) }
        ensures place { IfOk result (λ h. (id : ℕ) × (cell : CellState)
            × Makes self.old self.new h.0 bytes.now id cell) }
        ensures err { OnErr result (self.new ≡ self.old) }
        ensures pool { IsPool self.new }
    {
        let id = make_zspage(self.alloc, &mut self.zspages, &mut self.places)?;
        let handle = store(&mut self.zspages, &mut self.places, id, bytes);
        self.used += 1;
        Ok(handle)
    }

    /// Takes an object away. Gives the frames of its zspage where that became empty and was given
    /// up, else 0.
    pub fn free(&mut self, handle: Handle) -> u32
        requires { IsAtHome self.old handle.0 }
        ensures others { (h : ℕ) → h ≢ handle.0 → IsAtHome self.old h → IsAtHome self.new h }
        ensures others_lent { (h : ℕ) (cell : CellState) → h ≢ handle.0 → IsLent self.old h cell
            → IsLent self.new h cell }
        ensures object { (bytes : List ℕ) × HasOneMore (objects self.new) (objects self.old)
            (record { handle = handle.0; bytes = bytes }) }
        ensures place { (id : ℕ) × (ix : ℕ) × (cells : Cells) × (u : UsedCell)
            × IsPlace self.old handle.0 id ix cells u × (u.out ≡ false)
            × Frees self.old self.new id cells ix result }
        ensures pool { IsPool self.new }
    {
        let number = handle.0 as usize;
        let place = self.places.place(number);
        let gone = self.zspages.put_cell(place.zspage, place.cell);
        self.places.clear(number);
        self.used -= 1;
        if gone { self.zspages.chain() } else { 0 }
    }

    /// Lends the cell of an object, which stays live. The cell holds a header of 8 bytes, but none
    /// before a whole page of 4096 bytes, and then the object. It takes no memory.
    pub fn pin(&mut self, handle: Handle) -> Cell
        requires { IsAtHome self.old handle.0 }
        ensures lent { IsLent self.new handle.0 result }
        ensures others { (h : ℕ) → h ≢ handle.0 → IsAtHome self.old h → IsAtHome self.new h }
        ensures others_lent { (h : ℕ) (cell : CellState) → h ≢ handle.0 → IsLent self.old h cell
            → IsLent self.new h cell }
        ensures list { objects self.new ≡ objects self.old }
        ensures cell { (id : ℕ) × (ix : ℕ) × (cells : Cells) × (u : UsedCell)
            × IsPlace self.old handle.0 id ix cells u × (u.out ≡ false) × (u.cell ≡ result)
            × IsStored handle.0 u.bytes result × IsCellAt self.old.size ix result
            × (self.new ≡ with_cells self.old id (slice_set cells ix
            (Some (record u { out = true })))) }
        ensures pool { IsPool self.new }
    {
        let place = self.places.place(handle.0 as usize);
        self.zspages.lend(place.zspage, place.cell)
    }

    /// Takes the cell of an object back.
    pub fn unpin(&mut self, handle: Handle, cell: Cell)
        requires { IsLent self.old handle.0 cell }
        ensures home { IsAtHome self.new handle.0 }
        ensures others { (h : ℕ) → h ≢ handle.0 → IsAtHome self.old h → IsAtHome self.new h }
        ensures others_lent { (h : ℕ) (cell : CellState) → h ≢ handle.0 → IsLent self.old h cell
            → IsLent self.new h cell }
        ensures list { objects self.new ≡ objects self.old }
        ensures cell { (id : ℕ) × (ix : ℕ) × (cells : Cells) × (u : UsedCell)
            × IsPlace self.old handle.0 id ix cells u × (u.out ≡ true)
            × (self.new ≡ with_cells self.old id (slice_set cells ix
            (Some (record u { out = false })))) }
        ensures pool { IsPool self.new }
    {
        let place = self.places.place(handle.0 as usize);
        self.zspages.back(place.zspage, place.cell, cell);
    }
}

/// Makes a zspage under the least free id, which it gives, and numbers for its objects. Err is want
/// of memory: some free numbers may then have been made.
fn make_zspage(alloc: Global, zspages: &mut Zspages, places: &mut Places) -> Result<u32, AllocError>
    requires full { (k : ℕ) → HasRoom (entry zspages.old.zspages k) → ⊥ }
    requires few { length (used_cells zspages.old.zspages) < 2 ^ 32 - 1 }
    requires filled { AreFilled zspages.old.zspages }
    requires fit { Fit zspages.old places.old }
    ensures least { IfOk result (IsLeastAbsent zspages.old.zspages) }
    ensures after { IfOk result (λ id. zspages.new ≡ record zspages.old {
      zspages = put_at zspages.old.zspages id (Some (replicate zspages.old.per None));
    }) }
    ensures err { OnErr result (zspages.new ≡ zspages.old) }
    ensures fit { Fit zspages.new places.new }
{
    let id = zspages.least_absent();
    places.grow((id as usize + 1) * zspages.per() as usize)?;
    zspages.add(alloc, id)?;
    Ok(id)
}

/// Puts an object into the lowest free cell of a zspage, under a free handle.
fn store(zspages: &mut Zspages, places: &mut Places, id: u32, bytes: &[u8]) -> Handle
    requires room { HasRoom (entry zspages.old.zspages id) }
    requires fits { Fits (length bytes.now) zspages.old.size }
    requires fit { Fit zspages.old places.old }
    ensures fit { Fit zspages.new places.new }
    ensures free { entry places.old result.0 ≡ None }
    ensures after { (ix : ℕ) × (cells : Cells) × (cell : CellState)
        × (entry zspages.old.zspages id ≡ Some cells) × IsLowestFree cells ix
        × IsStored result.0 bytes.now cell × IsCellAt zspages.old.size ix cell
        × (zspages.new ≡ record zspages.old {
          zspages = slice_set zspages.old.zspages id
              (Some (slice_set cells ix (Some (new_use result.0 bytes.now cell))));
        }) }
{
    let number = places.free();
    let handle = Handle(number as u64);
    let cell = zspages.take_cell(id, handle, bytes);
    places.put(number, Place { zspage: id, cell });
    handle
}
