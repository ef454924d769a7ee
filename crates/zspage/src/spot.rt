//! A place for one object: a cell, the object's handle and length, and whether the cell is lent.

ghost use Rattle.std.specs.Prelude.{◌≡◌, ◌≤◌, ℕ, List, length, Some, None, MatchOption, true, false};
ghost use Rattle.zspage.specs.Cells.{CellState, IsWhole, IsCellAt, IsStored, Fits, UsedCell, is_home};
ghost use Rattle.zspage.specs.Spots.{SpotState, IsHere};

use crate::cell::store;
use cell_arena::Cell;
use std::marker::Model;
use std::snapshot::Snapshot;
use zr_base::Handle;

/// The handle of an object, and its length in bytes.
#[derive(Clone, Copy)]
pub struct Stored {
    pub handle: Handle,
    pub len: u32,
}

/// A cell with its object. Where the cell is lent, `lent` has what it was.
#[derive(Drop)]
pub struct Spot {
    object: Option<Stored>,
    cell: Option<Cell>,
    lent: Snapshot<Cell>,
}

impl Model for Spot {
    ghost use Rattle.zspage.specs.Spots.{SpotState, which, seen, IsSound};

    ghost Value = { SpotState };

    ghost view = { λ s. record {
      chain = (which s.cell s.lent.value).chain;
      number = (which s.cell s.lent.value).number;
      size = (which s.cell s.lent.value).size;
      use_of = seen s.object s.cell s.lent.value;
    } };

    ghost invariant = { λ s. IsSound s.object s.cell s.lent.value };
}

impl Spot {
    /// A free cell.
    pub fn new(cell: Cell) -> Spot
        requires { IsWhole cell }
        ensures { result ≡ record {
          chain = cell.chain;
          number = cell.number;
          size = cell.size;
          use_of = None;
        } }
    {
        let lent = Snapshot::of(&cell);
        Spot {
            object: None,
            cell: Some(cell),
            lent,
        }
    }

    /// The cell, which is at hand.
    pub fn into_cell(self) -> Cell
        requires { IsHere self.use_of }
        ensures { (result.chain ≡ self.chain) × IsCellAt self.size self.number result }
    {
        let Spot {
            object: _,
            cell,
            lent: _,
        } = self;
        match cell {
            Some(cell) => cell,
            None => unreachable!(),
        }
    }

    /// Puts an object into the free cell.
    pub fn fill(&mut self, handle: Handle, bytes: &[u8])
        requires free { self.old.use_of ≡ None }
        requires fits { Fits (length bytes.now) self.old.size }
        ensures { (cell : CellState) × IsStored handle.0 bytes.now cell
            × IsCellAt self.old.size self.old.number cell
            × (self.new ≡ record self.old {
              use_of = Some (record {
                handle = handle.0;
                bytes = bytes.now;
                cell = cell;
                out =
                    false;
              });
            }) }
    {
        if let Some(mut cell) = self.cell.take() {
            store(&mut cell, handle, bytes);
            self.cell = Some(cell);
            self.object = Some(Stored {
                handle,
                len: bytes.len() as u32,
            });
        }
    }

    /// Takes the object away.
    pub fn clear(&mut self)
        requires { (u : UsedCell) × (self.old.use_of ≡ Some u) × (u.out ≡ false) }
        ensures { self.new ≡ record self.old { use_of = None } }
    {
        self.object = None;
    }

    /// Lends the cell.
    pub fn lend(&mut self) -> Cell
        requires { (u : UsedCell) × (self.old.use_of ≡ Some u) × (u.out ≡ false) }
        ensures { (u : UsedCell) × (self.old.use_of ≡ Some u) × (u.cell ≡ result)
            × IsStored u.handle u.bytes result × IsCellAt self.old.size self.old.number result
            × (self.new ≡ record self.old { use_of = Some (record u { out = true }) }) }
    {
        match self.cell.take() {
            Some(cell) => {
                self.lent = Snapshot::of(&cell);
                cell
            }
            None => unreachable!(),
        }
    }

    /// Takes the lent cell back.
    pub fn back(&mut self, cell: Cell)
        requires { (u : UsedCell) × (self.old.use_of ≡ Some u) × (u.out ≡ true) × (u.cell ≡ cell) }
        ensures { (u : UsedCell) × (self.old.use_of ≡ Some u)
            × (self.new ≡ record self.old { use_of = Some (record u { out = false }) }) }
    {
        self.cell = Some(cell);
    }

    /// The object, where there is one and its cell is at hand.
    pub fn at_home(&self) -> Option<Stored>
        ensures { MatchOption result (is_home self.now.use_of ≡ false) (λ o. (u : UsedCell)
            × (self.now.use_of ≡ Some u)
            × (u.out ≡ false) × (o.handle.0 ≡ u.handle) × (o.len ≡ length u.bytes)) }
    {
        match &self.cell {
            Some(_) => self.object,
            None => None,
        }
    }

    /// Puts the object of another cell into the free cell.
    pub fn copy(&mut self, handle: Handle, len: u32, from: &Cell)
        requires free { self.old.use_of ≡ None }
        requires size { length from.now.bytes ≡ self.old.size }
        requires small { self.old.size ≤ 4096 }
        requires stored { (bytes : List ℕ) × IsStored handle.0 bytes from.now
            × (length bytes ≡ len) }
        ensures { (bytes : List ℕ) → IsStored handle.0 bytes from.now → length bytes ≡ len
            → (cell : CellState) × IsStored handle.0 bytes cell
            × IsCellAt self.old.size self.old.number cell
            × (self.new ≡ record self.old {
              use_of = Some (record { handle = handle.0; bytes = bytes; cell = cell; out = false });
            }) }
    {
        if let Some(mut cell) = self.cell.take() {
            copy(&mut cell, from);
            self.cell = Some(cell);
            self.object = Some(Stored { handle, len });
        }
    }
}

/// Writes the bytes of another cell of the same size over those of a cell.
fn copy(to: &mut Cell, from: &Cell)
    requires size { length from.now.bytes ≡ length to.old.bytes }
    requires small { length from.now.bytes ≤ 4096 }
    ensures { to.new ≡ record to.old { bytes = from.now.bytes } }
{
    let (first, second) = from.parts();
    to.write(0, first);
    to.write(first.len() as u32, second);
}
