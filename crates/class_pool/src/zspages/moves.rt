//! The zspages' part of a move: which object leaves a zspage, and where another one puts it.

ghost use Rattle.std.specs.Prelude.{◌≡◌, ◌≤◌, ℕ, List, length, Some, slice_set};
ghost use Rattle.zspage.specs.Cells.{CellState, IsStored, IsCellAt, UsedCell, home_of, entry, IsLowestFree};
ghost use Rattle.zspage.specs.Movable.{IsLowestHome};
ghost use Rattle.class_pool.specs.Zspages.{Cells, HasRoom};
ghost use Rattle.class_pool.specs.Pool.{new_use};

use super::{Zspages, rank, source};
use zr_base::Handle;
use zspage::{Cell, Movable};

impl Zspages {
    /// The object in the lowest used cell at home of a zspage.
    pub fn lowest_home(&self, id: u32) -> Movable
        requires { (cells : Cells) × (entry self.now.zspages id ≡ Some cells)
            × (1 ≤ home_of cells) }
        ensures { (cells : Cells) → entry self.now.zspages id ≡ Some cells → (u : UsedCell)
            × IsLowestHome cells result.ix u
            × (result.handle.0 ≡ u.handle) × (result.len ≡ length u.bytes) }
    {
        match &self.items[id as usize] {
            Some(zspage) => zspage.lowest_home(),
            None => unreachable!(),
        }
    }

    /// Puts the object of another cell into the lowest free cell of a zspage, and gives the cell's
    /// number.
    pub fn take_copy(&mut self, id: u32, handle: Handle, len: u32, from: &Cell) -> u32
        requires room { HasRoom (entry self.old.zspages id) }
        requires size { length from.now.bytes ≡ self.old.size }
        requires stored { (bytes : List ℕ) × IsStored handle.0 bytes from.now
            × (length bytes ≡ len) }
        ensures { (cells : Cells) (bytes : List ℕ) → entry self.old.zspages id ≡ Some cells
            → IsStored handle.0 bytes from.now → length bytes ≡ len
            → (cell : CellState) × IsLowestFree cells result
            × IsStored handle.0 bytes cell × IsCellAt self.old.size result cell
            × (self.new ≡ record self.old {
              zspages = slice_set self.old.zspages id
                  (Some (slice_set cells result (Some (new_use handle.0 bytes cell))));
            }) }
    {
        let id = id as usize;
        let slot = &mut self.items[id];
        match slot {
            Some(zspage) => {
                let cell = zspage.take_copy(handle, len, from);
                let rank = rank(zspage);
                let source = source(zspage);
                self.ranks.set(id, rank);
                self.sources.set(id, source);
                cell
            }
            None => unreachable!(),
        }
    }
}
