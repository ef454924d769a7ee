//! An object leaves its cell for a cell of another zspage: which one goes first, and how its bytes
//! come over.

ghost use Rattle.std.specs.Prelude.{◌≡◌, ◌+◌, ◌<◌, ◌≤◌, ℕ, List, length, Some, false, slice_set};
ghost use Rattle.zspage.specs.Cells.{CellState, IsStored, IsCellAt, UsedCell, used_of, home_of, IsLowestFree};
ghost use Rattle.zspage.specs.Movable.{IsLowestHome};

use super::{USED, Zspage};
use cell_arena::Cell;
use zr_base::Handle;

/// An object that can be moved: its cell's number, its handle, and its length in bytes.
#[derive(Clone, Copy)]
pub struct Movable {
    pub ix: u32,
    pub handle: Handle,
    pub len: u32,
}

impl Zspage {
    /// The object in the lowest used cell at home. It looks at each cell below.
    pub fn lowest_home(&self) -> Movable
        requires { 1 ≤ home_of self.now.cells }
        ensures { (u : UsedCell) × IsLowestHome self.now.cells result.ix u
            × (result.handle.0 ≡ u.handle) × (result.len ≡ length u.bytes) }
    {
        for ix in 0..self.spots.len() {
            let spot = &self.spots[ix];
            if let Some(object) = spot.at_home() {
                return Movable {
                    ix: ix as u32,
                    handle: object.handle,
                    len: object.len,
                };
            }
        }
        unreachable!()
    }

    /// Puts the object of another cell into the lowest free cell, and gives the cell's number. It
    /// takes no memory.
    pub fn take_copy(&mut self, handle: Handle, len: u32, from: &Cell) -> u32
        requires free { used_of self.old.cells < length self.old.cells }
        requires size { length from.now.bytes ≡ self.old.size }
        requires small { self.old.size ≤ 4096 }
        requires stored { (bytes : List ℕ) × IsStored handle.0 bytes from.now
            × (length bytes ≡ len) }
        ensures lowest { IsLowestFree self.old.cells result }
        ensures used { used_of self.new.cells ≡ used_of self.old.cells + 1 }
        ensures after { (bytes : List ℕ) → IsStored handle.0 bytes from.now → length bytes ≡ len
            → (cell : CellState) × IsStored handle.0 bytes cell × IsCellAt self.old.size result cell
            × (self.new ≡ record self.old {
              cells = slice_set self.old.cells result
                  (Some (record { handle = handle.0; bytes = bytes; cell = cell; out = false }));
            }) }
    {
        let ix = self.free.winner();
        let spot = &mut self.spots[ix];
        spot.copy(handle, len, from);
        self.free.set(ix, USED);
        self.used += 1;
        self.home += 1;
        ix as u32
    }
}
