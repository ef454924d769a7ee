//! A zspage: a chain's cells, of which the lowest free one is found in a time that grows with the
//! logarithm of their number.

ghost use Rattle.std.specs.Prelude.{◌≡◌, ◌+◌, ◌*◌, ◌/◌, ◌<◌, ◌≤◌, ◌↔◌, ℕ, List, length, Some, None, IfOk, IsTrue, true, false, replicate, slice_set, []};
ghost use Rattle.std.specs.Vec.{vec_capacity};
ghost use Rattle.cell_arena.specs.Chains.{AreNumbered};
ghost use Rattle.zspage.specs.Spots.{AreFree, ArePlaced, AreHere, IsEmptied};
ghost use Rattle.zspage.specs.Cells.{CellState, IsStored, IsCellAt, Fits, UsedCell, used_of, home_of, entry, IsLowestFree, IsHome, IsOut};

use crate::spot::Spot;
use cell_arena::{Cell, Cells, Chain, join, split};
use std::alloc::{AllocError, Global};
use std::marker::Model;
use tournament::Tournament;
use zr_base::Handle;

mod moves;

pub use moves::Movable;

/// The bytes of a frame.
const FRAME: u32 = 4096;

/// The ranks of a used and of a free cell: the first free cell wins.
const USED: u32 = 0;

const FREE: u32 = 1;

/// A chain of frames cut into cells of one size. Its spots have the cells, and `emptied` what stays
/// of the chain: the frames' bytes after the last cell, the right to free them, and the room to
/// join the cells.
pub struct Zspage {
    id: u32,
    size: u32,
    frames: u32,
    used: u32,
    home: u32,
    spots: Vec<Spot>,
    free: Tournament,
    emptied: Cells,
}

impl Model for Zspage {
    ghost use Rattle.zspage.specs.Cells.{ZspageState};
    ghost use Rattle.std.specs.Prelude.{length};
    ghost use Rattle.zspage.specs.Spots.{uses, IsZspage, IsEmptied};

    ghost Value = { ZspageState };

    ghost view = { λ z. record {
      id = z.id;
      size = z.size;
      frames = z.frames;
      cells = uses z.spots.items;
    } };

    ghost invariant = { λ z. IsZspage z.emptied.chain z.size z.used z.home z.spots.items z.free
        × IsEmptied z.emptied z.size z.frames (length z.spots.items) };
}

impl Zspage {
    /// A zspage of `chain` frames with cells of `size` bytes, all of them free.
    pub fn new(alloc: Global, id: u32, size: u32, chain: u32) -> Result<Zspage, AllocError>
        requires small { 32 ≤ size }
        requires large { size ≤ 4096 }
        requires some { 1 ≤ chain }
        requires few { chain ≤ 16 }
        ensures { IfOk result (λ z. z ≡ record {
          id = id;
          size = size;
          frames = chain;
          cells = replicate (chain * 4096 / size) None;
        }) }
    {
        let per = chain * FRAME / size;
        let free = Tournament::filled(alloc, per as usize, FREE)?;
        let spots = Vec::with_capacity(alloc, per as usize)?;
        let Ok(cells) = split(alloc, Chain::new(alloc, chain)?, size) else {
            return Err(AllocError);
        };
        let (spots, emptied) = spread(spots, cells);
        Ok(Zspage {
            id,
            size,
            frames: chain,
            used: 0,
            home: 0,
            spots,
            free,
            emptied,
        })
    }

    /// The chain, whose cells are all free.
    pub fn into_chain(self) -> Chain
        requires { used_of self.cells ≡ 0 }
        ensures { length result ≡ self.frames * 4096 }
    {
        let Zspage {
            id: _,
            size: _,
            frames: _,
            used: _,
            home: _,
            spots,
            free: _,
            emptied,
        } = self;
        gather(spots, emptied)
    }

    /// The id, which no other zspage of the pool has.
    pub fn id(&self) -> u32
        ensures { result ≡ self.now.id }
    {
        self.id
    }

    /// The frames of the chain.
    pub fn frames(&self) -> u32
        ensures { result ≡ self.now.frames }
    {
        self.frames
    }

    /// The used cells, those that are lent among them.
    pub fn used(&self) -> u32
        ensures used { result ≡ used_of self.now.cells }
        ensures most { result ≤ length self.now.cells }
    {
        self.used
    }

    /// The used cells at home.
    pub fn at_home(&self) -> u32
        ensures { result ≡ home_of self.now.cells }
    {
        self.home
    }

    /// The cells.
    pub fn per(&self) -> u32
        ensures { result ≡ length self.now.cells }
    {
        self.spots.len() as u32
    }

    /// Whether all cells are free.
    pub fn is_empty(&self) -> bool
        ensures { IsTrue result ↔ (used_of self.now.cells ≡ 0) }
    {
        self.used == 0
    }

    /// Puts an object into the lowest free cell, and gives the cell's number. It takes no memory.
    pub fn take_cell(&mut self, handle: Handle, bytes: &[u8]) -> u32
        requires free { used_of self.old.cells < length self.old.cells }
        requires fits { Fits (length bytes.now) self.old.size }
        ensures lowest { IsLowestFree self.old.cells result }
        ensures used { used_of self.new.cells ≡ used_of self.old.cells + 1 }
        ensures after { (cell : CellState) × IsStored handle.0 bytes.now cell
            × IsCellAt self.old.size result cell
            × (self.new ≡ record self.old {
              cells = slice_set self.old.cells result
                  (Some (record {
                    handle = handle.0;
                    bytes = bytes.now;
                    cell = cell;
                    out =
                        false;
                  }));
            }) }
    {
        let ix = self.free.winner();
        let spot = &mut self.spots[ix];
        spot.fill(handle, bytes);
        self.free.set(ix, USED);
        self.used += 1;
        self.home += 1;
        ix as u32
    }

    /// Takes the object of a used cell away.
    pub fn put_cell(&mut self, ix: u32)
        requires { IsHome self.old.cells ix }
        ensures used { used_of self.new.cells + 1 ≡ used_of self.old.cells }
        ensures after { self.new ≡ record self.old { cells = slice_set self.old.cells ix None } }
    {
        let ix = ix as usize;
        let spot = &mut self.spots[ix];
        spot.clear();
        self.free.set(ix, FREE);
        self.used -= 1;
        self.home -= 1;
    }

    /// Lends a used cell, which stays used.
    pub fn lend(&mut self, ix: u32) -> Cell
        requires { IsHome self.old.cells ix }
        ensures used { used_of self.new.cells ≡ used_of self.old.cells }
        ensures after { (u : UsedCell) × (entry self.old.cells ix ≡ Some u) × (u.cell ≡ result)
            × IsStored u.handle u.bytes result × IsCellAt self.old.size ix result
            × (self.new ≡ record self.old {
              cells = slice_set self.old.cells ix (Some (record u { out = true }));
            }) }
    {
        let spot = &mut self.spots[ix as usize];
        let cell = spot.lend();
        self.home -= 1;
        cell
    }

    /// Takes the cell that was lent back.
    pub fn back(&mut self, ix: u32, cell: Cell)
        requires { IsOut self.old.cells ix cell }
        ensures used { used_of self.new.cells ≡ used_of self.old.cells }
        ensures after { (u : UsedCell) × (entry self.old.cells ix ≡ Some u)
            × (self.new ≡ record self.old {
              cells = slice_set self.old.cells ix (Some (record u { out = false }));
            }) }
    {
        let spot = &mut self.spots[ix as usize];
        spot.back(cell);
        self.home += 1;
    }
}

/// Where all cells are at hand the frames are freed. Where one is out none is: they stay taken
/// until the process ends.
impl Drop for Zspage {
    fn drop(self) {
        let Zspage {
            id: _,
            size: _,
            frames: _,
            used,
            home,
            spots,
            free: _,
            emptied,
        } = self;
        if used == home {
            drop(gather(spots, emptied));
        }
    }
}

/// Puts each cell into a spot.
fn spread(spots: Vec<Spot>, cells: Cells) -> (Vec<Spot>, Cells)
    requires empty { spots.items ≡ [] }
    requires room { length cells.cells ≤ vec_capacity spots }
    requires order { AreNumbered cells.chain cells.size cells.cells }
    ensures free { AreFree cells.chain cells.size result.0.items }
    ensures long { length result.0.items ≡ length cells.cells }
    ensures left { result.1 ≡ record cells { cells = [] } }
{
    let mut spots = spots;
    let mut cells = cells;
    while let Some(cell) = cells.pop() {
        match spots.push(Spot::new(cell)) {
            Ok(()) => {}
            Err(_) => unreachable!(),
        }
    }
    spots.reverse();
    (spots, cells)
}

/// The chain of the cells of all spots.
fn gather(spots: Vec<Spot>, cells: Cells) -> Chain
    requires emptied { IsEmptied cells cells.size cells.frames (length spots.items) }
    requires placed { (ranks : List ℕ) × ArePlaced cells.chain cells.size spots.items ranks }
    requires here { AreHere spots.items }
    ensures { length result ≡ cells.frames * 4096 }
{
    let mut spots = spots;
    let mut cells = cells;
    while let Some(spot) = spots.pop() {
        cells.push(spot.into_cell());
    }
    join(cells)
}

#[cfg(test)]
mod tests {
    use super::*;
    use std::test::Fail;

    #[test]
    fn cells_of_class_71(rt: HostRuntime) -> Result<(), Fail> {
        let mut zspage = Zspage::new(rt.alloc(), 0, 1168, 2)?;
        assert_eq!(rt; zspage.per(), 7);
        assert_eq!(rt; zspage.frames(), 2);
        assert_eq!(rt; zspage.used(), 0);
        assert!(rt; zspage.used() < zspage.per());
        assert_eq!(rt; zspage.take_cell(Handle(5), &[1, 2, 3]), 0);
        assert_eq!(rt; (zspage.used(), zspage.at_home()), (1, 1));
        Ok(())
    }
}
