//! The cells of a chain, and their way back.

ghost use Rattle.std.specs.Prelude.{◌≡◌, ◌+◌, ◌*◌, ◌/◌, ◌<◌, ◌≤◌, ◌++◌, ◌↔◌, [], ◌∷◌, Some, length, drop, option_to_list, IsSome, IfOk, MatchResult};
ghost use Rattle.cell_arena.specs.Chains.{cells_of, per, AreCellsOf, AreInOrder, HasAllCells};

use crate::cell::Cell;
use crate::chain::{Chain, FRAME};
use crate::raw::{Deed, Strip};
use std::alloc::Global;
use std::marker::Model;
use std::mem::ManuallyDrop;

/// Cells of a chain, with room for all of them, and the right to free the chain. Dropped, it frees
/// nothing.
#[derive(Drop)]
pub struct Cells {
    alloc: Global,
    frames: u32,
    size: u32,
    list: Vec<Cell>,
    rest: Strip,
    deed: ManuallyDrop<Deed>,
}

impl Model for Cells {
    ghost use Rattle.std.specs.Prelude.{◌≡◌, length};
    ghost use Rattle.std.specs.Vec.{vec_capacity};
    ghost use Rattle.std.specs.Mem.{manually_drop_value};
    ghost use Rattle.core.specs.Mem.Slots.{lease_ptr, lease_len, lease_heap};
    ghost use Rattle.cell_arena.specs.Chains.{CellsState, IsCells};

    ghost Value = { CellsState };

    ghost view = { λ c. record {
      chain = c.rest.chain;
      frames = c.frames;
      size = c.size;
      cells = c.list.items;
      rest = c.rest.bytes;
    } };

    ghost invariant = { λ c. IsCells c.frames c.size (length c.list.items) (vec_capacity c.list)
        c.rest.chain c.rest.ptr c.rest.bytes (lease_ptr (manually_drop_value c.deed).lease)
        (lease_len (manually_drop_value c.deed).lease)
        × (lease_heap (manually_drop_value c.deed).lease ≡ c.alloc) };
}

/// Cuts a chain into cells of `size` bytes, as many as fit. It fails only for want of memory.
pub fn split(alloc: Global, chain: Chain, size: u32) -> Result<Cells, Chain>
    requires least { 32 ≤ size }
    requires most { size ≤ 4096 }
    ensures order { IfOk result (λ c. AreInOrder c c.cells) }
    ensures cut { MatchResult result (λ c. (c.frames * 4096 ≡ length chain) × (c.size ≡ size)
        × (c.cells ≡ cells_of c.chain size chain (per c.frames size))
        × (c.rest ≡ drop (per c.frames size * size) chain)) (λ c. c ≡ chain) }
{
    let count = chain.frames() * FRAME / size;
    let Ok(mut list) = Vec::with_capacity(alloc, count as usize) else {
        return Err(chain);
    };
    let (alloc, frames, strip, deed) = chain.into_parts();
    let mut rest = strip;
    for number in 0..count {
        let (strip, after) = rest.cut(size as usize);
        rest = after;
        let cell = Cell {
            number,
            size,
            strip,
        };
        match list.push(cell) {
            Ok(()) => {}
            Err(_) => unreachable!(),
        }
    }
    Ok(Cells {
        alloc,
        frames,
        size,
        list,
        rest,
        deed: unsafe { ManuallyDrop::new_unchecked(deed) },
    })
}

impl Cells {
    /// Takes the last cell out.
    pub fn pop(&mut self) -> Option<Cell>
        ensures cells { self.old.cells ≡ self.new.cells ++ option_to_list result }
        ensures some { IsSome result ↔ (0 < length self.old.cells) }
        ensures rest { self.new ≡ record self.old { cells = self.new.cells } }
    {
        self.list.pop()
    }

    /// Puts a cell last. It takes no memory.
    pub fn push(&mut self, cell: Cell)
        requires { length self.old.cells < per self.old.frames self.old.size }
        ensures { self.new ≡ record self.old { cells = self.old.cells ++ cell ∷ [] } }
    {
        match self.list.push(cell) {
            Ok(()) => {}
            Err(_) => unreachable!(),
        }
    }
}

/// The chain of all its cells, which may come in any order.
pub fn join(cells: Cells) -> Chain
    requires { HasAllCells cells }
    ensures { AreCellsOf cells result }
{
    let Cells {
        alloc,
        frames,
        size: _,
        list,
        rest,
        deed,
    } = cells;
    let mut list = list;
    list.sort_unstable_by_key(|cell| cell.number());
    let mut strip = rest;
    while let Some(cell) = list.pop() {
        let Cell {
            number: _,
            size: _,
            strip: own,
        } = cell;
        strip = own.glue(strip);
    }
    Chain {
        alloc,
        frames,
        strip,
        deed: ManuallyDrop::into_inner(deed),
    }
}
