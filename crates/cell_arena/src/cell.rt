//! A cell of a chain.

ghost use Rattle.std.specs.Prelude.{◌≡◌, ◌+◌, ◌-◌, ◌*◌, ◌%◌, ◌≤◌, ◌++◌, min, length, take, drop};
ghost use Rattle.cell_arena.specs.Chains.{IsCell};

use crate::raw::Strip;
use std::marker::Model;

/// The bytes of a frame.
const FRAME: usize = 4096;

/// A cell: some bytes of a chain, which no other cell has. Dropped, it frees nothing.
#[derive(Drop)]
pub struct Cell {
    pub(crate) number: u32,
    pub(crate) size: u32,
    pub(crate) strip: Strip,
}

impl Model for Cell {
    ghost use Rattle.cell_arena.specs.Chains.{CellState, IsCell};

    ghost Value = { CellState };

    ghost view = { λ c. record {
      chain = c.strip.chain;
      number = c.number;
      size = c.size;
      bytes = c.strip.bytes;
    } };

    ghost invariant = { λ c. IsCell c.number c.size c.strip.chain c.strip.ptr c.strip.bytes };
}

impl Cell {
    /// The number of the cell in its chain.
    pub fn number(&self) -> u32
        ensures { result ≡ self.now.number }
    {
        self.number
    }

    /// The bytes of the cell.
    pub fn size(&self) -> u32
        ensures size { result ≡ self.now.size }
        ensures long { length self.now.bytes ≡ result }
    {
        self.size
    }

    /// The bytes of the cell in order, cut where a frame of the chain ends. The second part may be
    /// empty.
    pub fn parts(&self) -> (&[u8], &[u8])
        ensures whole { result.0.now ++ result.1.now ≡ self.now.bytes }
        ensures cut { length result.0.now ≡ min self.now.size
            (4096 - self.now.number * self.now.size % 4096) }
    {
        let start = self.number as usize * self.size as usize;
        let size = self.size as usize;
        self.strip
            .bytes(size)
            .split_at(size.min(FRAME - start % FRAME))
    }

    /// Writes the bytes of `from` at `at`.
    pub fn write(&mut self, at: u32, from: &[u8])
        requires { at + length from.now ≤ length self.old.bytes }
        ensures { self.new ≡ record self.old {
          bytes =
              take at self.old.bytes ++ from.now ++ drop (at + length from.now) self.old.bytes;
        } }
    {
        let at = at as usize;
        let bytes = self.strip.bytes_mut(self.size as usize);
        bytes[at..at + from.len()].copy_from_slice(from);
    }
}
