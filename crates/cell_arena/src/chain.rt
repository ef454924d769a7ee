//! A chain of frames.

ghost use Rattle.std.specs.Prelude.{◌≡◌, ◌*◌, ◌≤◌, length, replicate, IfOk};
ghost use Rattle.core.specs.Mem.Slots.{lease_ptr, lease_len, lease_heap};
ghost use Rattle.cell_arena.specs.Chains.{IsChain};

use crate::raw::{Deed, Strip, allocate, free};
use std::alloc::{AllocError, Global};
use std::marker::Model;

/// The bytes of a frame.
pub(crate) const FRAME: u32 = 4096;

/// As many zeros as the longest chain has bytes.
const ZEROS: [u8; 65536] = [0; 65536];

/// Frames side by side, seen as their bytes. Dropped, it frees them.
pub struct Chain {
    pub(crate) alloc: Global,
    pub(crate) frames: u32,
    pub(crate) strip: Strip,
    pub(crate) deed: Deed,
}

impl Model for Chain {
    ghost use Rattle.std.specs.Prelude.{List, ℕ, ◌≡◌};
    ghost use Rattle.core.specs.Mem.Slots.{lease_ptr, lease_len, lease_heap};
    ghost use Rattle.cell_arena.specs.Chains.{IsChain};

    ghost Value = { List ℕ };

    ghost view = { λ c. c.strip.bytes };

    ghost invariant = { λ c. IsChain c.frames c.strip.chain c.strip.ptr c.strip.bytes
        (lease_ptr c.deed.lease) (lease_len c.deed.lease) × (lease_heap c.deed.lease ≡ c.alloc) };
}

impl Chain {
    /// A chain of zeros.
    pub fn new(alloc: Global, frames: u32) -> Result<Chain, AllocError>
        requires some { 1 ≤ frames }
        requires few { frames ≤ 16 }
        ensures { IfOk result (λ c. c ≡ replicate (frames * 4096) 0) }
    {
        let zeros = &ZEROS[..(frames * FRAME) as usize];
        let (strip, deed) = allocate(&alloc, zeros)?;
        Ok(Chain {
            alloc,
            frames,
            strip,
            deed,
        })
    }

    /// The frames.
    pub fn frames(&self) -> u32
        ensures long { result * 4096 ≡ length self.now }
        ensures some { 1 ≤ result }
        ensures few { result ≤ 16 }
    {
        self.frames
    }

    /// Takes the chain apart.
    pub(crate) fn into_parts(self) -> (Global, u32, Strip, Deed)
        ensures parts { IsChain result.1 result.2.chain result.2.ptr result.2.bytes
            (lease_ptr result.3.lease) (lease_len result.3.lease) }
        ensures freed { lease_heap result.3.lease ≡ result.0 }
        ensures bytes { result.2.bytes ≡ self }
    {
        let Chain {
            alloc,
            frames,
            strip,
            deed,
        } = self;
        (alloc, frames, strip, deed)
    }
}

impl Drop for Chain {
    fn drop(self) {
        let (alloc, frames, strip, deed) = self.into_parts();
        free(&alloc, strip, (frames * FRAME) as usize, deed);
    }
}
