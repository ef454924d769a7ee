//! A page of 4096 bytes, seen as a list of bytes, and the numbers of pages and objects.

ghost use Rattle.std.specs.Prelude.{◌≡◌, ℕ, ◌<◌, List, length, replicate};
ghost use Rattle.zr_base.specs.Sectors.{page_sector};

use std::marker::Model;

/// The number of a page: its sectors are eight times this number and the seven after it.
#[derive(Clone, Copy, PartialEq, Eq, Debug)]
pub struct PageIx(pub u32);

/// The number of a live object of a pool.
#[derive(Clone, Copy, PartialEq, Eq, Debug)]
pub struct Handle(pub u64);

/// A call of a source, a sink or a device failed. Whatever answers it has raised its count of
/// faults in that call.
#[derive(Clone, Copy, PartialEq, Eq, Debug)]
pub struct Failed;

/// A page of 4096 bytes, which are eight sectors of 512.
#[derive(Drop)]
pub struct Page {
    bytes: [u8; 4096],
}

impl Model for Page {
    ghost Value = { List ℕ };

    ghost view = { λ p. p.bytes };

    ghost invariant = { λ p. length p.bytes ≡ 4096 };
}

impl Page {
    /// The page of zeros.
    pub fn zero() -> Page
        ensures { result ≡ replicate 4096 0 }
    {
        Page { bytes: [0; 4096] }
    }

    /// The 4096 bytes of the page.
    pub fn bytes(&self) -> &[u8; 4096]
        ensures bytes { result.now ≡ self.now }
        ensures size { length self.now ≡ 4096 }
    {
        &self.bytes
    }

    /// Sets all 4096 bytes of the page.
    pub fn put_bytes(&mut self, from: &[u8; 4096])
        ensures bytes { self.new ≡ from.now }
        ensures size { length self.new ≡ 4096 }
    {
        self.bytes = *from;
    }

    /// The 512 bytes of a sector, counted from 0 within the page.
    pub fn sector(&self, at: u8) -> &[u8; 512]
        requires { at < 8 }
        ensures { result.now ≡ page_sector self.now at }
    {
        let from_there = &self.bytes[512 * at as usize..];
        match from_there.first_chunk() {
            Some(sector) => sector,
            None => unreachable!(),
        }
    }

    /// Sets a sector; the other seven stay.
    pub fn put_sector(&mut self, at: u8, from: &[u8; 512])
        requires { at < 8 }
        ensures size { length self.new ≡ 4096 }
        ensures put { page_sector self.new at ≡ from.now }
        ensures others { (k : ℕ) → k < 8 → ¬ (k ≡ at)
            → page_sector self.new k ≡ page_sector self.old k }
    {
        let from_byte = 512 * at as usize;
        self.bytes[from_byte..from_byte + 512].copy_from_slice(from);
    }
}
