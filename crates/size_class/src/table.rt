//! The table of the classes for one limit on the length of a chain.

ghost use Rattle.std.specs.Prelude.{◌≡◌, ℕ, ◌+◌, ◌*◌, ◌/◌, ◌<◌, ◌≤◌, ◌≢◌};
ghost use Rattle.size_class.specs.Classes.{class_size, chain_of, per_of, shares_next, stands_of, IsChain, IsLeastFitting};

use std::marker::Model;

/// The number of classes.
pub const CLASSES: u8 = 255;

/// The bytes of a cell of class `k`.
pub fn size(k: u8) -> u32
    requires { k < 255 }
    ensures value { result ≡ class_size k }
    ensures bound { result ≤ 4096 }
{
    32 + 16 * k as u32
}

/// The size classes for one limit on the frames of a chain, after zsmalloc's size classes.
/// Contracts see the limit.
#[derive(Drop)]
pub struct ClassTable {
    max_chain: u32,
    stands: [u8; 255],
}

impl Model for ClassTable {
    ghost use Rattle.std.specs.Prelude.{ℕ};
    ghost use Rattle.size_class.specs.Table.{IsTable};

    ghost Value = { ℕ };

    ghost view = { λ t. t.max_chain };

    ghost invariant = { λ t. IsTable t.max_chain t.stands };
}

impl ClassTable {
    /// The classes for chains of at most `max_chain` frames.
    pub fn new(max_chain: u32) -> ClassTable
        requires low { 4 ≤ max_chain }
        requires high { max_chain ≤ 16 }
        ensures limit { result ≡ max_chain }
    {
        let mut stands = [254; 255];
        for depth in 0..254u8 {
            let k = 253 - depth;
            if shares_next(max_chain, k) {
                stands[k as usize] = stands[k as usize + 1];
            } else {
                stands[k as usize] = k;
            }
        }
        ClassTable { max_chain, stands }
    }

    /// The frames of a chain of class `k`.
    pub fn chain(&self, k: u8) -> u32
        requires { k < 255 }
        ensures value { result ≡ chain_of self.now k }
        ensures rule { IsChain self.now k result }
        ensures bound { result ≤ 16 }
    {
        chain(self.max_chain, k)
    }

    /// The cells of a chain of class `k`.
    pub fn per(&self, k: u8) -> u32
        requires { k < 255 }
        ensures value { result ≡ per_of self.now k }
        ensures some { 1 ≤ result }
        ensures bound { result ≤ 2048 }
    {
        per(self.max_chain, k)
    }

    /// The class whose pool serves class `k`.
    pub fn stands_as(&self, k: u8) -> u8
        requires { k < 255 }
        ensures value { result ≡ stands_of self.now k }
        ensures last { k ≡ 254 → result ≡ 254 }
        ensures next { k < 254 → chain_of self.now k ≡ chain_of self.now (k + 1)
            → per_of self.now k ≡ per_of self.now (k + 1)
            → result ≡ stands_of self.now (k + 1) }
        ensures other_chain { k < 254 → chain_of self.now k ≢ chain_of self.now (k + 1)
            → result ≡ k }
        ensures other_per { k < 254 → per_of self.now k ≢ per_of self.now (k + 1) → result ≡ k }
        ensures itself { stands_of self.now result ≡ result }
        ensures above { k ≤ result }
        ensures packed { k ≤ 202 → result < 254 }
        ensures bound { result < 255 }
    {
        self.stands[k as usize]
    }

    /// The class whose pool takes an object of `len` bytes and its header of 8 bytes. A page that
    /// is kept as it is, with 4096 bytes, goes to class 254.
    pub fn class_for(&self, len: u32) -> u8
        requires some { 1 ≤ len }
        requires packed { len ≤ 3256 }
        ensures class { (k : ℕ) × IsLeastFitting (len + 8) k × (result ≡ stands_of self.now k) }
        ensures itself { stands_of self.now result ≡ result }
        ensures fits { len + 8 ≤ class_size result }
        ensures below { result < 254 }
    {
        self.stands_as((len.saturating_sub(24).div_ceil(16)) as u8)
    }
}

/// The frames, from 1 to `max_chain`, of which cells of class `k` waste least.
fn chain(max_chain: u32, k: u8) -> u32
    requires class { k < 255 }
    requires low { 4 ≤ max_chain }
    requires high { max_chain ≤ 16 }
    ensures value { result ≡ chain_of max_chain k }
    ensures rule { IsChain max_chain k result }
    ensures bound { result ≤ 16 }
{
    let cell = size(k);
    let mut best = 1;
    for shorter in 0..max_chain {
        let frames = shorter + 1;
        if frames * 4096 % cell < best * 4096 % cell {
            best = frames;
        }
    }
    best
}

/// The cells of a chain of class `k`.
fn per(max_chain: u32, k: u8) -> u32
    requires class { k < 255 }
    requires low { 4 ≤ max_chain }
    requires high { max_chain ≤ 16 }
    ensures value { result ≡ per_of max_chain k }
    ensures some { 1 ≤ result }
    ensures bound { result ≤ 2048 }
{
    chain(max_chain, k) * 4096 / size(k)
}

/// Whether the chains of class `k` and the next have one length and as many cells.
fn shares_next(max_chain: u32, k: u8) -> bool
    requires class { k < 254 }
    requires low { 4 ≤ max_chain }
    requires high { max_chain ≤ 16 }
    ensures { result ≡ shares_next max_chain k }
{
    chain(max_chain, k) == chain(max_chain, k + 1) && per(max_chain, k) == per(max_chain, k + 1)
}
