//! Operations of a job, their pieces, tags and ends.

ghost use Rattle.std.specs.Prelude.{◌≡◌, ℕ, ◌+◌, ◌*◌, ◌<◌, ◌≤◌, ◌^◌, ◌%◌, length, take, drop};
ghost use Rattle.zr_base.specs.Plain.{words_from};

use crate::list::List;
use crate::page::PageIx;

/// Names an operation: the actor's number in its phase, and the operation's number among the
/// actor's, both from 0.
#[derive(Clone, Copy, PartialEq, Eq, Debug)]
pub struct Tag {
    pub actor: u32,
    pub op: u32,
}

/// The sectors `first` to `first + count - 1` of a page, counted from 0 within the page.
/// `count` is 1 to 8, and `first + count` at most 8.
#[derive(Clone, Copy, PartialEq, Eq, Debug)]
pub struct Piece {
    pub page: PageIx,
    pub first: u8,
    pub count: u8,
}

/// Turns that a schedule gives to an actor.
#[derive(Clone, Copy, PartialEq, Eq, Debug)]
pub struct Turns {
    pub actor: u32,
    pub times: u32,
}

/// How an operation ended.
#[derive(Clone, Copy, PartialEq, Eq, Debug)]
pub enum OpEnd {
    /// It was carried out.
    Ok,
    /// Its sectors lie beyond the disk, and nothing was done.
    Range,
    /// A piece of a write was refused at the memory limit, after `done` pieces that were carried
    /// out: the frames charged, those needed, and the limit, each of 4096 bytes.
    AtLimit {
        pages: u64,
        need: u64,
        limit: u64,
        done: u32,
    },
    /// A piece of a write was refused for want of memory, after `done` pieces that were carried out.
    NoMemory {
        done: u32,
    },
    /// A read of the device failed, after `done` pieces that were carried out: the device's count of
    /// faults after it.
    Eio {
        fault: u64,
        done: u32,
    },
    /// Pages were marked idle: how many marks are new.
    Marked(u32),
    /// Pages were written back: how many are on the device now, and how many were written in vain,
    /// since another actor's call came to the page meanwhile.
    Written {
        wrote: u32,
        lost: u32,
    },
    /// The same, until the limit on writes allowed no other.
    Budget {
        wrote: u32,
        lost: u32,
    },
    /// The same, until no block of the device was free.
    NoBlock {
        wrote: u32,
        lost: u32,
    },
    /// No block of a device is used, so no page could be written back.
    NoBacking,
    /// Pages were written back until the device failed to write one: the device's count of faults
    /// after it.
    WriteEio {
        fault: u64,
        wrote: u32,
        lost: u32,
    },
    /// A compaction was carried out: how many objects it moved, and how many frames of 4096 bytes
    /// it freed.
    Compacted {
        moves: u64,
        frames: u64,
    },
}

/// A list of bytes.
pub type Bytes = List<u8>;

/// What a write puts.
#[derive(Drop)]
pub enum Stuff {
    /// Every word of 8 bytes is this one, little endian.
    Fill(u64),
    /// Word `j` of the request is `base + j * step` modulo `2^64`, little endian.
    Seq { base: u64, step: u64 },
    /// The bytes in order of address.
    Hex(Bytes),
}

impl Stuff {
    ghost use Rattle.std.specs.Prelude.{◌≡◌, ℕ, ◌+◌, ◌*◌, ◌≤◌, ◌^◌, ◌<◌, length};
    ghost use Rattle.zr_base.specs.Plain.{HasSectors, stuff_sector};

    /// The request's sector `k`, counted from 0. Of `Hex` that many bytes must be there.
    pub fn sector(&self, k: u32, out: &mut [u8; 512])
        requires { HasSectors self.now (k + 1) }
        ensures { out.new ≡ stuff_sector self.now k }
    {
        match self {
            Stuff::Fill(word) => put_same_words(*word, 64 * k as u64, out),
            Stuff::Seq { base, step } => put_words(*base, *step, 64 * k as u64, out),
            Stuff::Hex(bytes) => put_bytes(bytes.as_slice(), 512 * k as usize, out),
        }
    }
}

// Word j of the request is base + j * step; the sector begins with word `from`.
fn put_words(base: u64, step: u64, from: u64, out: &mut [u8; 512])
    requires { from < 2 ^ 40 }
    ensures { out.new ≡ words_from (λ j. (base + j * step) % 2 ^ 64) from 64 }
{
    for i in 0..64 {
        let word = base.wrapping_add((from + i as u64).wrapping_mul(step));
        out[8 * i..8 * i + 8].copy_from_slice(&word.to_le_bytes());
    }
}

fn put_same_words(word: u64, from: u64, out: &mut [u8; 512])
    requires { from < 2 ^ 40 }
    ensures { out.new ≡ words_from (λ j. word) from 64 }
{
    put_words(word, 0, from, out);
}

fn put_bytes(bytes: &[u8], from: usize, out: &mut [u8; 512])
    requires { from + 512 ≤ length bytes.now }
    ensures { out.new ≡ take 512 (drop from bytes.now) }
{
    out.copy_from_slice(&bytes[from..from + 512]);
}

/// Which pages of the pool a writeback takes: those that are idle, those that are huge, or those
/// that are both.
#[derive(Clone, Copy, PartialEq, Eq, Debug)]
pub enum Mode {
    Idle,
    Huge,
    HugeIdle,
}

/// An operation of an actor. A request has `count` sectors of 512 bytes, from sector `start` on.
/// What is no request has no sector.
#[derive(Drop)]
pub enum Op {
    Write {
        start: u64,
        count: u32,
        stuff: Stuff,
    },
    Read {
        start: u64,
        count: u32,
    },
    /// Discards the pages that the request has whole; of any other page nothing is discarded.
    Discard {
        start: u64,
        count: u32,
    },
    /// Marks pages of the pool idle: all of them, or those that weren't accessed for more than `age`
    /// seconds.
    Idle {
        age: Option<u64>,
    },
    /// Writes pages of the pool back to the backing device, one after the other. Without a backing it
    /// does nothing.
    Writeback {
        mode: Mode,
    },
    /// Compacts the pools: objects move out of the zspages that have few, which are then given up.
    Compact,
}

/// The operations of an actor, in turn.
pub type ActorOps = List<Op>;
