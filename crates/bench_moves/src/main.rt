//! Compacts a pool of half-empty zspages, for measuring: `bench_moves LENGTH OBJECTS BUDGET`.
//!
//! It makes the pool of the class that takes objects of so many bytes, fills it with twice so many
//! objects, and frees every second one. Then it moves objects until none may move or the budget is
//! spent. What it prints is the same whenever the numbers are: the objects, the zspages before and
//! after, the moves and the frames that they gave back.
#![tactic(auto)]

ghost use Rattle.std.specs.Prelude.{ℕ, ◌≡◌, ◌+◌, ◌≤◌, length, IfOk};
ghost use Rattle.zspage.specs.Cells.{Fits};
ghost use Rattle.class_pool.specs.Pool.{IsAtHome, IsFresh};

use class_pool::{ClassPool, Moved};
use size_class::{ClassTable, size};
use std::alloc::{AllocError, Global};
use std::{env, io};
use zr_base::Handle;

// A number of the command line, or 0 where there is none.
fn number(word: Option<String>) -> u32 {
    word.and_then(|digits| digits.as_str().parse().ok())
        .unwrap_or(0)
}

// The pool of packed objects of so many bytes.
fn packed_pool(alloc: Global, len: u32) -> ClassPool
    requires some { 1 ≤ len }
    requires packed { len ≤ 3256 }
    ensures { len + 8 ≤ result.size }
{
    let table = ClassTable::new(4);
    let class = table.class_for(len);
    ClassPool::new(
        alloc,
        class,
        size(class),
        table.chain(class),
        table.per(class),
    )
}

// Adds an object. Err is want of memory, or of handles.
fn add(pool: &mut ClassPool, bytes: &[u8]) -> Result<Handle, AllocError>
    requires { Fits (length bytes.now) pool.old.size }
    ensures size { pool.new.size ≡ pool.old.size }
    ensures fresh { IfOk result (λ h. IsFresh pool.old h.0) }
    ensures home { IfOk result (λ h. IsAtHome pool.new h.0) }
    ensures others { (h : ℕ) → IsAtHome pool.old h → IsAtHome pool.new h }
{
    if pool.used() == u32::MAX {
        return Err(AllocError);
    }
    if pool.room() {
        Ok(pool.alloc(bytes))
    } else {
        pool.alloc_new(bytes)
    }
}

// Adds so many pairs of objects, and frees one of each again, the last first.
fn halve(pool: &mut ClassPool, bytes: &[u8], pairs: u32) -> Result<(), AllocError>
    requires { Fits (length bytes.now) pool.old.size }
    ensures { (h : ℕ) → IsAtHome pool.old h → IsAtHome pool.new h }
{
    if pairs == 0 {
        return Ok(());
    }
    add(pool, bytes)?;
    let handle = add(pool, bytes)?;
    halve(pool, bytes, pairs - 1)?;
    pool.free(handle);
    Ok(())
}

// Moves objects while there is a budget. Gives the moves, and the frames that they gave back.
fn compact(pool: &mut ClassPool, budget: u32) -> (u32, u64) {
    let mut left = budget;
    let mut frames = 0_u64;
    while let Moved::Moved { frames: more } = pool.move_one(&mut left) {
        frames = frames.saturating_add(more as u64);
    }
    (budget - left, frames)
}

fn main(rt: HostRuntime) -> io::Result<()> {
    let mut words = env::args(&rt)?;
    let _program = words.next();
    let len = number(words.next()).clamp(1, 3256);
    let objects = number(words.next());
    let budget = number(words.next());
    let page = [7; 4096];
    let mut pool = packed_pool(rt.alloc(), len);
    halve(&mut pool, &page[..len as usize], objects)?;
    let before = pool.stat();
    let (moves, frames) = compact(&mut pool, budget);
    let after = pool.stat();
    println!(rt;
        "class {} objects {} zspages {} then {} moves {} frames {}",
        before.class, before.used, before.zspages, after.zspages, moves, frames
    )?;
    Ok(())
}
