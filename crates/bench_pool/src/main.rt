//! Adds and frees objects of a pool, and plans moves in it, for measuring: `bench_pool LENGTH
//! OBJECTS ROUNDS PLANS`.
//!
//! It makes the pool of the class that takes objects of so many bytes, fills it with so many
//! objects, and then adds and frees one object in each round. Then it pins and unpins one object so
//! many times, and asks for the next move in between. What it prints is the same whenever the
//! numbers are: the pool's statistics, and how often there was a move.
#![tactic(auto)]

ghost use Rattle.std.specs.Prelude.{ℕ, ◌≡◌, ◌+◌, ◌≤◌, length, IfOk};
ghost use Rattle.zspage.specs.Cells.{Fits};
ghost use Rattle.class_pool.specs.Pool.{IsAtHome, IsFresh};

use class_pool::ClassPool;
use size_class::{ClassTable, size};
use std::alloc::{AllocError, Global};
use std::{env, io};
use zr_base::Handle;

// A number of the command line, or 0 where there is none.
fn number(word: Option<String>) -> u32 {
    word.and_then(|digits| digits.as_str().parse().ok())
        .unwrap_or(0)
}

// The pool of packed objects of so many bytes.
fn packed_pool(alloc: Global, len: u32) -> ClassPool
    requires some { 1 ≤ len }
    requires packed { len ≤ 3256 }
    ensures { len + 8 ≤ result.size }
{
    let table = ClassTable::new(4);
    let class = table.class_for(len);
    ClassPool::new(
        alloc,
        class,
        size(class),
        table.chain(class),
        table.per(class),
    )
}

// The pool of whole pages.
fn huge_pool(alloc: Global) -> ClassPool
    ensures { result.size ≡ 4096 }
{
    let table = ClassTable::new(4);
    let class = table.stands_as(254);
    ClassPool::new(
        alloc,
        class,
        size(class),
        table.chain(class),
        table.per(class),
    )
}

// Adds an object. Err is want of memory, or of handles.
fn add(pool: &mut ClassPool, bytes: &[u8]) -> Result<Handle, AllocError>
    requires { Fits (length bytes.now) pool.old.size }
    ensures size { pool.new.size ≡ pool.old.size }
    ensures fresh { IfOk result (λ h. IsFresh pool.old h.0) }
    ensures home { IfOk result (λ h. IsAtHome pool.new h.0) }
    ensures others { (h : ℕ) → IsAtHome pool.old h → IsAtHome pool.new h }
{
    if pool.used() == u32::MAX {
        return Err(AllocError);
    }
    if pool.room() {
        Ok(pool.alloc(bytes))
    } else {
        pool.alloc_new(bytes)
    }
}

// Fills a pool with so many objects, and then adds and frees one in each round.
fn churn(pool: &mut ClassPool, bytes: &[u8], objects: u32, rounds: u32) -> Result<(), AllocError>
    requires { Fits (length bytes.now) pool.old.size }
    ensures size { pool.new.size ≡ pool.old.size }
    ensures others { (h : ℕ) → IsAtHome pool.old h → IsAtHome pool.new h }
{
    for _ in 0..objects {
        add(pool, bytes)?;
    }
    for _ in 0..rounds {
        let handle = add(pool, bytes)?;
        pool.free(handle);
    }
    Ok(())
}

// Adds an object in place of another, and then pins and unpins it so many times, with a plan in
// between. Gives how many plans there were.
fn plan(pool: &mut ClassPool, bytes: &[u8], other: Handle, times: u32) -> Result<u32, AllocError>
    requires fits { Fits (length bytes.now) pool.old.size }
    requires home { IsAtHome pool.old other.0 }
{
    let handle = add(pool, bytes)?;
    pool.free(other);
    let mut plans = 0;
    for _ in 0..times {
        let cell = pool.pin(handle);
        if pool.next_move().is_some() {
            plans += 1;
        }
        pool.unpin(handle, cell);
    }
    Ok(plans)
}

// Fills a pool with so many objects more, and empties it of them again, the last first.
fn fill_and_empty(pool: &mut ClassPool, bytes: &[u8], objects: u32) -> Result<(), AllocError>
    requires { Fits (length bytes.now) pool.old.size }
    ensures size { pool.new.size ≡ pool.old.size }
    ensures others { (h : ℕ) → IsAtHome pool.old h → IsAtHome pool.new h }
{
    if objects == 0 {
        return Ok(());
    }
    let handle = add(pool, bytes)?;
    fill_and_empty(pool, bytes, objects - 1)?;
    pool.free(handle);
    Ok(())
}

// What is measured.
fn run(
    pool: &mut ClassPool,
    bytes: &[u8],
    objects: u32,
    rounds: u32,
    times: u32,
    fills: u32,
) -> Result<u32, AllocError>
    requires { Fits (length bytes.now) pool.old.size }
{
    for _ in 0..fills {
        fill_and_empty(pool, bytes, objects)?;
    }
    let first = add(pool, bytes)?;
    churn(pool, bytes, objects.saturating_sub(1), rounds)?;
    plan(pool, bytes, first, times)
}

fn main(rt: HostRuntime) -> io::Result<()> {
    let mut words = env::args(&rt)?;
    let _program = words.next();
    let len = number(words.next());
    let objects = number(words.next());
    let rounds = number(words.next());
    let times = number(words.next());
    let fills = number(words.next());
    let page = [7; 4096];
    let (stat, plans) = if 1 <= len && len <= 3256 {
        let mut pool = packed_pool(rt.alloc(), len);
        let plans = run(
            &mut pool,
            &page[..len as usize],
            objects,
            rounds,
            times,
            fills,
        )?;
        (pool.stat(), plans)
    } else {
        let mut pool = huge_pool(rt.alloc());
        let plans = run(&mut pool, &page, objects, rounds, times, fills)?;
        (pool.stat(), plans)
    };
    println!(rt;
        "class {} objects {} zspages {} plans {}",
        stat.class, stat.used, stat.zspages, plans
    )?;
    Ok(())
}
