//! Takes and gives locks of a row from four threads, for measuring:
//! `bench_lock_table SLOTS ONE TWO THREE FOUR SPREAD`.
//!
//! It makes a row of the account and so many slots, at least four. Each actor takes and gives its
//! lock so many times, in a
//! thread of its own, and then the row is shut. All have one slot, or each has its own where
//! SPREAD isn't 0. What it
//! prints is the same whenever the numbers are: how many locks came back.
#![tactic(auto)]

ghost use Rattle.std.specs.Prelude.{◌≤◌, ℕ};
ghost use Rattle.bench_lock_table.specs.Names.{AreAmong};

mod rows;
mod tags;
#[cfg(test)]
mod tests;
mod turns;
mod values;

use lock_row::LockNo;
use rows::{Locks, run};
use std::alloc::{AllocError, Global};
use std::sync::Wait;
use std::thread::Threads;
use std::{env, io};
use values::new_values;
use zr_base::PageIx;

// A number of the command line, or 0 where there is none.
fn number(word: Option<String>) -> u32 {
    word.and_then(|digits| digits.as_str().parse().ok())
        .unwrap_or(0)
}

// The slots of the four actors: one for all, or one each.
fn locks(spread: bool) -> Locks
    ensures { (n : ℕ) → 4 ≤ n → AreAmong n result }
{
    if spread {
        Locks {
            one: LockNo::Slot(PageIx(0)),
            two: LockNo::Slot(PageIx(1)),
            three: LockNo::Slot(PageIx(2)),
            four: LockNo::Slot(PageIx(3)),
        }
    } else {
        Locks {
            one: LockNo::Slot(PageIx(0)),
            two: LockNo::Slot(PageIx(0)),
            three: LockNo::Slot(PageIx(0)),
            four: LockNo::Slot(PageIx(0)),
        }
    }
}

// How many locks come back.
fn measure<R: Threads + Wait + Sync>(
    rt: &R,
    alloc: Global,
    slots: u32,
    rounds: [u32; 4],
    spread: bool,
) -> Result<usize, AllocError> {
    let values = new_values(alloc, slots.max(4))?;
    match run(rt, alloc, values, &locks(spread), rounds, false) {
        Ok((values, _)) => Ok(values.len()),
        Err(_) => Err(AllocError),
    }
}

fn main(rt: HostRuntime) -> io::Result<()> {
    let mut words = env::args(&rt)?;
    let _program = words.next();
    let slots = number(words.next());
    let one = number(words.next());
    let two = number(words.next());
    let three = number(words.next());
    let four = number(words.next());
    let spread = number(words.next()) != 0;
    let count = measure(&rt, rt.alloc(), slots, [one, two, three, four], spread)?;
    println!(rt; "{count} locks came back")?;
    Ok(())
}
