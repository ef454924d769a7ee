//! Reserves and releases blocks of a map, for measuring: `bench_blocks BLOCKS TAKEN ROUNDS`.
//!
//! It makes a map of so many blocks, takes some of them, and then reserves and releases one block
//! in each round. What it prints is the same whenever the numbers are: how many blocks were taken,
//! and the sum of the numbers that the rounds got.
#![tactic(auto)]

use block_map::{Blocks, Reserve};
use std::{env, io};

// A number of the command line, or 0 where there is none.
fn number(word: Option<String>) -> u32 {
    word.and_then(|digits| digits.as_str().parse().ok())
        .unwrap_or(0)
}

// Reserves so many blocks, and says how many it got.
fn take(map: &mut Blocks, count: u32) -> u32 {
    let mut taken: u32 = 0;
    for _ in 0..count {
        if let Reserve::Got(_) = map.reserve() {
            taken = taken.saturating_add(1);
        }
    }
    taken
}

// Reserves and releases a block in each round, and adds up their numbers.
fn churn(map: &mut Blocks, rounds: u32) -> u64 {
    let mut sum: u64 = 0;
    for _ in 0..rounds {
        if let Reserve::Got(block) = map.reserve() {
            map.release(block);
            sum = sum.wrapping_add(u64::from(block));
        }
    }
    sum
}

fn main(rt: HostRuntime) -> io::Result<()> {
    let mut words = env::args(&rt)?;
    let _program = words.next();
    let blocks = number(words.next());
    let wanted = number(words.next());
    let rounds = number(words.next());
    let mut map = Blocks::new(rt.alloc(), blocks)?;
    let taken = take(&mut map, wanted);
    let sum = churn(&mut map, rounds);
    println!(rt; "taken {taken} of {blocks}, rounds {rounds}, sum {sum}")?;
    Ok(())
}
