//! Packs, unpacks or tests one page many times, and prints a sum over what came of it. What it
//! takes
//! is timed from outside: `bench/packing` runs it beside a plain C program of the same coding.
//!
//! `bench_packing TASK KIND TURNS`, where TASK is `pack`, `unpack`, `decode`, `same` or `fill`, and
//! KIND is one of the pages in `page.rt`.
#![tactic(auto)]

mod page;

ghost use Rattle.std.specs.Prelude.{◌≡◌, length};
ghost use Rattle.bdi_page.specs.Packing.{IsPage};

use arrayvec::ArrayVec;
use bdi_page::{decode, pack, unpack};
use page::page_of;
use same_fill::{fill, same_word};
use std::{env, io};
use zr_base::Page;

// The sum of the lengths of the page's packings.
fn packs(page: &Page, turns: u32) -> u64 {
    let mut sum = 0u64;
    let mut out = ArrayVec::<u8, 4128>::new();
    for _ in 0..turns {
        out.clear();
        pack(page, &mut out);
        sum = sum.wrapping_add(out.len() as u64);
    }
    sum
}

// How often the page's packing was unpacked.
fn unpacks(page: &mut Page, turns: u32) -> u64 {
    let mut out = ArrayVec::<u8, 4128>::new();
    pack(page, &mut out);
    let mut sum = 0u64;
    for _ in 0..turns {
        if unpack(out.as_slice(), page) {
            sum = sum.wrapping_add(1);
        }
    }
    sum
}

// Says what the type of these bytes does: none is above 255.
fn tell_bytes(bytes: &[u8])
    requires { length bytes.now ≡ 4096 }
    ensures { IsPage bytes.now }
{}

// The sum of a byte of the page, whose packing is decoded.
fn decodes(page: &mut Page, turns: u32) -> u64 {
    tell_bytes(page.bytes());
    let mut out = ArrayVec::<u8, 4128>::new();
    pack(page, &mut out);
    let mut sum = 0u64;
    for _ in 0..turns {
        decode(out.as_slice(), page);
        sum = sum.wrapping_add(page.bytes()[4088] as u64);
    }
    sum
}

// How often the page was same filled.
fn tests(page: &Page, turns: u32) -> u64 {
    let mut sum = 0u64;
    for _ in 0..turns {
        if same_word(page).is_some() {
            sum = sum.wrapping_add(1);
        }
    }
    sum
}

// The sum of a byte of the page, which is filled with one word after another.
fn fills(page: &mut Page, turns: u32) -> u64 {
    let mut sum = 0u64;
    for word in 0..turns {
        fill(page, word as u64);
        sum = sum.wrapping_add(page.bytes()[4088] as u64);
    }
    sum
}

fn main(rt: HostRuntime) -> io::Result<()> {
    let mut args = env::args(&rt)?;
    let _program = args.next();
    let (Some(task), Some(kind), Some(turns)) = (args.next(), args.next(), args.next()) else {
        println!(rt; "usage: bench_packing TASK KIND TURNS")?;
        return Ok(());
    };
    let kind = kind.as_str().parse::<u8>().unwrap_or(0);
    let turns = turns.as_str().parse::<u32>().unwrap_or(1);
    let mut page = page_of(kind);
    let sum = match task.as_str() {
        "pack" => packs(&page, turns),
        "unpack" => unpacks(&mut page, turns),
        "decode" => decodes(&mut page, turns),
        "same" => tests(&page, turns),
        _ => fills(&mut page, turns),
    };
    println!(rt; "{sum}")?;
    Ok(())
}
