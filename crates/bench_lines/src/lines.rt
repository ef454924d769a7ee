//! The lines of an output of some size.

ghost use Rattle.std.specs.Prelude.{◌≡◌, ◌<◌, ◌^◌, ◌∷◌, ◌++◌, [], length, OnOk, IfOk};
ghost use Rattle.std.specs.List.{AllByRecursion};
ghost use Rattle.job_print.specs.Proper.{IsProper};
ghost use Rattle.job_print.specs.Texts.{IsFilled};

use backing_dev::BdStat;
use job_print::{OutLine, OutText, TagList};
use mem_account::{IoStat, MmStat};
use size_class::ClassStat;
use std::alloc::{AllocError, Global};
use std::simd::prelude::*;
use zr_base::{Bytes, List, OpEnd, Tag};

// Words are multiples of the fractional part of the golden ratio.
const GOLD: u64 = 0x9e37_79b9_7f4a_7c15;

// Puts an item last.
fn push<T: Drop>(list: &mut List<T>, item: T) -> Result<(), AllocError>
    ensures { OnOk result (list.new ≡ list.old ++ item ∷ []) }
{
    match list.push(item) {
        Ok(()) => Ok(()),
        Err(_) => Err(AllocError),
    }
}

// The bytes of a sector, of which the first words differ.
fn sector(number: u32) -> [u8; 512]
    ensures size { length result ≡ 512 }
    ensures differ { ¬ IsFilled result }
{
    let mut bytes = [0; 512];
    let mut word = u64::from(number);
    for k in 0..64 {
        word = word.wrapping_add(GOLD).rotate_left(29);
        u8x8::from_array(word.to_le_bytes()).copy_to_slice(&mut bytes[8 * k..]);
    }
    bytes[0] = 1;
    bytes[8] = 2;
    bytes
}

// The same as a list.
fn listed(alloc: Global, bytes: &[u8]) -> Result<Bytes, AllocError>
    ensures same { IfOk result (λ list. list ≡ bytes.now) }
    ensures bytes { IfOk result (AllByRecursion (λ byte. byte < 2 ^ 8)) }
{
    let mut list = Bytes::new(alloc);
    for byte in bytes {
        push(&mut list, *byte)?;
    }
    Ok(list)
}

fn hex(alloc: Global, number: u32) -> Result<OutLine, AllocError>
    ensures { IfOk result IsProper }
{
    Ok(OutLine::Hex(listed(alloc, &sector(number))?))
}

// The order of a page with three calls.
fn order(alloc: Global, page: u32) -> Result<OutLine, AllocError>
    ensures { IfOk result IsProper }
{
    let mut tags = TagList::new(alloc);
    push(&mut tags, Tag { actor: 0, op: page })?;
    push(&mut tags, Tag { actor: 1, op: page })?;
    push(&mut tags, Tag { actor: 12, op: 345 })?;
    Ok(OutLine::Order { page, tags })
}

// The statistics of a class.
fn class(number: u32) -> OutLine
    ensures { IsProper result }
{
    OutLine::Class(ClassStat {
        class: 32,
        size: 544,
        chain: 2,
        per: 15,
        used: number,
        zspages: number / 15,
        groups: [0, 1, 2, 3, 4, 5, 6, 7, 8, 9, 10],
    })
}

// A line of a report.
fn report(number: u32) -> OutLine
    ensures { IsProper result }
{
    let n = u64::from(number);
    match number / 16 % 5 {
        0 => OutLine::Mm(MmStat {
            orig: 4096 * n,
            compr: 1120 * n,
            used: 4096 * n,
            limit: 0,
            max: 4096 * n,
            same: n,
            compacted: 0,
            huge: n,
            huge_since: n,
        }),
        1 => OutLine::Io(IoStat {
            failed_reads: 0,
            failed_writes: n,
            invalid_io: n,
            notify_free: n,
        }),
        2 => OutLine::Bd(BdStat {
            count: n,
            reads: n,
            writes: n,
        }),
        3 => OutLine::State {
            page: number,
            letters: *b"..h.",
            touched: n,
        },
        _ => class(number),
    }
}

// The line of this number: of sixteen, twelve are sectors by their bytes.
fn line(alloc: Global, number: u32) -> Result<OutLine, AllocError>
    ensures { IfOk result IsProper }
{
    match number % 16 {
        0 => Ok(OutLine::Op {
            actor: 0,
            op: number,
            end: OpEnd::Ok,
        }),
        5 => Ok(OutLine::Fill(u64::from(number))),
        10 => order(alloc, number),
        15 => Ok(report(number)),
        _ => hex(alloc, number),
    }
}

/// So many lines.
pub fn made(alloc: Global, count: u32) -> Result<OutText, AllocError>
    ensures { IfOk result (AllByRecursion IsProper) }
{
    let mut lines = OutText::new(alloc);
    for number in 0..count {
        push(&mut lines, line(alloc, number)?)?;
    }
    Ok(lines)
}
