//! The job that `zramsim gen` runs: four actors write the pages of a disk, the huge ones are
//! written back, the pools are compacted, and four actors read the pages.
//!
//! | Kind | The words of the page | How it is kept |
//! |---|---|---|
//! | 0 | the seed | same-filled |
//! | 1 | from 1,000,000 on, by 1 | packed in 1120 bytes |
//! | 2 | from 0 on, by 0x9e3779b97f4a7c15 | huge |
//! | 3 | from 1,000,000 on, by 16,777,216 | packed in 2656 bytes |
//!
//! The kinds come in turn, and the seed says with which of them page 0 begins.

ghost use Rattle.std.specs.Prelude.{◌≡◌, ◌≤◌, ◌<◌, ◌^◌, Some, [], ◌∷◌, ◌++◌, IfOk, OnOk, IsTrue};
ghost use Rattle.job_text.specs.declared.limits.TheConstants.{MOST_GENERATED};
ghost use Rattle.job_text.specs.Jobs.{MayFollow, nothing_used};
ghost use Rattle.job_text.specs.Generator.{stuff_of, op_of, ops_of, actors_of, pages_phase, upkeep_phase, generated};

use crate::job::{ActorList, Attr, Item, Job, PhaseText, Report, TurnList, push};
use crate::limits::MOST_GENERATED;
use std::alloc::{AllocError, Global};
use zr_base::{ActorOps, Mode, Op, Stuff};

// What the pages of a kind are written with.
fn stuff_of(seed: u64, kind: u32) -> Stuff
    ensures { result ≡ stuff_of seed kind }
{
    match kind {
        0 => Stuff::Fill(seed),
        1 => Stuff::Seq {
            base: 1_000_000,
            step: 1,
        },
        2 => Stuff::Seq {
            base: 0,
            step: 0x9e37_79b9_7f4a_7c15,
        },
        _ => Stuff::Seq {
            base: 1_000_000,
            step: 16_777_216,
        },
    }
}

// The write of a page, where a seed is given, or else its read.
fn op_of(seed: Option<u64>, page: u32) -> Op
    requires { page < MOST_GENERATED }
    ensures { result ≡ op_of seed page }
{
    let start = 8 * page as u64;
    let count = 8;
    match seed {
        Some(seed) => {
            let kind = (page + (seed % 4) as u32) % 4;
            Op::Write {
                start,
                count,
                stuff: stuff_of(seed, kind),
            }
        }
        None => Op::Read { start, count },
    }
}

// The operations of an actor on its pages, in rising order.
fn ops_of(alloc: Global, seed: Option<u64>, actor: u32, pages: u32) -> Result<ActorOps, AllocError>
    requires { pages ≤ MOST_GENERATED }
    ensures { IfOk result (λ ops. ops ≡ ops_of seed actor pages) }
{
    let mut ops = ActorOps::new(alloc);
    for page in 0..pages {
        if page / 4 % 4 == actor {
            push(&mut ops, op_of(seed, page))?;
        }
    }
    Ok(ops)
}

// A phase of four actors that write the pages, where a seed is given, or else read them.
fn pages_phase(alloc: Global, seed: Option<u64>, pages: u32) -> Result<Item, AllocError>
    requires { pages ≤ MOST_GENERATED }
    ensures { IfOk result (λ phase. phase ≡ pages_phase seed pages) }
{
    let mut actors = ActorList::new(alloc);
    push(&mut actors, ops_of(alloc, seed, 0, pages)?)?;
    push(&mut actors, ops_of(alloc, seed, 1, pages)?)?;
    push(&mut actors, ops_of(alloc, seed, 2, pages)?)?;
    push(&mut actors, ops_of(alloc, seed, 3, pages)?)?;
    let schedule = TurnList::new(alloc);
    Ok(Item::Phase(PhaseText { actors, schedule }))
}

// A phase of one actor that writes the huge pages back and compacts the pools.
fn upkeep_phase(alloc: Global) -> Result<Item, AllocError>
    ensures { IfOk result (λ phase. phase ≡ upkeep_phase) }
{
    let mut ops = ActorOps::new(alloc);
    push(&mut ops, Op::Writeback { mode: Mode::Huge })?;
    push(&mut ops, Op::Compact)?;
    let mut actors = ActorList::new(alloc);
    push(&mut actors, ops)?;
    let schedule = TurnList::new(alloc);
    Ok(Item::Phase(PhaseText { actors, schedule }))
}

// The items of the job.
fn items_of(alloc: Global, pages: u32, seed: u64) -> Result<Job, AllocError>
    requires { pages ≤ MOST_GENERATED }
    ensures { IfOk result (λ job. job ≡ generated pages seed) }
{
    let mut job = Job::new(alloc);
    push(&mut job, Item::Attr(Attr::Backing(4096)))?;
    push(&mut job, Item::Attr(Attr::DiskPages(pages)))?;
    push(&mut job, pages_phase(alloc, Some(seed), pages)?)?;
    push(&mut job, upkeep_phase(alloc)?)?;
    push(&mut job, pages_phase(alloc, None, pages)?)?;
    push(&mut job, Item::Report(Report::MmStat))?;
    push(&mut job, Item::Report(Report::IoStat))?;
    push(&mut job, Item::Report(Report::BdStat))?;
    Ok(job)
}

/// The job of a disk of 1 to 16,384 pages of four kinds that are written, written back, compacted
/// and read, and of its statistics.
pub fn gen_job(alloc: Global, pages: u32, seed: u64) -> Result<Job, AllocError>
    requires some { 1 ≤ pages }
    requires most { pages ≤ MOST_GENERATED }
    ensures job { IfOk result (λ job. job ≡ generated pages seed) }
    ensures lawful { IfOk result (MayFollow nothing_used) }
{
    items_of(alloc, pages, seed)
}
