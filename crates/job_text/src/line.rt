//! One line of a job.

ghost use Rattle.std.specs.Prelude.{◌≡◌, ℕ, List, map, IfOk, if◌then◌else◌};
ghost use Rattle.job_text.specs.Lines.{without_return, before_comment, words_of, line_by, line_with, line_of, report_named, are_bounds, fill_sectors};
ghost use Rattle.job_text.specs.Lines.{Form, disk_form, limit_form, backing_form, budget_form, budgeted_form, clock_form, max_form, report_form, actor_form, fill_form, seq_form, hex_form, read_form, discard_form, idle_all_form, idle_form, compact_form, schedule_form, run_form};
ghost use Rattle.job_text.specs.Lines.{alone, with_word, report_in, read_in, discard_in, idle_with, idle_in, mode_named, writeback_with, writeback_in, fill_in, seq_in, hex_in, stuff_in, write_in, schedule_in, named_in};
ghost use Rattle.job_text.specs.Answers.{Answers, IsInRange, hash_in};

use crate::fault::{Cause, NotTaken};
use crate::job::{Attr, Report, TurnList};
use crate::joined::{are_hex, bytes, joined};
use crate::limits::{MOST_BLOCKS, MOST_BUDGET, MOST_LIMIT_PAGES};
use crate::number::{exact, number, pages, word64};
use crate::turns::{are_turns, turns};
use std::alloc::{AllocError, Global};
use zr_base::{MOST_PAGES, MOST_SECTORS, Mode, Op, Stuff};

/// What a line says.
#[derive(Drop)]
pub enum Line {
    /// Nothing.
    Blank,
    /// An attribute is set.
    Attribute(Attr),
    /// A report is told.
    Tell(Report),
    /// The next actor begins.
    Actor,
    /// An operation of the last actor.
    Operation(Op),
    /// Turns that are given after those before.
    Schedule(TurnList),
    /// The phase ends.
    Run,
}

fn line_before_return(line: &[u8]) -> &[u8]
    ensures { result.now ≡ without_return line.now }
{
    match line {
        [front @ .., b'\r'] => front,
        _ => line,
    }
}

fn hash(line: &[u8]) -> Option<usize>
    ensures { result ≡ hash_in line.now }
{
    line.iter().position(|c| *c == b'#')
}

fn line_before_comment(line: &[u8]) -> &[u8]
    ensures { result.now ≡ before_comment line.now }
{
    match hash(line) {
        Some(at) => &line[..at],
        None => line,
    }
}

/// The words of a line, between blanks.
pub(crate) fn words(alloc: Global, line: &[u8]) -> Result<Vec<&[u8]>, AllocError>
    ensures { IfOk result (λ v. map (λ word. word.now) v.items ≡ words_of line.now) }
{
    line_before_comment(line_before_return(line))
        .split(|c| *c == b' ' || *c == b'\t')
        .filter(|word| !word.is_empty())
        .collect(alloc)
}

fn in_bounds(start: u64, count: u64) -> Result<u32, Cause>
    ensures { result ≡ (if are_bounds start count then Ok count else Err Cause.Range) }
{
    if start < 1 << 32 && 1 <= count && count <= MOST_SECTORS as u64 {
        Ok(count as u32)
    } else {
        Err(Cause::Range)
    }
}

fn fills(digits: usize, count: u64) -> bool
    ensures { result ≡ fill_sectors digits count }
{
    !(1 <= count && count <= MOST_SECTORS as u64) || digits as u64 == 1024 * count
}

#[tactic(auto, unfolding(crate::specs::Lines::is_malformed, crate::specs::Lines::meaning))]
fn disk_size(size: &[u8]) -> Result<Line, Cause>
    ensures { result ≡ line_by (disk_form size.now) }
{
    let pages = pages(size)?;
    if 1 <= pages && pages <= MOST_PAGES as u64 {
        Ok(Line::Attribute(Attr::DiskPages(pages as u32)))
    } else {
        Err(Cause::Range)
    }
}

#[tactic(auto, unfolding(crate::specs::Lines::is_malformed, crate::specs::Lines::meaning))]
fn memory_limit(size: &[u8]) -> Result<Line, Cause>
    ensures { result ≡ line_by (limit_form size.now) }
{
    let pages = pages(size)?;
    if pages <= MOST_LIMIT_PAGES {
        Ok(Line::Attribute(Attr::LimitPages(pages)))
    } else {
        Err(Cause::Range)
    }
}

#[tactic(auto, unfolding(crate::specs::Lines::is_malformed, crate::specs::Lines::meaning))]
fn backing(word: &[u8]) -> Result<Line, Cause>
    ensures { result ≡ line_by (backing_form word.now) }
{
    let blocks = number(word)?;
    if 1 <= blocks && blocks <= MOST_BLOCKS as u64 {
        Ok(Line::Attribute(Attr::Backing(blocks as u32)))
    } else {
        Err(Cause::Range)
    }
}

#[tactic(auto, unfolding(crate::specs::Lines::is_malformed, crate::specs::Lines::meaning))]
fn budget(word: &[u8]) -> Result<Line, Cause>
    ensures { result ≡ line_by (budget_form word.now) }
{
    let units = number(word)?;
    if units <= MOST_BUDGET {
        Ok(Line::Attribute(Attr::WritebackLimit(units)))
    } else {
        Err(Cause::Range)
    }
}

#[tactic(auto, unfolding(crate::specs::Lines::is_malformed, crate::specs::Lines::meaning))]
fn budgeted(word: &[u8]) -> Result<Line, Cause>
    ensures { result ≡ line_by (budgeted_form word.now) }
{
    let on = number(word)?;
    if on <= 1 {
        Ok(Line::Attribute(Attr::WritebackLimitEnable(on == 1)))
    } else {
        Err(Cause::Range)
    }
}

#[tactic(auto, unfolding(crate::specs::Lines::is_malformed, crate::specs::Lines::meaning))]
fn clock(word: &[u8]) -> Result<Line, Cause>
    ensures { result ≡ line_by (clock_form word.now) }
{
    Ok(Line::Attribute(Attr::Clock(exact(word)?)))
}

#[tactic(auto, unfolding(crate::specs::Lines::is_malformed, crate::specs::Lines::meaning))]
fn lowered_max(word: &[u8]) -> Result<Line, Cause>
    ensures { result ≡ line_by (max_form word.now) }
{
    if number(word)? == 0 {
        Ok(Line::Attribute(Attr::LowerMax))
    } else {
        Err(Cause::Range)
    }
}

#[tactic(auto, unfolding(crate::specs::Lines::is_malformed, crate::specs::Lines::meaning))]
fn read(start: &[u8], count: &[u8]) -> Result<Line, Cause>
    ensures { result ≡ line_by (read_form start.now count.now) }
{
    let start = number(start)?;
    let count = number(count)?;
    let count = in_bounds(start, count)?;
    Ok(Line::Operation(Op::Read { start, count }))
}

#[tactic(auto, unfolding(crate::specs::Lines::is_malformed, crate::specs::Lines::meaning))]
fn discard(start: &[u8], count: &[u8]) -> Result<Line, Cause>
    ensures { result ≡ line_by (discard_form start.now count.now) }
{
    let start = number(start)?;
    let count = number(count)?;
    let count = in_bounds(start, count)?;
    Ok(Line::Operation(Op::Discard { start, count }))
}

#[tactic(auto, unfolding(crate::specs::Lines::is_malformed, crate::specs::Lines::meaning))]
fn idle_all() -> Result<Line, Cause>
    ensures { result ≡ line_by idle_all_form }
{
    Ok(Line::Operation(Op::Idle { age: None }))
}

#[tactic(auto, unfolding(crate::specs::Lines::is_malformed, crate::specs::Lines::meaning))]
fn idle(word: &[u8]) -> Result<Line, Cause>
    ensures { result ≡ line_by (idle_form word.now) }
{
    let age = Some(exact(word)?);
    Ok(Line::Operation(Op::Idle { age }))
}

#[tactic(auto, unfolding(crate::specs::Lines::idle_with))]
fn idle_by(word: &[u8]) -> Result<Line, Cause>
    ensures { result ≡ line_by (idle_with word.now) }
{
    if word == b"all".as_slice() {
        idle_all()
    } else {
        idle(word)
    }
}

#[tactic(auto, unfolding(crate::specs::Lines::is_malformed, crate::specs::Lines::meaning))]
fn fill(start: &[u8], count: &[u8], word: &[u8]) -> Result<Line, Cause>
    ensures { result ≡ line_by (fill_form start.now count.now word.now) }
{
    let start = number(start)?;
    let count = number(count)?;
    let stuff = Stuff::Fill(word64(word)?);
    let count = in_bounds(start, count)?;
    Ok(Line::Operation(Op::Write {
        start,
        count,
        stuff,
    }))
}

#[tactic(auto, unfolding(crate::specs::Lines::is_malformed, crate::specs::Lines::meaning))]
fn seq(start: &[u8], count: &[u8], base: &[u8], step: &[u8]) -> Result<Line, Cause>
    ensures { result ≡ line_by (seq_form start.now count.now base.now step.now) }
{
    let start = number(start)?;
    let count = number(count)?;
    let base = word64(base)?;
    let step = word64(step)?;
    let count = in_bounds(start, count)?;
    let stuff = Stuff::Seq { base, step };
    Ok(Line::Operation(Op::Write {
        start,
        count,
        stuff,
    }))
}

#[tactic(auto, unfolding(crate::specs::Lines::is_malformed, crate::specs::Lines::meaning))]
fn hex(alloc: Global, start: &[u8], count: &[u8], words: &[&[u8]]) -> Result<Line, NotTaken>
    ensures { Answers (line_by (hex_form start.now count.now
        (map (λ word. word.now) words.now))) result }
{
    let start = number(start)?;
    let count = number(count)?;
    let digits = joined(alloc, words)?;
    if !are_hex(&digits) || !fills(digits.len(), count) {
        return Err(NotTaken::Faulty(Cause::Number));
    }
    let count = in_bounds(start, count)?;
    let stuff = Stuff::Hex(bytes(alloc, &digits)?);
    Ok(Line::Operation(Op::Write {
        start,
        count,
        stuff,
    }))
}

#[tactic(auto, unfolding(crate::specs::Lines::is_malformed, crate::specs::Lines::meaning))]
fn schedule(alloc: Global, words: &[&[u8]]) -> Result<Line, NotTaken>
    ensures { Answers (line_by (schedule_form (map (λ word. word.now) words.now))) result }
{
    if !are_turns(words) {
        return Err(NotTaken::Faulty(Cause::Number));
    }
    Ok(Line::Schedule(turns(alloc, words)?))
}

#[tactic(auto, unfolding(crate::specs::Lines::is_malformed, crate::specs::Lines::meaning))]
fn actor_line(words: &[&[u8]]) -> Result<Line, NotTaken>
    ensures { Answers (line_with (alone actor_form (map (λ word. word.now) words.now))) result }
{
    match words {
        [] => Ok(Line::Actor),
        _ => Err(NotTaken::Faulty(Cause::Word)),
    }
}

#[tactic(auto, unfolding(crate::specs::Lines::is_malformed, crate::specs::Lines::meaning))]
fn run_line(words: &[&[u8]]) -> Result<Line, NotTaken>
    ensures { Answers (line_with (alone run_form (map (λ word. word.now) words.now))) result }
{
    match words {
        [] => Ok(Line::Run),
        _ => Err(NotTaken::Faulty(Cause::Word)),
    }
}

#[tactic(auto, unfolding(crate::specs::Lines::is_malformed, crate::specs::Lines::meaning))]
fn compact_line(words: &[&[u8]]) -> Result<Line, NotTaken>
    ensures { Answers (line_with (alone compact_form (map (λ word. word.now) words.now))) result }
{
    match words {
        [] => Ok(Line::Operation(Op::Compact)),
        _ => Err(NotTaken::Faulty(Cause::Word)),
    }
}

fn disk_line(words: &[&[u8]]) -> Result<Line, NotTaken>
    ensures { Answers (line_with (with_word disk_form (map (λ word. word.now) words.now))) result }
{
    match words {
        [size] => Ok(disk_size(size)?),
        _ => Err(NotTaken::Faulty(Cause::Word)),
    }
}

fn limit_line(words: &[&[u8]]) -> Result<Line, NotTaken>
    ensures { Answers (line_with (with_word limit_form (map (λ word. word.now) words.now))) result }
{
    match words {
        [size] => Ok(memory_limit(size)?),
        _ => Err(NotTaken::Faulty(Cause::Word)),
    }
}

fn backing_line(words: &[&[u8]]) -> Result<Line, NotTaken>
    ensures { Answers (line_with (with_word backing_form (map (λ word. word.now) words.now)))
        result }
{
    match words {
        [word] => Ok(backing(word)?),
        _ => Err(NotTaken::Faulty(Cause::Word)),
    }
}

fn budget_line(words: &[&[u8]]) -> Result<Line, NotTaken>
    ensures { Answers (line_with (with_word budget_form (map (λ word. word.now) words.now)))
        result }
{
    match words {
        [word] => Ok(budget(word)?),
        _ => Err(NotTaken::Faulty(Cause::Word)),
    }
}

fn budgeted_line(words: &[&[u8]]) -> Result<Line, NotTaken>
    ensures { Answers (line_with (with_word budgeted_form (map (λ word. word.now) words.now)))
        result }
{
    match words {
        [word] => Ok(budgeted(word)?),
        _ => Err(NotTaken::Faulty(Cause::Word)),
    }
}

fn clock_line(words: &[&[u8]]) -> Result<Line, NotTaken>
    ensures { Answers (line_with (with_word clock_form (map (λ word. word.now) words.now))) result }
{
    match words {
        [word] => Ok(clock(word)?),
        _ => Err(NotTaken::Faulty(Cause::Word)),
    }
}

fn max_line(words: &[&[u8]]) -> Result<Line, NotTaken>
    ensures { Answers (line_with (with_word max_form (map (λ word. word.now) words.now))) result }
{
    match words {
        [word] => Ok(lowered_max(word)?),
        _ => Err(NotTaken::Faulty(Cause::Word)),
    }
}

fn report(name: &[u8]) -> Option<Report>
    ensures { result ≡ report_named name.now }
{
    if name == b"mm_stat".as_slice() {
        Some(Report::MmStat)
    } else if name == b"io_stat".as_slice() {
        Some(Report::IoStat)
    } else if name == b"bd_stat".as_slice() {
        Some(Report::BdStat)
    } else if name == b"states".as_slice() {
        Some(Report::States)
    } else if name == b"classes".as_slice() {
        Some(Report::Classes)
    } else {
        None
    }
}

#[tactic(auto, unfolding(crate::specs::Lines::is_malformed, crate::specs::Lines::meaning))]
fn report_line(report: Option<Report>, words: &[&[u8]]) -> Result<Line, NotTaken>
    ensures { Answers (line_with (report_in report (map (λ word. word.now) words.now))) result }
{
    match (report, words) {
        (Some(report), []) => Ok(Line::Tell(report)),
        _ => Err(NotTaken::Faulty(Cause::Word)),
    }
}

fn read_line(words: &[&[u8]]) -> Result<Line, NotTaken>
    ensures { Answers (line_with (read_in (map (λ word. word.now) words.now))) result }
{
    match words {
        [start, count] => Ok(read(start, count)?),
        _ => Err(NotTaken::Faulty(Cause::Word)),
    }
}

fn discard_line(words: &[&[u8]]) -> Result<Line, NotTaken>
    ensures { Answers (line_with (discard_in (map (λ word. word.now) words.now))) result }
{
    match words {
        [start, count] => Ok(discard(start, count)?),
        _ => Err(NotTaken::Faulty(Cause::Word)),
    }
}

fn idle_line(words: &[&[u8]]) -> Result<Line, NotTaken>
    ensures { Answers (line_with (idle_in (map (λ word. word.now) words.now))) result }
{
    match words {
        [word] => Ok(idle_by(word)?),
        _ => Err(NotTaken::Faulty(Cause::Word)),
    }
}

fn mode(name: &[u8]) -> Option<Mode>
    ensures { result ≡ mode_named name.now }
{
    if name == b"idle".as_slice() {
        Some(Mode::Idle)
    } else if name == b"huge".as_slice() {
        Some(Mode::Huge)
    } else if name == b"huge_idle".as_slice() {
        Some(Mode::HugeIdle)
    } else {
        None
    }
}

#[tactic(auto, unfolding(crate::specs::Lines::is_malformed, crate::specs::Lines::meaning))]
fn writeback(mode: Option<Mode>) -> Result<Line, NotTaken>
    ensures { Answers (line_with (writeback_with mode)) result }
{
    match mode {
        Some(mode) => Ok(Line::Operation(Op::Writeback { mode })),
        None => Err(NotTaken::Faulty(Cause::Word)),
    }
}

fn writeback_line(words: &[&[u8]]) -> Result<Line, NotTaken>
    ensures { Answers (line_with (writeback_in (map (λ word. word.now) words.now))) result }
{
    match words {
        [word] => writeback(mode(word)),
        _ => Err(NotTaken::Faulty(Cause::Word)),
    }
}

fn fill_line(start: &[u8], count: &[u8], words: &[&[u8]]) -> Result<Line, NotTaken>
    ensures { Answers (line_with (fill_in start.now count.now
        (map (λ word. word.now) words.now))) result }
{
    match words {
        [word] => Ok(fill(start, count, word)?),
        _ => Err(NotTaken::Faulty(Cause::Word)),
    }
}

fn seq_line(start: &[u8], count: &[u8], words: &[&[u8]]) -> Result<Line, NotTaken>
    ensures { Answers (line_with (seq_in start.now count.now
        (map (λ word. word.now) words.now))) result }
{
    match words {
        [base, step] => Ok(seq(start, count, base, step)?),
        _ => Err(NotTaken::Faulty(Cause::Word)),
    }
}

fn hex_line(alloc: Global, start: &[u8], count: &[u8], words: &[&[u8]]) -> Result<Line, NotTaken>
    ensures { Answers (line_with (hex_in start.now count.now
        (map (λ word. word.now) words.now))) result }
{
    match words {
        [] => Err(NotTaken::Faulty(Cause::Word)),
        _ => hex(alloc, start, count, words),
    }
}

#[tactic(auto, unfolding(crate::specs::Lines::stuff_in))]
fn stuff_line(
    alloc: Global,
    start: &[u8],
    count: &[u8],
    kind: &[u8],
    words: &[&[u8]],
) -> Result<Line, NotTaken>
    ensures { Answers (line_with (stuff_in start.now count.now kind.now
        (map (λ word. word.now) words.now))) result }
{
    if kind == b"fill".as_slice() {
        fill_line(start, count, words)
    } else if kind == b"seq".as_slice() {
        seq_line(start, count, words)
    } else if kind == b"hex".as_slice() {
        hex_line(alloc, start, count, words)
    } else {
        Err(NotTaken::Faulty(Cause::Word))
    }
}

fn write_line(alloc: Global, words: &[&[u8]]) -> Result<Line, NotTaken>
    ensures { Answers (line_with (write_in (map (λ word. word.now) words.now))) result }
{
    match words {
        [start, count, kind, rest @ ..] => stuff_line(alloc, start, count, kind, rest),
        _ => Err(NotTaken::Faulty(Cause::Word)),
    }
}

fn schedule_line(alloc: Global, words: &[&[u8]]) -> Result<Line, NotTaken>
    ensures { Answers (line_with (schedule_in (map (λ word. word.now) words.now))) result }
{
    match words {
        [] => Err(NotTaken::Faulty(Cause::Word)),
        _ => schedule(alloc, words),
    }
}

#[tactic(auto, unfolding(crate::specs::Lines::named_in))]
fn named_line(alloc: Global, name: &[u8], words: &[&[u8]]) -> Result<Line, NotTaken>
    ensures { Answers (line_with (named_in name.now (map (λ word. word.now) words.now))) result }
{
    if name == b"disksize".as_slice() {
        disk_line(words)
    } else if name == b"mem_limit".as_slice() {
        limit_line(words)
    } else if name == b"backing".as_slice() {
        backing_line(words)
    } else if name == b"writeback_limit".as_slice() {
        budget_line(words)
    } else if name == b"writeback_limit_enable".as_slice() {
        budgeted_line(words)
    } else if name == b"clock".as_slice() {
        clock_line(words)
    } else if name == b"mem_used_max".as_slice() {
        max_line(words)
    } else if name == b"actor".as_slice() {
        actor_line(words)
    } else if name == b"write".as_slice() {
        write_line(alloc, words)
    } else if name == b"read".as_slice() {
        read_line(words)
    } else if name == b"discard".as_slice() {
        discard_line(words)
    } else if name == b"idle".as_slice() {
        idle_line(words)
    } else if name == b"writeback".as_slice() {
        writeback_line(words)
    } else if name == b"compact".as_slice() {
        compact_line(words)
    } else if name == b"schedule".as_slice() {
        schedule_line(alloc, words)
    } else if name == b"run".as_slice() {
        run_line(words)
    } else {
        report_line(report(name), words)
    }
}

/// What a line of these words says.
#[tactic(auto, unfolding(crate::specs::Lines::is_malformed, crate::specs::Lines::meaning))]
pub(crate) fn line_by_words(alloc: Global, words: &[&[u8]]) -> Result<Line, NotTaken>
    ensures lawful { IfOk result IsInRange }
    ensures said { Answers (line_of (map (λ word. word.now) words.now)) result }
{
    match words {
        [] => Ok(Line::Blank),
        [name, rest @ ..] => named_line(alloc, name, rest),
    }
}
