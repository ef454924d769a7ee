//! The text of each line, put behind other text.

ghost use Rattle.std.specs.Prelude.{◌≡◌, ℕ, ◌*◌, ◌≤◌, ◌++◌, [], ◌∷◌, length, map, codes, OnOk};
ghost use Rattle.std.specs.List.{flat_map};
ghost use Rattle.std.specs.Fmt.{decimal};
ghost use Rattle.plain_disk.specs.Output.{sector, ClassLine, StateLine, memory, calls, device_calls, refused, state, class_of, op_lines, order_line};
ghost use Rattle.job_print.specs.Texts.{hex_byte, word_digits, tag_word, written_words, end_words, cell_words, use_words, cause_word, refusal_words, why_of, spaced, out_line, is_filled, sector_line, shown, line_text, text, fault_text, usage_text, IsStateOf, IsSummary};
ghost use Rattle.job_print.specs.declared.line.OutLine.TheVariants as lines;

use crate::hex::set_hex;
use crate::line::Refusal;
use crate::number::put_number;
use backing_dev::BdStat;
use job_text::{Cause, JobFault};
use mem_account::{IoStat, MmStat};
use size_class::ClassStat;
use std::alloc::AllocError;
use zr_base::{OpEnd, Tag};

// The bytes as two lower-case digits each.
fn put_hex(out: &mut Vec<u8>, bytes: &[u8]) -> Result<(), AllocError>
    ensures { OnOk result (out.new.items ≡ out.old.items ++ flat_map hex_byte bytes.now) }
{
    out.reserve(2 * bytes.len())?;
    let start = out.len();
    out.resize(start + 2 * bytes.len(), 0)?;
    set_hex(&mut out[start..], bytes);
    Ok(())
}

// A word after a space.
fn put_word(out: &mut Vec<u8>, word: &[u8]) -> Result<(), AllocError>
    ensures { OnOk result (out.new.items ≡ out.old.items ++ 32 ∷ word.now) }
{
    out.push(b' ')?;
    out.extend_from_slice(word)?;
    Ok(())
}

// A number after a space.
fn put_next(out: &mut Vec<u8>, n: u64) -> Result<(), AllocError>
    ensures { OnOk result (out.new.items ≡ out.old.items ++ 32 ∷ decimal n) }
{
    out.push(b' ')?;
    put_number(out, n)
}

// Numbers, each after a space.
fn put_numbers(out: &mut Vec<u8>, numbers: &[u64]) -> Result<(), AllocError>
    ensures { OnOk result (out.new.items ≡ out.old.items ++ spaced (map decimal numbers.now)) }
{
    for n in numbers {
        put_next(out, *n)?;
    }
    Ok(())
}

// A number after its name.
fn put_named(out: &mut Vec<u8>, name: &[u8], n: u32) -> Result<(), AllocError>
    ensures { OnOk result (out.new.items ≡ out.old.items ++ spaced (name.now ∷ decimal n ∷ [])) }
{
    put_word(out, name)?;
    put_next(out, u64::from(n))
}

// How many pages a writeback left on the device, and how many it wrote in vain.
fn put_written(out: &mut Vec<u8>, wrote: u32, lost: u32) -> Result<(), AllocError>
    ensures { OnOk result (out.new.items ≡ out.old.items ++ spaced (written_words wrote lost)) }
{
    put_named(out, b"wrote", wrote)?;
    put_named(out, b"lost", lost)
}

// The same after why it was cut short.
fn put_cut(out: &mut Vec<u8>, why: &[u8], wrote: u32, lost: u32) -> Result<(), AllocError>
    ensures { OnOk result (out.new.items
        ≡ out.old.items ++ spaced (why.now ∷ written_words wrote lost)) }
{
    put_word(out, why)?;
    put_written(out, wrote, lost)
}

// The device's count of faults.
fn put_eio(out: &mut Vec<u8>, fault: u64) -> Result<(), AllocError>
    ensures { OnOk result (out.new.items
        ≡ out.old.items ++ spaced (codes "eio" ∷ decimal fault ∷ [])) }
{
    put_word(out, b"eio")?;
    put_next(out, fault)
}

// The words of an operation's end, each after a space.
fn put_end(out: &mut Vec<u8>, end: OpEnd) -> Result<(), AllocError>
    ensures { OnOk result (out.new.items ≡ out.old.items ++ spaced (end_words end)) }
{
    match end {
        OpEnd::Ok => put_word(out, b"ok"),
        OpEnd::Range => put_word(out, b"range"),
        OpEnd::AtLimit {
            pages,
            need,
            limit,
            done,
        } => {
            put_word(out, b"limit")?;
            put_numbers(out, &[pages, need, limit])?;
            put_named(out, b"done", done)
        }
        OpEnd::NoMemory { done } => {
            put_word(out, b"nomem")?;
            put_named(out, b"done", done)
        }
        OpEnd::Eio { fault, done } => {
            put_eio(out, fault)?;
            put_named(out, b"done", done)
        }
        OpEnd::Marked(pages) => put_named(out, b"marked", pages),
        OpEnd::Written { wrote, lost } => put_written(out, wrote, lost),
        OpEnd::Budget { wrote, lost } => put_cut(out, b"budget", wrote, lost),
        OpEnd::NoBlock { wrote, lost } => put_cut(out, b"noblock", wrote, lost),
        OpEnd::NoBacking => put_word(out, b"nobacking"),
        OpEnd::WriteEio { fault, wrote, lost } => {
            put_eio(out, fault)?;
            put_written(out, wrote, lost)
        }
        OpEnd::Compacted { moves, frames } => {
            put_word(out, b"compacted")?;
            put_numbers(out, &[moves, frames])
        }
    }
}

/// The line of an operation's end.
#[tactic(auto, unfolding(crate::specs::Texts::name_of, crate::specs::Texts::words_of))]
pub(crate) fn put_ended(
    out: &mut Vec<u8>,
    actor: u32,
    op: u32,
    end: OpEnd,
) -> Result<(), AllocError>
    ensures { OnOk result (out.new.items ≡ out.old.items ++ out_line (lines.Op actor op end)) }
{
    out.extend_from_slice(b"op")?;
    put_next(out, u64::from(actor))?;
    put_next(out, u64::from(op))?;
    put_end(out, end)?;
    out.push(b'\n')?;
    Ok(())
}

// The sixteen digits of a word of 8 bytes.
fn put_word_digits(out: &mut Vec<u8>, word: u64) -> Result<(), AllocError>
    ensures { OnOk result (out.new.items ≡ out.old.items ++ word_digits word) }
{
    put_hex(out, &word.to_be_bytes())
}

/// The line of a sector whose words are all this one.
#[tactic(auto, unfolding(crate::specs::Texts::name_of, crate::specs::Texts::words_of))]
pub(crate) fn put_fill(out: &mut Vec<u8>, word: u64) -> Result<(), AllocError>
    ensures { OnOk result (out.new.items ≡ out.old.items ++ out_line (lines.Fill word)) }
{
    out.extend_from_slice(b"fill ")?;
    put_word_digits(out, word)?;
    out.push(b'\n')?;
    Ok(())
}

/// The line of a sector whose words differ.
#[tactic(auto, unfolding(crate::specs::Texts::name_of, crate::specs::Texts::words_of))]
pub(crate) fn put_bytes(out: &mut Vec<u8>, bytes: &[u8]) -> Result<(), AllocError>
    ensures { OnOk result (out.new.items ≡ out.old.items ++ out_line (lines.Hex bytes.now)) }
{
    out.extend_from_slice(b"hex ")?;
    put_hex(out, bytes)?;
    out.push(b'\n')?;
    Ok(())
}

/// Whether all words of a sector are equal.
pub(crate) fn is_filled(bytes: &[u8; 512]) -> bool
    ensures { result ≡ is_filled bytes.now }
{
    let (front, _) = bytes.split_at(504);
    let (_, rest) = bytes.split_at(8);
    rest == front
}

// The line of a sector that was read.
#[tactic(auto, unfolding(crate::specs::Texts::sector_line))]
fn put_sector(out: &mut Vec<u8>, bytes: &[u8; 512]) -> Result<(), AllocError>
    ensures { OnOk result (out.new.items ≡ out.old.items ++ line_text (sector bytes.now)) }
{
    if is_filled(bytes) {
        let mut first = [0; 8];
        first.copy_from_slice(&bytes[..8]);
        return put_fill(out, u64::from_le_bytes(first));
    }
    put_bytes(out, bytes)
}

// The lines of sectors that were read.
fn put_sectors(out: &mut Vec<u8>, told: &[[u8; 512]]) -> Result<(), AllocError>
    ensures { OnOk result (out.new.items ≡ out.old.items ++ text (map sector told.now)) }
{
    for bytes in told {
        put_sector(out, bytes)?;
    }
    Ok(())
}

/// The line of an operation's end, and the lines of the sectors that it read.
pub fn put_op(out: &mut Vec<u8>, tag: Tag, end: OpEnd, told: &[[u8; 512]]) -> Result<(), AllocError>
    ensures { OnOk result (out.new.items ≡ out.old.items ++ text (op_lines tag end told.now)) }
{
    put_ended(out, tag.actor, tag.op, end)?;
    put_sectors(out, told)
}

// A call of an order, after a space.
fn put_tag(out: &mut Vec<u8>, tag: Tag) -> Result<(), AllocError>
    ensures { OnOk result (out.new.items ≡ out.old.items ++ 32 ∷ tag_word tag) }
{
    put_next(out, u64::from(tag.actor))?;
    out.push(b':')?;
    put_number(out, u64::from(tag.op))
}

// The calls of an order, each after a space.
fn put_tags(out: &mut Vec<u8>, tags: &[Tag]) -> Result<(), AllocError>
    ensures { OnOk result (out.new.items ≡ out.old.items ++ spaced (map tag_word tags.now)) }
{
    for tag in tags {
        put_tag(out, *tag)?;
    }
    Ok(())
}

/// The line of a page's order.
#[tactic(auto, unfolding(crate::specs::Texts::name_of, crate::specs::Texts::words_of))]
pub(crate) fn put_ordered(out: &mut Vec<u8>, page: u32, order: &[Tag]) -> Result<(), AllocError>
    ensures { OnOk result (out.new.items ≡ out.old.items ++ out_line (lines.Order page order.now)) }
{
    out.extend_from_slice(b"order")?;
    put_next(out, u64::from(page))?;
    put_tags(out, order)?;
    out.push(b'\n')?;
    Ok(())
}

/// The line of a page's order, where some call stands in it.
pub fn put_order(out: &mut Vec<u8>, page: u32, order: &[Tag]) -> Result<(), AllocError>
    ensures { OnOk result (out.new.items ≡ out.old.items ++ text (order_line page order.now)) }
{
    if order.is_empty() {
        return Ok(());
    }
    put_ordered(out, page, order)
}

/// The line of the statistics of the memory.
#[tactic(auto, unfolding(crate::specs::Texts::name_of, crate::specs::Texts::words_of))]
pub fn put_memory(out: &mut Vec<u8>, stat: &MmStat) -> Result<(), AllocError>
    ensures { OnOk result (out.new.items ≡ out.old.items ++ line_text (memory stat.now)) }
{
    out.extend_from_slice(b"mm_stat")?;
    put_numbers(
        out,
        &[stat.orig, stat.compr, stat.used, stat.limit, stat.max],
    )?;
    put_numbers(
        out,
        &[stat.same, stat.compacted, stat.huge, stat.huge_since],
    )?;
    out.push(b'\n')?;
    Ok(())
}

/// The line of the statistics of what failed, was refused or was discarded.
#[tactic(auto, unfolding(crate::specs::Texts::name_of, crate::specs::Texts::words_of))]
pub fn put_calls(out: &mut Vec<u8>, stat: &IoStat) -> Result<(), AllocError>
    ensures { OnOk result (out.new.items ≡ out.old.items ++ line_text (calls stat.now)) }
{
    out.extend_from_slice(b"io_stat")?;
    put_numbers(out, &[stat.failed_reads, stat.failed_writes])?;
    put_numbers(out, &[stat.invalid_io, stat.notify_free])?;
    out.push(b'\n')?;
    Ok(())
}

/// The line of the statistics of the backing device.
#[tactic(auto, unfolding(crate::specs::Texts::name_of, crate::specs::Texts::words_of))]
pub fn put_device(out: &mut Vec<u8>, stat: &BdStat) -> Result<(), AllocError>
    ensures { OnOk result (out.new.items ≡ out.old.items ++ line_text (device_calls stat.now)) }
{
    out.extend_from_slice(b"bd_stat")?;
    put_numbers(out, &[stat.count, stat.reads, stat.writes])?;
    out.push(b'\n')?;
    Ok(())
}

fn refusal_text(refusal: Refusal) -> &'static [u8]
    ensures { result.now ≡ spaced (refusal_words refusal) }
{
    match refusal {
        Refusal::DisksizeBusy => b" disksize busy",
        Refusal::BackingBusy => b" backing busy",
        Refusal::BackingRange => b" backing range",
    }
}

// The line of an attribute that was refused so.
#[tactic(auto, unfolding(crate::specs::Texts::name_of, crate::specs::Texts::words_of))]
fn put_refusal(out: &mut Vec<u8>, refusal: Refusal) -> Result<(), AllocError>
    ensures { OnOk result (out.new.items ≡ out.old.items ++ out_line (lines.Refused refusal)) }
{
    out.extend_from_slice(b"attr")?;
    out.extend_from_slice(refusal_text(refusal))?;
    out.push(b'\n')?;
    Ok(())
}

/// The line of an attribute that was refused.
pub fn put_refused(out: &mut Vec<u8>, refusal: Refusal) -> Result<(), AllocError>
    ensures refusal { OnOk result (out.new.items ≡ out.old.items
        ++ out_line (lines.Refused refusal)) }
    ensures line { OnOk result (out.new.items ≡ out.old.items
        ++ line_text (refused (why_of refusal))) }
{
    put_refusal(out, refusal)
}

// The line of a page with these letters.
#[tactic(auto, unfolding(crate::specs::Texts::name_of, crate::specs::Texts::words_of))]
fn put_letters(
    out: &mut Vec<u8>,
    page: u32,
    letters: &[u8; 4],
    touched: u64,
) -> Result<(), AllocError>
    ensures { OnOk result (out.new.items ≡ out.old.items
        ++ out_line (lines.State page letters.now touched)) }
{
    out.extend_from_slice(b"state")?;
    put_next(out, u64::from(page))?;
    put_word(out, letters)?;
    put_next(out, touched)?;
    out.push(b'\n')?;
    Ok(())
}

/// The line of a page that isn't empty: its letters, and when it was touched.
pub fn put_state(
    out: &mut Vec<u8>,
    page: u32,
    letters: &[u8; 4],
    touched: u64,
) -> Result<(), AllocError>
    ensures letters { OnOk result (out.new.items ≡ out.old.items
        ++ out_line (lines.State page letters.now touched)) }
    ensures line { (s : StateLine) → IsStateOf s page letters.now touched
        → OnOk result (out.new.items ≡ out.old.items ++ line_text (state s)) }
{
    put_letters(out, page, letters, touched)
}

// How many zspages each fullness group has, each number after a space.
fn put_groups(out: &mut Vec<u8>, groups: &[u32; 11]) -> Result<(), AllocError>
    ensures { OnOk result (out.new.items ≡ out.old.items ++ spaced (map decimal groups.now)) }
{
    for n in groups {
        put_next(out, u64::from(*n))?;
    }
    Ok(())
}

// A class, its cells and its chains.
fn put_cells(out: &mut Vec<u8>, stat: &ClassStat) -> Result<(), AllocError>
    ensures { OnOk result (out.new.items ≡ out.old.items ++ spaced (cell_words stat.now)) }
{
    put_next(out, u64::from(stat.class))?;
    put_next(out, u64::from(stat.size))?;
    put_named(out, b"pages", stat.chain)?;
    put_named(out, b"per", stat.per)
}

// What of a class is used.
fn put_uses(out: &mut Vec<u8>, stat: &ClassStat) -> Result<(), AllocError>
    ensures { OnOk result (out.new.items ≡ out.old.items ++ spaced (use_words stat.now)) }
{
    put_named(out, b"used", stat.used)?;
    put_named(out, b"zspages", stat.zspages)?;
    put_word(out, b"groups")?;
    put_groups(out, &stat.groups)
}

// The line of a class with these statistics.
#[tactic(auto, unfolding(crate::specs::Texts::name_of, crate::specs::Texts::words_of))]
fn put_stat(out: &mut Vec<u8>, stat: &ClassStat) -> Result<(), AllocError>
    ensures { OnOk result (out.new.items ≡ out.old.items ++ out_line (lines.Class stat.now)) }
{
    out.extend_from_slice(b"class")?;
    put_cells(out, stat)?;
    put_uses(out, stat)?;
    out.push(b'\n')?;
    Ok(())
}

/// The line of a class that has zspages.
pub fn put_class(out: &mut Vec<u8>, stat: &ClassStat) -> Result<(), AllocError>
    ensures stat { OnOk result (out.new.items ≡ out.old.items ++ out_line (lines.Class stat.now)) }
    ensures line { (c : ClassLine) → IsSummary c stat.now
        → OnOk result (out.new.items ≡ out.old.items ++ line_text (class_of c)) }
{
    put_stat(out, stat)
}

fn cause_text(cause: Cause) -> &'static [u8]
    ensures { result.now ≡ cause_word cause }
{
    match cause {
        Cause::Word => b"word",
        Cause::Number => b"number",
        Cause::Range => b"range",
        Cause::NoDisk => b"nodisk",
        Cause::TooMany => b"toomany",
        Cause::Order => b"order",
    }
}

/// The line of a text that is no job.
#[tactic(auto, unfolding(crate::specs::Texts::name_of, crate::specs::Texts::words_of))]
pub fn put_fault(out: &mut Vec<u8>, fault: JobFault) -> Result<(), AllocError>
    ensures { OnOk result (out.new.items ≡ out.old.items ++ fault_text fault) }
{
    out.extend_from_slice(b"job")?;
    put_next(out, u64::from(fault.line))?;
    put_word(out, cause_text(fault.cause))?;
    out.push(b'\n')?;
    Ok(())
}

/// The usage line.
#[tactic(auto, unfolding(crate::specs::Texts::name_of, crate::specs::Texts::words_of))]
pub fn put_usage(out: &mut Vec<u8>) -> Result<(), AllocError>
    ensures { OnOk result (out.new.items ≡ out.old.items ++ usage_text) }
{
    out.extend_from_slice(b"usage: zramsim run | zramsim gen PAGES SEED\n")?;
    Ok(())
}
