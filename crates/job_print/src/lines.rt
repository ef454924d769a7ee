//! Lines, read back.

ghost use Rattle.std.specs.Prelude.{◌≡◌, ◌==◌, [], ◌∷◌, length, map, IfOk};
ghost use Rattle.std.specs.List.{slice_split};
ghost use Rattle.job_print.specs.Reading.{op_in, word_in, fill_in, sector_in, class_number_in, hex_in, order_in, memory_in, calls_in, device_in, refused_in, state_in, are_names, numbered_class, class_in, fault_in, is_run, is_gen, usage_in, named_in, line_in};

use crate::find::find;
use crate::line::OutLine;
use crate::number::{number, numbers, short, shorts};
use crate::put::is_filled;
use crate::words::{bytes, cause, end, letters, push, refusal, tags};
use backing_dev::BdStat;
use job_text::JobFault;
use mem_account::{IoStat, MmStat};
use size_class::ClassStat;
use std::alloc::{AllocError, Global};
use zr_base::Bytes;

#[tactic(auto, unfolding(crate::specs::Reading::op_in))]
fn op_line(words: &[&[u8]]) -> Option<OutLine>
    ensures { result ≡ op_in (map (λ word. word.now) words.now) }
{
    match words {
        [actor, op, words @ ..] => {
            let actor = short(actor)?;
            let op = short(op)?;
            let end = end(words)?;
            Some(OutLine::Op { actor, op, end })
        }
        _ => None,
    }
}

fn word(digits: &[u8]) -> Option<u64>
    ensures { result ≡ word_in digits.now }
{
    if digits.len() != 16 {
        return None;
    }
    let mut word = [0; 8];
    if !bytes(digits, &mut word) {
        return None;
    }
    Some(u64::from_be_bytes(word))
}

#[tactic(auto, unfolding(crate::specs::Reading::fill_in))]
fn fill_line(words: &[&[u8]]) -> Option<OutLine>
    ensures { result ≡ fill_in (map (λ word. word.now) words.now) }
{
    match words {
        [digits] => Some(OutLine::Fill(word(digits)?)),
        _ => None,
    }
}

fn list(alloc: Global, bytes: &[u8]) -> Result<Bytes, AllocError>
    ensures { IfOk result (λ list. list ≡ bytes.now) }
{
    let mut list = Bytes::new(alloc);
    for byte in bytes {
        push(&mut list, *byte)?;
    }
    Ok(list)
}

// A sector by its digits.
fn sector(alloc: Global, digits: &[u8]) -> Result<Option<OutLine>, AllocError>
    ensures { IfOk result (λ o. o ≡ sector_in digits.now) }
{
    if digits.len() != 1024 {
        return Ok(None);
    }
    let mut sector = [0; 512];
    if !bytes(digits, &mut sector) || is_filled(&sector) {
        return Ok(None);
    }
    Ok(Some(OutLine::Hex(list(alloc, &sector)?)))
}

#[tactic(auto, unfolding(crate::specs::Reading::hex_in))]
fn hex_line(alloc: Global, words: &[&[u8]]) -> Result<Option<OutLine>, AllocError>
    ensures { IfOk result (λ o. o ≡ hex_in (map (λ word. word.now) words.now)) }
{
    match words {
        [] => Ok(None),
        [digits] => sector(alloc, digits),
        [_, _, ..] => Ok(None),
    }
}

#[tactic(auto, unfolding(crate::specs::Reading::order_in))]
fn order_line(alloc: Global, words: &[&[u8]]) -> Result<Option<OutLine>, AllocError>
    ensures { IfOk result (λ o. o ≡ order_in (map (λ word. word.now) words.now)) }
{
    match words {
        [] | [_] => Ok(None),
        [page, words @ ..] => {
            let Some(page) = short(page) else {
                return Ok(None);
            };
            let Some(tags) = tags(alloc, words)? else {
                return Ok(None);
            };
            Ok(Some(OutLine::Order { page, tags }))
        }
    }
}

#[tactic(auto, unfolding(crate::specs::Reading::memory_in))]
fn memory_line(words: &[&[u8]]) -> Option<OutLine>
    ensures { result ≡ memory_in (map (λ word. word.now) words.now) }
{
    if words.len() != 9 {
        return None;
    }
    let mut ns = [0; 9];
    if !numbers(words, &mut ns) {
        return None;
    }
    Some(OutLine::Mm(MmStat {
        orig: ns[0],
        compr: ns[1],
        used: ns[2],
        limit: ns[3],
        max: ns[4],
        same: ns[5],
        compacted: ns[6],
        huge: ns[7],
        huge_since: ns[8],
    }))
}

#[tactic(auto, unfolding(crate::specs::Reading::calls_in))]
fn calls_line(words: &[&[u8]]) -> Option<OutLine>
    ensures { result ≡ calls_in (map (λ word. word.now) words.now) }
{
    if words.len() != 4 {
        return None;
    }
    let mut ns = [0; 4];
    if !numbers(words, &mut ns) {
        return None;
    }
    Some(OutLine::Io(IoStat {
        failed_reads: ns[0],
        failed_writes: ns[1],
        invalid_io: ns[2],
        notify_free: ns[3],
    }))
}

#[tactic(auto, unfolding(crate::specs::Reading::device_in))]
fn device_line(words: &[&[u8]]) -> Option<OutLine>
    ensures { result ≡ device_in (map (λ word. word.now) words.now) }
{
    if words.len() != 3 {
        return None;
    }
    let mut ns = [0; 3];
    if !numbers(words, &mut ns) {
        return None;
    }
    Some(OutLine::Bd(BdStat {
        count: ns[0],
        reads: ns[1],
        writes: ns[2],
    }))
}

#[tactic(auto, unfolding(crate::specs::Reading::refused_in))]
fn refused_line(words: &[&[u8]]) -> Option<OutLine>
    ensures { result ≡ refused_in (map (λ word. word.now) words.now) }
{
    match words {
        [attr, why] => Some(OutLine::Refused(refusal(attr, why)?)),
        _ => None,
    }
}

#[tactic(auto, unfolding(crate::specs::Reading::state_in))]
fn state_line(words: &[&[u8]]) -> Option<OutLine>
    ensures { result ≡ state_in (map (λ word. word.now) words.now) }
{
    match words {
        [page, word, touched] => {
            let page = short(page)?;
            let letters = letters(word)?;
            let touched = number(touched)?;
            Some(OutLine::State {
                page,
                letters,
                touched,
            })
        }
        _ => None,
    }
}

fn class_number(word: &[u8]) -> Option<u8>
    ensures { result ≡ class_number_in word.now }
{
    let n = number(word)?;
    if n < 256 { Some(n as u8) } else { None }
}

#[tactic(auto, unfolding(crate::specs::Reading::numbered_class))]
fn numbered_class(class: &[u8], words: &[&[u8]; 5], counts: &[&[u8]]) -> Option<OutLine>
    requires { length counts.now ≡ 11 }
    ensures { result ≡ numbered_class class.now (map (λ word. word.now) words.now)
        (map (λ word. word.now) counts.now) }
{
    let class = class_number(class)?;
    let mut ns = [0; 5];
    if !shorts(words, &mut ns) {
        return None;
    }
    let mut groups = [0; 11];
    if !shorts(counts, &mut groups) {
        return None;
    }
    Some(OutLine::Class(ClassStat {
        class,
        size: ns[0],
        chain: ns[1],
        per: ns[2],
        used: ns[3],
        zspages: ns[4],
        groups,
    }))
}

fn are_names(pages: &[u8], per: &[u8], used: &[u8], zspages: &[u8], groups: &[u8]) -> bool
    ensures { result ≡ are_names pages.now per.now used.now zspages.now groups.now }
{
    pages == b"pages".as_slice()
        && per == b"per".as_slice()
        && used == b"used".as_slice()
        && zspages == b"zspages".as_slice()
        && groups == b"groups".as_slice()
}

#[tactic(auto, unfolding(crate::specs::Reading::class_in))]
fn class_line(words: &[&[u8]]) -> Option<OutLine>
    ensures { result ≡ class_in (map (λ word. word.now) words.now) }
{
    match words {
        [
            class,
            size,
            a,
            chain,
            b,
            per,
            c,
            used,
            d,
            zspages,
            e,
            counts @ ..,
        ] => {
            if counts.len() != 11 || !are_names(a, b, c, d, e) {
                return None;
            }
            numbered_class(class, &[*size, *chain, *per, *used, *zspages], counts)
        }
        _ => None,
    }
}

#[tactic(auto, unfolding(crate::specs::Reading::fault_in))]
fn fault_line(words: &[&[u8]]) -> Option<OutLine>
    ensures { result ≡ fault_in (map (λ word. word.now) words.now) }
{
    match words {
        [line, word] => {
            let line = short(line)?;
            let cause = cause(word)?;
            Some(OutLine::Job(JobFault { line, cause }))
        }
        _ => None,
    }
}

fn is_run(program: &[u8], word: &[u8]) -> bool
    ensures { result ≡ is_run program.now word.now }
{
    program == b"zramsim".as_slice() && word == b"run".as_slice()
}

fn is_gen(bar: &[u8], program: &[u8], word: &[u8], pages: &[u8], seed: &[u8]) -> bool
    ensures { result ≡ is_gen bar.now program.now word.now pages.now seed.now }
{
    bar == b"|".as_slice()
        && program == b"zramsim".as_slice()
        && word == b"gen".as_slice()
        && pages == b"PAGES".as_slice()
        && seed == b"SEED".as_slice()
}

#[tactic(auto, unfolding(crate::specs::Reading::usage_in))]
fn usage_line(words: &[&[u8]]) -> Option<OutLine>
    ensures { result ≡ usage_in (map (λ word. word.now) words.now) }
{
    match words {
        [program, word, bar, again, other, pages, seed] => {
            if is_run(program, word) && is_gen(bar, again, other, pages, seed) {
                Some(OutLine::Usage)
            } else {
                None
            }
        }
        _ => None,
    }
}

#[tactic(auto, unfolding(crate::specs::Reading::named_in))]
fn named_line(alloc: Global, name: &[u8], words: &[&[u8]]) -> Result<Option<OutLine>, AllocError>
    ensures { IfOk result (λ o. o ≡ named_in name.now (map (λ word. word.now) words.now)) }
{
    if name == b"fill".as_slice() {
        Ok(fill_line(words))
    } else if name == b"hex".as_slice() {
        hex_line(alloc, words)
    } else if name == b"op".as_slice() {
        Ok(op_line(words))
    } else if name == b"order".as_slice() {
        order_line(alloc, words)
    } else if name == b"state".as_slice() {
        Ok(state_line(words))
    } else if name == b"class".as_slice() {
        Ok(class_line(words))
    } else if name == b"mm_stat".as_slice() {
        Ok(memory_line(words))
    } else if name == b"io_stat".as_slice() {
        Ok(calls_line(words))
    } else if name == b"bd_stat".as_slice() {
        Ok(device_line(words))
    } else if name == b"attr".as_slice() {
        Ok(refused_line(words))
    } else if name == b"job".as_slice() {
        Ok(fault_line(words))
    } else if name == b"usage:".as_slice() {
        Ok(usage_line(words))
    } else {
        Ok(None)
    }
}

// The words of a line, between single spaces.
fn words(alloc: Global, line: &[u8]) -> Result<Vec<&[u8]>, AllocError>
    ensures { IfOk result (λ v. map (λ word. word.now) v.items
        ≡ slice_split (λ c. c == 32) line.now) }
{
    let mut words = Vec::new(alloc);
    let mut rest = line;
    while let Some(at) = find(b' ', rest) {
        words.push(&rest[..at])?;
        rest = &rest[at + 1..];
    }
    words.push(rest)?;
    Ok(words)
}

/// What a line is, without the byte that ends it.
#[tactic(auto, unfolding(crate::specs::Reading::line_in))]
pub(crate) fn line(alloc: Global, line: &[u8]) -> Result<Option<OutLine>, AllocError>
    ensures { IfOk result (λ o. o ≡ line_in line.now) }
{
    let words = words(alloc, line)?;
    match words.as_slice() {
        [] => Ok(None),
        [name, rest @ ..] => named_line(alloc, name, rest),
    }
}
