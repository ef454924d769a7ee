//! The words of a line, read back.

ghost use Rattle.std.specs.Prelude.{◌≡◌, ◌+◌, ◌*◌, ◌++◌, [], ◌∷◌, nat_lt, length, map, Some, None, OnOk, IfOk, if◌then◌else◌};
ghost use Rattle.job_print.specs.Reading.{digit_in, bytes_in, tag_in, all_in, limit_in, limit_end_in, memory_end_in, eio_in, fault_end_in, pair_in, written_in, write_fault_in, four_end_in, cut_end_in, six_end_in, compacted_in, triple_end_in, marked_end_in, plain_end_in, end_in, letters_in, is_letter, cause_in, refusal_in};

use crate::find::find;
use crate::line::{Refusal, TagList};
use crate::number::{number, numbers, short};
use job_text::Cause;
use std::alloc::{AllocError, Global};
use zr_base::{List, OpEnd, Tag};

/// Puts an item last. Err says that memory was refused.
pub(crate) fn push<T: Drop>(list: &mut List<T>, item: T) -> Result<(), AllocError>
    ensures { OnOk result (list.new ≡ list.old ++ item ∷ []) }
{
    match list.push(item) {
        Ok(()) => Ok(()),
        Err(_) => Err(AllocError),
    }
}

// The value of a lower-case digit, and 255 of any other byte.
fn digit(c: u8) -> u8
    ensures { digit_in c ≡ (if nat_lt result 16 then Some result else None) }
{
    match c {
        b'0'..=b'9' => c - b'0',
        b'a'..=b'f' => c - 87,
        _ => 255,
    }
}

/// Bytes by two lower-case digits each. Whether all are digits is asked at the end, so that many
/// are read at once.
pub(crate) fn bytes(digits: &[u8], into: &mut [u8]) -> bool
    requires { length digits.now ≡ 2 * length into.old }
    ensures { bytes_in digits.now ≡ (if result then Some into.new else None) }
{
    let mut greatest: u8 = 0;
    for k in 0..into.len() {
        let high = digit(digits[2 * k]);
        let low = digit(digits[2 * k + 1]);
        greatest = greatest.max(high).max(low);
        into[k] = 16 * (high % 16) + low % 16;
    }
    greatest < 16
}

#[tactic(auto, unfolding(crate::specs::Reading::tag_in))]
fn tag(word: &[u8]) -> Option<Tag>
    ensures { result ≡ tag_in word.now }
{
    let colon = find(b':', word)?;
    let actor = short(&word[..colon])?;
    let op = short(&word[colon + 1..])?;
    Some(Tag { actor, op })
}

/// The calls of an order.
pub(crate) fn tags(alloc: Global, words: &[&[u8]]) -> Result<Option<TagList>, AllocError>
    ensures { IfOk result (λ o. o ≡ all_in tag_in (map (λ word. word.now) words.now)) }
{
    let mut tags = TagList::new(alloc);
    for word in words {
        let Some(tag) = tag(word) else {
            return Ok(None);
        };
        push(&mut tags, tag)?;
    }
    Ok(Some(tags))
}

fn at_limit(amounts: &[&[u8]; 3], done: &[u8]) -> Option<OpEnd>
    ensures { result ≡ limit_in (map (λ word. word.now) amounts.now) done.now }
{
    let mut ns = [0; 3];
    if !numbers(amounts, &mut ns) {
        return None;
    }
    let done = short(done)?;
    Some(OpEnd::AtLimit {
        pages: ns[0],
        need: ns[1],
        limit: ns[2],
        done,
    })
}

#[tactic(auto, unfolding(crate::specs::Reading::limit_end_in))]
fn limit_end(word: &[u8], amounts: &[&[u8]; 3], name: &[u8], done: &[u8]) -> Option<OpEnd>
    ensures { result ≡ limit_end_in word.now (map (λ word. word.now) amounts.now) name.now
        done.now }
{
    if word == b"limit".as_slice() && name == b"done".as_slice() {
        at_limit(amounts, done)
    } else {
        None
    }
}

#[tactic(auto, unfolding(crate::specs::Reading::memory_end_in))]
fn memory_end(word: &[u8], name: &[u8], done: &[u8]) -> Option<OpEnd>
    ensures { result ≡ memory_end_in word.now name.now done.now }
{
    if word == b"nomem".as_slice() && name == b"done".as_slice() {
        let done = short(done)?;
        Some(OpEnd::NoMemory { done })
    } else {
        None
    }
}

fn eio(fault: &[u8], done: &[u8]) -> Option<OpEnd>
    ensures { result ≡ eio_in fault.now done.now }
{
    let fault = number(fault)?;
    let done = short(done)?;
    Some(OpEnd::Eio { fault, done })
}

#[tactic(auto, unfolding(crate::specs::Reading::fault_end_in))]
fn fault_end(fault: &[u8], name: &[u8], done: &[u8]) -> Option<OpEnd>
    ensures { result ≡ fault_end_in fault.now name.now done.now }
{
    if name == b"done".as_slice() {
        eio(fault, done)
    } else {
        None
    }
}

// Two numbers of 4 bytes.
fn pair(first: &[u8], second: &[u8]) -> Option<(u32, u32)>
    ensures { result ≡ pair_in first.now second.now }
{
    let first = short(first)?;
    let second = short(second)?;
    Some((first, second))
}

// How many pages a writeback left on the device, and how many it wrote in vain.
#[tactic(auto, unfolding(crate::specs::Reading::written_in))]
fn written(name: &[u8], wrote: &[u8], other: &[u8], lost: &[u8]) -> Option<(u32, u32)>
    ensures { result ≡ written_in name.now wrote.now other.now lost.now }
{
    if name == b"wrote".as_slice() && other == b"lost".as_slice() {
        pair(wrote, lost)
    } else {
        None
    }
}

fn write_fault(fault: &[u8], name: &[u8], wrote: &[u8], other: &[u8], lost: &[u8]) -> Option<OpEnd>
    ensures { result ≡ write_fault_in fault.now name.now wrote.now other.now lost.now }
{
    let fault = number(fault)?;
    let (wrote, lost) = written(name, wrote, other, lost)?;
    Some(OpEnd::WriteEio { fault, wrote, lost })
}

#[tactic(auto, unfolding(crate::specs::Reading::four_end_in))]
fn four_end(word: &[u8], second: &[u8], third: &[u8], fourth: &[u8]) -> Option<OpEnd>
    ensures { result ≡ four_end_in word.now second.now third.now fourth.now }
{
    if word == b"eio".as_slice() {
        return fault_end(second, third, fourth);
    }
    let (wrote, lost) = written(word, second, third, fourth)?;
    Some(OpEnd::Written { wrote, lost })
}

#[tactic(auto, unfolding(crate::specs::Reading::cut_end_in))]
fn cut_end(word: &[u8], name: &[u8], wrote: &[u8], other: &[u8], lost: &[u8]) -> Option<OpEnd>
    ensures { result ≡ cut_end_in word.now name.now wrote.now other.now lost.now }
{
    if word == b"budget".as_slice() {
        let (wrote, lost) = written(name, wrote, other, lost)?;
        Some(OpEnd::Budget { wrote, lost })
    } else if word == b"noblock".as_slice() {
        let (wrote, lost) = written(name, wrote, other, lost)?;
        Some(OpEnd::NoBlock { wrote, lost })
    } else {
        None
    }
}

#[tactic(auto, unfolding(crate::specs::Reading::six_end_in))]
fn six_end(
    word: &[u8],
    second: &[u8],
    third: &[u8],
    fourth: &[u8],
    fifth: &[u8],
    sixth: &[u8],
) -> Option<OpEnd>
    ensures { result ≡ six_end_in word.now second.now third.now fourth.now fifth.now sixth.now }
{
    if word == b"eio".as_slice() {
        write_fault(second, third, fourth, fifth, sixth)
    } else {
        limit_end(word, &[second, third, fourth], fifth, sixth)
    }
}

fn compacted(moves: &[u8], frames: &[u8]) -> Option<OpEnd>
    ensures { result ≡ compacted_in moves.now frames.now }
{
    let moves = number(moves)?;
    let frames = number(frames)?;
    Some(OpEnd::Compacted { moves, frames })
}

#[tactic(auto, unfolding(crate::specs::Reading::triple_end_in))]
fn triple_end(word: &[u8], second: &[u8], third: &[u8]) -> Option<OpEnd>
    ensures { result ≡ triple_end_in word.now second.now third.now }
{
    if word == b"compacted".as_slice() {
        compacted(second, third)
    } else {
        memory_end(word, second, third)
    }
}

#[tactic(auto, unfolding(crate::specs::Reading::plain_end_in))]
fn plain_end(word: &[u8]) -> Option<OpEnd>
    ensures { result ≡ plain_end_in word.now }
{
    if word == b"ok".as_slice() {
        Some(OpEnd::Ok)
    } else if word == b"range".as_slice() {
        Some(OpEnd::Range)
    } else if word == b"nobacking".as_slice() {
        Some(OpEnd::NoBacking)
    } else {
        None
    }
}

#[tactic(auto, unfolding(crate::specs::Reading::marked_end_in))]
fn marked_end(word: &[u8], pages: &[u8]) -> Option<OpEnd>
    ensures { result ≡ marked_end_in word.now pages.now }
{
    if word == b"marked".as_slice() {
        Some(OpEnd::Marked(short(pages)?))
    } else {
        None
    }
}

/// The end of an operation.
#[tactic(auto, unfolding(crate::specs::Reading::end_in))]
pub(crate) fn end(words: &[&[u8]]) -> Option<OpEnd>
    ensures { result ≡ end_in (map (λ word. word.now) words.now) }
{
    match words {
        [word] => plain_end(word),
        [word, pages] => marked_end(word, pages),
        [word, second, third] => triple_end(word, second, third),
        [word, second, third, fourth] => four_end(word, second, third, fourth),
        [word, name, wrote, other, lost] => cut_end(word, name, wrote, other, lost),
        [word, second, third, fourth, fifth, sixth] => {
            six_end(word, second, third, fourth, fifth, sixth)
        }
        _ => None,
    }
}

fn is_letter(letter: u8, c: u8) -> bool
    ensures { result ≡ is_letter letter c }
{
    c == letter || c == b'.'
}

/// The letters of a page.
#[tactic(auto, unfolding(crate::specs::Reading::letters_in))]
pub(crate) fn letters(word: &[u8]) -> Option<[u8; 4]>
    ensures { result ≡ letters_in word.now }
{
    match word {
        [s, w, h, i]
            if is_letter(b's', *s)
                && is_letter(b'w', *w)
                && is_letter(b'h', *h)
                && is_letter(b'i', *i) => { Some([*s, *w, *h, *i]) }
        _ => None,
    }
}

/// The cause of a fault.
#[tactic(auto, unfolding(crate::specs::Reading::cause_in))]
pub(crate) fn cause(word: &[u8]) -> Option<Cause>
    ensures { result ≡ cause_in word.now }
{
    if word == b"word".as_slice() {
        Some(Cause::Word)
    } else if word == b"number".as_slice() {
        Some(Cause::Number)
    } else if word == b"range".as_slice() {
        Some(Cause::Range)
    } else if word == b"nodisk".as_slice() {
        Some(Cause::NoDisk)
    } else if word == b"toomany".as_slice() {
        Some(Cause::TooMany)
    } else if word == b"order".as_slice() {
        Some(Cause::Order)
    } else {
        None
    }
}

/// Why an attribute was refused.
#[tactic(auto, unfolding(crate::specs::Reading::refusal_in))]
pub(crate) fn refusal(attr: &[u8], why: &[u8]) -> Option<Refusal>
    ensures { result ≡ refusal_in attr.now why.now }
{
    if attr == b"disksize".as_slice() && why == b"busy".as_slice() {
        Some(Refusal::DisksizeBusy)
    } else if attr == b"backing".as_slice() && why == b"busy".as_slice() {
        Some(Refusal::BackingBusy)
    } else if attr == b"backing".as_slice() && why == b"range".as_slice() {
        Some(Refusal::BackingRange)
    } else {
        None
    }
}
