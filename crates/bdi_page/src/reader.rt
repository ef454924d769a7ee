//! A packing is read into a page of its own, two lines at a time, and copied once it is whole.
//!
//! | Call | Bytes | A line's payload |
//! |---|---|---|
//! | `unpack` | any | decoded, and packed again: bytes that are no packing are refused |
//! | `decode` | known to be a page's packing | decoded, and nothing is checked |

ghost use Rattle.std.specs.Prelude.{◌≡◌, ◌+◌, ◌*◌, ◌<◌, ◌≤◌, ℕ, List, false, length, IsTrue, IfSome, IsNone};
ghost use Rattle.std.specs.Simd.Lanes.{put_chunk};
ghost use Rattle.bdi_line.specs.Coded.{code_number};
ghost use Rattle.bdi_page.specs.Packing.{IsPacking, IsPage};
ghost use Rattle.bdi_page.specs.Pairs.{HasLine, IsLinePut, IsLineRead, HasPair, IsPairPut, IsPairRead};

use bdi_line::{Code, codings_have_one_line, decode_line, lines_have_one_coding, unpack_line};
use std::simd::prelude::*;
use zr_base::Page;

/// Sets the page whose packing `bytes` is, and answers whether there is one; where there is none
/// the page stays.
pub fn unpack(bytes: &[u8], page: &mut Page) -> bool
    ensures yes { IsTrue result → IsPacking page.new bytes.now }
    ensures only { IsTrue result → (other : List ℕ) → IsPage other → IsPacking other bytes.now
        → other ≡ page.new }
    ensures no { result ≡ false → page.new ≡ page.old }
    ensures none { result ≡ false → (other : List ℕ) → IsPage other → IsPacking other bytes.now
        → ⊥ }
{
    lines_have_one_coding();
    if bytes.len() < 32 {
        return false;
    }
    let mut read = [0u8; 4096];
    let mut at = 32usize;
    for j in 0..32usize {
        match unpack_pair(bytes, j, at, &mut read) {
            Some(next) => at = next,
            None => return false,
        }
    }
    if at != bytes.len() {
        return false;
    }
    page.put_bytes(&read);
    true
}

// Reads the lines 2j and 2j + 1, whose payloads are at `at`, and answers where these end.
#[inline]
fn unpack_pair(bytes: &[u8], j: usize, at: usize, read: &mut [u8]) -> Option<usize>
    requires codes { 32 ≤ length bytes.now }
    requires pair { j < 32 }
    requires within { at ≤ length bytes.now }
    requires size { length read.old ≡ 4096 }
    ensures size { length read.new ≡ 4096 }
    ensures some { IfSome result (IsPairRead bytes.now j at read.old read.new) }
    ensures none { IsNone result → (first second rest : List ℕ)
        → HasPair bytes.now j at first second rest → ⊥ }
{
    lines_have_one_coding();
    let byte = bytes[j];
    let middle = read_line(bytes, byte % 16, at, 2 * j, read)?;
    let next = read_line(bytes, byte / 16, middle, 2 * j + 1, read)?;
    Some(next)
}

// Reads line i, whose code has this number and whose payload is at `at`. Lines of equal words are
// read where they are met, the others in a function of their own.
#[inline(always)]
fn read_line(bytes: &[u8], number: u8, at: usize, i: usize, read: &mut [u8]) -> Option<usize>
    requires within { at ≤ length bytes.now }
    requires line { i < 64 }
    requires size { length read.old ≡ 4096 }
    ensures size { length read.new ≡ 4096 }
    ensures some { IfSome result (IsLineRead bytes.now number at i read.old read.new) }
    ensures none { IsNone result → (line rest : List ℕ) → HasLine bytes.now number at line rest
        → ⊥ }
{
    lines_have_one_coding();
    let code = Code::of_number(number)?;
    match code {
        Code::Zeros => read_coded(bytes, Code::Zeros, at, i, read),
        Code::Repeated => read_coded(bytes, Code::Repeated, at, i, read),
        _ => read_wider(bytes, code, at, i, read),
    }
}

// Reads line i, which has this code and whose payload is at `at`.
#[inline(always)]
fn read_coded(bytes: &[u8], code: Code, at: usize, i: usize, read: &mut [u8]) -> Option<usize>
    requires within { at ≤ length bytes.now }
    requires line { i < 64 }
    requires size { length read.old ≡ 4096 }
    ensures size { length read.new ≡ 4096 }
    ensures some { IfSome result (IsLineRead bytes.now (code_number code) at i read.old read.new) }
    ensures none { IsNone result → (line rest : List ℕ)
        → HasLine bytes.now (code_number code) at line rest → ⊥ }
{
    codings_have_one_line();
    lines_have_one_coding();
    let size = code.size() as usize;
    if size > bytes.len() - at {
        return None;
    }
    let line = unpack_line(code, &bytes[at..at + size])?;
    put_line(read, 64 * i, &line);
    Some(at + size)
}

// The same, in a function of its own.
#[inline(never)]
fn read_wider(bytes: &[u8], code: Code, at: usize, i: usize, read: &mut [u8]) -> Option<usize>
    requires within { at ≤ length bytes.now }
    requires line { i < 64 }
    requires size { length read.old ≡ 4096 }
    ensures size { length read.new ≡ 4096 }
    ensures some { IfSome result (IsLineRead bytes.now (code_number code) at i read.old read.new) }
    ensures none { IsNone result → (line rest : List ℕ)
        → HasLine bytes.now (code_number code) at line rest → ⊥ }
{
    read_coded(bytes, code, at, i, read)
}

/// Sets the page whose packing `bytes` are known to be: what `unpack` sets, without its checks.
pub fn decode(bytes: &[u8], page: &mut Page)
    requires packing { (known : List ℕ) × IsPage known × IsPacking known bytes.now }
    ensures page { (known : List ℕ) → IsPage known → IsPacking known bytes.now → page.new ≡ known }
{
    lines_have_one_coding();
    let mut read = [0u8; 4096];
    let mut at = 32usize;
    for j in 0..32usize {
        at = decode_pair(bytes, j, at, &mut read);
    }
    page.put_bytes(&read);
}

// Decodes the lines 2j and 2j + 1, whose payloads are at `at`, and answers where these end.
#[inline(always)]
fn decode_pair(bytes: &[u8], j: usize, at: usize, read: &mut [u8]) -> usize
    requires codes { j < length bytes.now }
    requires pair { j < 32 }
    requires size { length read.old ≡ 4096 }
    requires within { at ≤ length bytes.now }
    requires here { (first : List ℕ) × (second : List ℕ) × (rest : List ℕ)
        × HasPair bytes.now j at first second rest }
    ensures size { length read.new ≡ 4096 }
    ensures put { (first second rest : List ℕ) → HasPair bytes.now j at first second rest
        → IsPairPut bytes.now j read.old read.new first second rest result }
{
    lines_have_one_coding();
    let byte = bytes[j];
    let middle = decode_at(bytes, byte % 16, at, 2 * j, read);
    decode_at(bytes, byte / 16, middle, 2 * j + 1, read)
}

// Decodes line i, whose code has this number and whose payload is at `at`.
#[inline(always)]
fn decode_at(bytes: &[u8], number: u8, at: usize, i: usize, read: &mut [u8]) -> usize
    requires line { i < 64 }
    requires size { length read.old ≡ 4096 }
    requires within { at ≤ length bytes.now }
    requires here { (line : List ℕ) × (rest : List ℕ) × HasLine bytes.now number at line rest }
    ensures size { length read.new ≡ 4096 }
    ensures put { (line rest : List ℕ) → HasLine bytes.now number at line rest
        → IsLinePut bytes.now i read.old read.new line rest result }
{
    lines_have_one_coding();
    let Some(code) = Code::of_number(number) else {
        unreachable!()
    };
    let next = at + code.size() as usize;
    put_line(read, 64 * i, &decode_line(code, &bytes[at..next]));
    next
}

#[inline]
fn put_line(page: &mut [u8], at: usize, line: &[u8; 64])
    requires { at + 64 ≤ length page.old }
    ensures size { length page.new ≡ length page.old }
    ensures after { page.new ≡ put_chunk at page.old line.now }
{
    u8x64::from_array(*line).copy_to_slice(&mut page[at..]);
}
