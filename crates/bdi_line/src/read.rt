//! The line that a code and a payload stand for: it is decoded, and, where they aren't known to be
//! a
//! line's packing, packed again, so that other bytes are refused.

ghost use Rattle.std.specs.Prelude.{◌≡◌, ◌≤◌, ◌↔◌, List, ℕ, length, IsTrue, IfSome, IsNone, replicate};
ghost use Rattle.std.specs.Simd.Lanes.{number_l, chunk};
ghost use Rattle.bdi_line.specs.Line.{IsSplit, values, b8d1, b8d2, b8d4, b4d1, b4d2, b2d1};
ghost use Rattle.bdi_line.specs.Coded.{IsCoded, IsByteLine, size_of};
ghost use Rattle.bdi_line.specs.declared.codes.Code.TheVariants.{Zeros, Repeated};

use crate::codes::Code;
use crate::halves::{based_halves, halves_from_1, halves_from_2, line_of_halves, signed_halves};
use crate::pack::pack_into;
use crate::quarters::{based_quarters, line_of_quarters, quarters_from_1, signed_quarters};
use crate::words::{
    based_words, line_of_words, signed_words, words_from_1, words_from_2, words_from_4,
};
use arrayvec::ArrayVec;
use std::simd::prelude::*;

/// The line whose packing is this code and payload; None where no line has it.
#[inline(always)]
pub fn unpack_line(code: Code, payload: &[u8]) -> Option<[u8; 64]>
    ensures some { IfSome result (λ line. IsCoded line code payload.now) }
    ensures only { IfSome result (λ found. (line : List ℕ) → IsByteLine line
        → IsCoded line code payload.now → line ≡ found) }
    ensures none { IsNone result → (line : List ℕ) → IsByteLine line
        → IsCoded line code payload.now → ⊥ }
{
    if payload.len() != code.size() as usize {
        return None;
    }
    let line = decode_line(code, payload);
    if holds(&line, code, payload) {
        Some(line)
    } else {
        None
    }
}

// Whether the line that was decoded is packed so. The payload of equal words tells that by itself;
// any other line is packed again.
#[inline(always)]
fn holds(line: &[u8; 64], code: Code, payload: &[u8]) -> bool
    requires size { length payload.now ≡ size_of code }
    requires only { (other : List ℕ) → IsByteLine other → IsCoded other code payload.now
        → other ≡ line.now }
    ensures { IsTrue result ↔ IsCoded line.now code payload.now }
{
    match code {
        Code::Zeros => holds_zeros(line, payload),
        Code::Repeated => holds_repeated(line, payload),
        _ => is_coded(line, code, payload),
    }
}

// Nothing is kept of zeros.
#[inline(always)]
fn holds_zeros(line: &[u8; 64], payload: &[u8]) -> bool
    requires only { (other : List ℕ) → IsByteLine other → IsCoded other Zeros payload.now
        → other ≡ line.now }
    ensures { IsTrue result ↔ IsCoded line.now Zeros payload.now }
{
    let _size = line.len();
    payload.is_empty()
}

// A word that isn't 0 is kept of equal words.
#[inline(always)]
fn holds_repeated(line: &[u8; 64], payload: &[u8]) -> bool
    requires size { length payload.now ≡ 8 }
    requires only { (other : List ℕ) → IsByteLine other → IsCoded other Repeated payload.now
        → other ≡ line.now }
    ensures { IsTrue result ↔ IsCoded line.now Repeated payload.now }
{
    let _size = line.len();
    word_at_front(payload) != 0
}

// Whether this is how the line is packed.
#[inline]
fn is_coded(line: &[u8; 64], code: Code, payload: &[u8]) -> bool
    ensures { IsTrue result ↔ IsCoded line.now code payload.now }
{
    let mut again = ArrayVec::<u8, 64>::new();
    let found = pack_into(line, &mut again);
    if found.number() != code.number() {
        return false;
    }
    same_bytes(again.as_slice(), payload)
}

#[inline]
fn same_bytes(a: &[u8], b: &[u8]) -> bool
    ensures { IsTrue result ↔ (a.now ≡ b.now) }
{
    a == b
}

/// The line whose packing is known to be this code and payload. Nothing is checked: where no line
/// has this packing, any line may come.
#[inline(always)]
pub fn decode_line(code: Code, payload: &[u8]) -> [u8; 64]
    requires size { length payload.now ≡ size_of code }
    ensures only { (line : List ℕ) → IsByteLine line → IsCoded line code payload.now
        → line ≡ result }
{
    decoded(code, payload).to_array()
}

#[inline(always)]
fn decoded(code: Code, payload: &[u8]) -> u8x64
    requires { length payload.now ≡ size_of code }
    ensures { (line : List ℕ) → IsByteLine line → IsCoded line code payload.now → line ≡ result }
{
    match code {
        Code::Zeros => line_of_zeros(),
        Code::Repeated => line_of_words(read_repeated(payload)),
        Code::B8D1 => line_of_words(read_b8d1(payload)),
        Code::B8D2 => line_of_words(read_b8d2(payload)),
        Code::B8D4 => line_of_words(read_b8d4(payload)),
        Code::B4D1 => line_of_halves(read_b4d1(payload)),
        Code::B4D2 => line_of_halves(read_b4d2(payload)),
        Code::B2D1 => line_of_quarters(read_b2d1(payload)),
        Code::Raw => line_at_front(payload),
    }
}

#[inline]
fn line_of_zeros() -> u8x64
    ensures { result ≡ replicate 64 0 }
{
    u8x64::splat(0)
}

#[inline]
fn line_at_front(bytes: &[u8]) -> u8x64
    requires { 64 ≤ length bytes.now }
    ensures { result ≡ chunk 0 64 bytes.now }
{
    u8x64::from_slice(bytes)
}

#[inline]
fn word_at_front(bytes: &[u8]) -> u64
    requires { 8 ≤ length bytes.now }
    ensures { result ≡ number_l 256 (chunk 0 8 bytes.now) }
{
    u64x1::from_le_bytes(u8x8::from_slice(bytes))[0]
}

#[inline]
fn half_at_front(bytes: &[u8]) -> u32
    requires { 4 ≤ length bytes.now }
    ensures { result ≡ number_l 256 (chunk 0 4 bytes.now) }
{
    u32x1::from_le_bytes(u8x4::from_slice(bytes))[0]
}

#[inline]
fn quarter_at_front(bytes: &[u8]) -> u16
    requires { 2 ≤ length bytes.now }
    ensures { result ≡ number_l 256 (chunk 0 2 bytes.now) }
{
    u16x1::from_le_bytes(u8x2::from_slice(bytes))[0]
}

#[inline]
fn read_repeated(payload: &[u8]) -> u64x8
    requires { 8 ≤ length payload.now }
    ensures { result ≡ replicate 8 (number_l 256 (chunk 0 8 payload.now)) }
{
    u64x8::splat(word_at_front(payload))
}

#[inline]
fn read_b8d1(payload: &[u8]) -> u64x8
    requires { length payload.now ≡ 17 }
    ensures { (line : List ℕ) → IsSplit b8d1 (values 8 8 line) payload.now
        → result ≡ values 8 8 line }
{
    let marks = payload[0] as u64;
    let base = word_at_front(&payload[1..]);
    let low = words_from_1(&payload[9..]);
    based_words(signed_words(low, 0x80, 0xffff_ffff_ffff_ff00), marks, base)
}

#[inline]
fn read_b8d2(payload: &[u8]) -> u64x8
    requires { length payload.now ≡ 25 }
    ensures { (line : List ℕ) → IsSplit b8d2 (values 8 8 line) payload.now
        → result ≡ values 8 8 line }
{
    let marks = payload[0] as u64;
    let base = word_at_front(&payload[1..]);
    let low = words_from_2(&payload[9..]);
    based_words(
        signed_words(low, 0x8000, 0xffff_ffff_ffff_0000),
        marks,
        base,
    )
}

#[inline]
fn read_b8d4(payload: &[u8]) -> u64x8
    requires { length payload.now ≡ 41 }
    ensures { (line : List ℕ) → IsSplit b8d4 (values 8 8 line) payload.now
        → result ≡ values 8 8 line }
{
    let marks = payload[0] as u64;
    let base = word_at_front(&payload[1..]);
    let low = words_from_4(&payload[9..]);
    based_words(
        signed_words(low, 0x8000_0000, 0xffff_ffff_0000_0000),
        marks,
        base,
    )
}

#[inline]
fn read_b4d1(payload: &[u8]) -> u32x16
    requires { length payload.now ≡ 22 }
    ensures { (line : List ℕ) → IsSplit b4d1 (values 4 16 line) payload.now
        → result ≡ values 4 16 line }
{
    let marks = quarter_at_front(payload) as u64;
    let base = half_at_front(&payload[2..]);
    let low = halves_from_1(&payload[6..]);
    based_halves(signed_halves(low, 0x80, 0xffff_ff00), marks, base)
}

#[inline]
fn read_b4d2(payload: &[u8]) -> u32x16
    requires { length payload.now ≡ 38 }
    ensures { (line : List ℕ) → IsSplit b4d2 (values 4 16 line) payload.now
        → result ≡ values 4 16 line }
{
    let marks = quarter_at_front(payload) as u64;
    let base = half_at_front(&payload[2..]);
    let low = halves_from_2(&payload[6..]);
    based_halves(signed_halves(low, 0x8000, 0xffff_0000), marks, base)
}

#[inline]
fn read_b2d1(payload: &[u8]) -> u16x32
    requires { length payload.now ≡ 38 }
    ensures { (line : List ℕ) → IsSplit b2d1 (values 2 32 line) payload.now
        → result ≡ values 2 32 line }
{
    let marks = half_at_front(payload) as u64;
    let base = quarter_at_front(&payload[4..]);
    let low = quarters_from_1(&payload[6..]);
    based_quarters(signed_quarters(low, 0x80, 0xff00), marks, base)
}
