//! A line's code, and its payload appended: the codes are tried from the smallest payload up, and
//! the
//! first that the line fits is its code.

ghost use Rattle.std.specs.Prelude.{◌≡◌, ◌+◌, ◌^◌, ◌≤◌, List, ℕ, ◌++◌, length, IsTrue, slice_index, false};
ghost use Rattle.arrayvec.specs.ArrayVec.{array_vec_len};
ghost use Rattle.bdi_line.specs.Line.{bound_of, modulus_of, b8d1, b8d2, b8d4, b4d1, b4d2, b2d1};
ghost use Rattle.bdi_line.specs.Packed.{is_all, is_near, fits, wider, first_code, code_of, split_payload, payload_under, payload_of};
ghost use Rattle.bdi_line.specs.Coded.{IsCoded, size_of};
ghost use Rattle.bdi_line.specs.declared.codes.Code.{Code};

use crate::codes::Code;
use crate::halves::{halves_of, low_1_of_halves, low_2_of_halves, split_halves};
use crate::quarters::{low_1_of_quarters, quarters_of, split_quarters};
use crate::words::{low_1_of_words, low_2_of_words, low_4_of_words, split_words, words_of};
use arrayvec::ArrayVec;
use std::simd::prelude::*;

/// Appends the line's payload, and answers its code. `out` needs 64 free bytes.
#[inline(always)]
pub fn pack_line(line: &[u8; 64], out: &mut ArrayVec<u8, 4128>) -> Code
    requires { array_vec_len out.old + 64 ≤ 4128 }
    ensures code { result ≡ code_of line.now }
    ensures payload { out.new.items ≡ out.old.items ++ payload_of line.now }
    ensures size { array_vec_len out.new ≡ array_vec_len out.old + size_of result }
    ensures room { array_vec_len out.new ≤ array_vec_len out.old + 64 }
    ensures grows { array_vec_len out.old ≤ array_vec_len out.new }
    ensures coded { (payload : List ℕ) × (out.new.items ≡ out.old.items ++ payload)
        × IsCoded line.now result payload }
    ensures one { (code : Code) → (payload : List ℕ) → IsCoded line.now code payload
        → (code ≡ result) × (out.new.items ≡ out.old.items ++ payload) }
{
    pack_into(line, out)
}

/// Appends the line's payload, and answers its code. The smallest codes are tried where the line is
/// read, the others in a function of their own.
#[inline(always)]
#[tactic(auto, using(crate::proofs::Equal::code_by_words))]
pub(crate) fn pack_into<const N: usize>(line: &[u8; 64], out: &mut ArrayVec<u8, N>) -> Code
    requires { array_vec_len out.old + 64 ≤ N }
    ensures code { result ≡ code_of line.now }
    ensures payload { out.new.items ≡ out.old.items ++ payload_under result line.now }
    ensures size { array_vec_len out.new ≡ array_vec_len out.old + size_of result }
    ensures room { array_vec_len out.new ≤ array_vec_len out.old + 64 }
    ensures grows { array_vec_len out.old ≤ array_vec_len out.new }
{
    let words = words_of(line);
    if is_repeated(words) {
        if words[0] == 0 {
            return Code::Zeros;
        }
        let mut front = [0; 8];
        front.copy_from_slice(&line[..8]);
        put(out, &front);
        return Code::Repeated;
    }
    if put_b8d1(words, out) {
        return Code::B8D1;
    }
    pack_wider(line, out)
}

// Appends the payload of a line that fits none of the smaller codes, and answers its code.
#[inline(never)]
fn pack_wider<const N: usize>(line: &[u8; 64], out: &mut ArrayVec<u8, N>) -> Code
    requires { array_vec_len out.old + 64 ≤ N }
    ensures code { result ≡ first_code (λ c. fits c line.now) wider }
    ensures payload { out.new.items ≡ out.old.items ++ payload_under result line.now }
    ensures size { array_vec_len out.new ≡ array_vec_len out.old + size_of result }
    ensures room { array_vec_len out.new ≤ array_vec_len out.old + 64 }
    ensures grows { array_vec_len out.old ≤ array_vec_len out.new }
{
    let halves = halves_of(line);
    if put_b4d1(halves, out) {
        return Code::B4D1;
    }
    let words = words_of(line);
    if put_b8d2(words, out) {
        return Code::B8D2;
    }
    if put_b4d2(halves, out) {
        return Code::B4D2;
    }
    if put_b2d1(quarters_of(line), out) {
        return Code::B2D1;
    }
    if put_b8d4(words, out) {
        return Code::B8D4;
    }
    put(out, line);
    Code::Raw
}

// Most lines whose words are not all the same are told so by their first two.
#[inline]
fn is_repeated(words: u64x8) -> bool
    ensures { result ≡ is_all (slice_index words 0) words }
{
    if words[0] != words[1] {
        return false;
    }
    words.simd_ne(u64x8::splat(words[0])).to_bitmask() == 0
}

// Appends the bytes.
#[inline]
fn put<const N: usize>(out: &mut ArrayVec<u8, N>, bytes: &[u8])
    requires { array_vec_len out.old + length bytes.now ≤ N }
    ensures items { out.new.items ≡ out.old.items ++ bytes.now }
    ensures len { array_vec_len out.new ≡ array_vec_len out.old + length bytes.now }
{
    out.try_extend_from_slice(bytes).unwrap();
}

#[inline]
fn put_b8d1<const N: usize>(values: u64x8, out: &mut ArrayVec<u8, N>) -> bool
    requires { array_vec_len out.old + 64 ≤ N }
    ensures written { IsTrue result → out.new.items ≡ out.old.items ++ split_payload b8d1 values }
    ensures fits { result ≡ is_near (bound_of b8d1) (modulus_of b8d1) values }
    ensures size { IsTrue result → array_vec_len out.new ≡ array_vec_len out.old + 17 }
    ensures same { result ≡ false → out.new ≡ out.old }
{
    let Some(split) = split_words(values, 0x80, 0x100) else {
        return false;
    };
    put(out, &[(split.marks & 0xff) as u8]);
    put(out, &split.base.to_le_bytes());
    put(out, &low_1_of_words(split.deltas));
    true
}

#[inline]
fn put_b8d2<const N: usize>(values: u64x8, out: &mut ArrayVec<u8, N>) -> bool
    requires { array_vec_len out.old + 64 ≤ N }
    ensures written { IsTrue result → out.new.items ≡ out.old.items ++ split_payload b8d2 values }
    ensures fits { result ≡ is_near (bound_of b8d2) (modulus_of b8d2) values }
    ensures size { IsTrue result → array_vec_len out.new ≡ array_vec_len out.old + 25 }
    ensures same { result ≡ false → out.new ≡ out.old }
{
    let Some(split) = split_words(values, 0x8000, 0x1_0000) else {
        return false;
    };
    put(out, &[(split.marks & 0xff) as u8]);
    put(out, &split.base.to_le_bytes());
    put(out, &low_2_of_words(split.deltas));
    true
}

#[inline]
fn put_b8d4<const N: usize>(values: u64x8, out: &mut ArrayVec<u8, N>) -> bool
    requires { array_vec_len out.old + 64 ≤ N }
    ensures written { IsTrue result → out.new.items ≡ out.old.items ++ split_payload b8d4 values }
    ensures fits { result ≡ is_near (bound_of b8d4) (modulus_of b8d4) values }
    ensures size { IsTrue result → array_vec_len out.new ≡ array_vec_len out.old + 41 }
    ensures same { result ≡ false → out.new ≡ out.old }
{
    let Some(split) = split_words(values, 0x8000_0000, 0x1_0000_0000) else {
        return false;
    };
    put(out, &[(split.marks & 0xff) as u8]);
    put(out, &split.base.to_le_bytes());
    put(out, &low_4_of_words(split.deltas));
    true
}

#[inline]
fn put_b4d1<const N: usize>(values: u32x16, out: &mut ArrayVec<u8, N>) -> bool
    requires { array_vec_len out.old + 64 ≤ N }
    ensures written { IsTrue result → out.new.items ≡ out.old.items ++ split_payload b4d1 values }
    ensures fits { result ≡ is_near (bound_of b4d1) (modulus_of b4d1) values }
    ensures size { IsTrue result → array_vec_len out.new ≡ array_vec_len out.old + 22 }
    ensures same { result ≡ false → out.new ≡ out.old }
{
    let Some(split) = split_halves(values, 0x80, 0x100) else {
        return false;
    };
    put(out, &((split.marks & 0xffff) as u16).to_le_bytes());
    put(out, &split.base.to_le_bytes());
    put(out, &low_1_of_halves(split.deltas));
    true
}

#[inline]
fn put_b4d2<const N: usize>(values: u32x16, out: &mut ArrayVec<u8, N>) -> bool
    requires { array_vec_len out.old + 64 ≤ N }
    ensures written { IsTrue result → out.new.items ≡ out.old.items ++ split_payload b4d2 values }
    ensures fits { result ≡ is_near (bound_of b4d2) (modulus_of b4d2) values }
    ensures size { IsTrue result → array_vec_len out.new ≡ array_vec_len out.old + 38 }
    ensures same { result ≡ false → out.new ≡ out.old }
{
    let Some(split) = split_halves(values, 0x8000, 0x1_0000) else {
        return false;
    };
    put(out, &((split.marks & 0xffff) as u16).to_le_bytes());
    put(out, &split.base.to_le_bytes());
    put(out, &low_2_of_halves(split.deltas));
    true
}

#[inline]
fn put_b2d1<const N: usize>(values: u16x32, out: &mut ArrayVec<u8, N>) -> bool
    requires { array_vec_len out.old + 64 ≤ N }
    ensures written { IsTrue result → out.new.items ≡ out.old.items ++ split_payload b2d1 values }
    ensures fits { result ≡ is_near (bound_of b2d1) (modulus_of b2d1) values }
    ensures size { IsTrue result → array_vec_len out.new ≡ array_vec_len out.old + 38 }
    ensures same { result ≡ false → out.new ≡ out.old }
{
    let Some(split) = split_quarters(values, 0x80, 0x100) else {
        return false;
    };
    put(out, &((split.marks & 0xffff_ffff) as u32).to_le_bytes());
    put(out, &split.base.to_le_bytes());
    put(out, &low_1_of_quarters(split.deltas));
    true
}
