//! A line as 8 values of 8 bytes, a value a lane.
//!
//! A value is large where `value + bound`, which wraps, is at least `span`: `bound` is the number
//! below which a delta is small, and `span` is twice that. What is kept of a large value is its
//! difference from the first large one, the base; all values fit where no such delta is large.
//! `halves.rt` and `quarters.rt` are this text for values of 4 and 2 bytes.

ghost use Rattle.std.specs.Prelude.{◌≡◌, ℕ, ◌+◌, ◌*◌, ◌/◌, ◌%◌, ◌^◌, ◌<◌, ◌≤◌, ◌==◌, nat_le, map, cond, length, slice_index, is_some, IfSome, IsTrue};
ghost use Rattle.std.specs.Simd.Lanes.{digits_l, number_l, chunk};
ghost use Rattle.bdi_line.specs.Line.{values, is_large, base_of, low_bytes};
ghost use Rattle.bdi_line.specs.Packed.{marks_of, is_near};
ghost use Rattle.bdi_line.specs.Written.{AreFar, IsParted};

use std::simd::prelude::*;

/// The values of a line beside a base.
#[derive(Clone, Copy)]
pub(crate) struct WordSplit {
    /// Bit j is set where value j is large.
    pub(crate) marks: u64,
    pub(crate) base: u64,
    pub(crate) deltas: u64x8,
}

/// The values of the line.
#[inline]
pub(crate) fn words_of(line: &[u8; 64]) -> u64x8
    ensures { result ≡ values 8 8 line.now }
{
    u64x8::from_le_bytes(u8x64::from_array(*line))
}

/// The line of these values.
#[inline]
pub(crate) fn line_of_words(values: u64x8) -> u8x64
    ensures { result ≡ digits_l 256 64 (number_l (2 ^ 64) values) }
{
    values.to_le_bytes()
}

// The marks of the large values.
#[inline]
fn marks_of_words(values: u64x8, bound: u64, span: u64) -> u64
    requires positive { 0 < bound }
    requires span { span ≡ 2 * bound }
    ensures { result ≡ marks_of (is_large bound (2 ^ 64)) values }
{
    (values + u64x8::splat(bound))
        .simd_ge(u64x8::splat(span))
        .to_bitmask()
}

// The first value that is marked, or 0. Most lines that fit begin with it.
#[inline]
fn base_of_words(values: u64x8, marks: u64, bound: u64) -> u64
    requires { marks ≡ marks_of (is_large bound (2 ^ 64)) values }
    ensures { result ≡ base_of bound (2 ^ 64) values }
{
    let first = marks.trailing_zeros() as usize;
    if first == 0 {
        return values[0];
    }
    if first < 8 { values[first] } else { 0 }
}

// The values beside their base, near it or not.
#[inline]
fn part_words(values: u64x8, bound: u64, span: u64) -> WordSplit
    requires positive { 0 < bound }
    requires span { span ≡ 2 * bound }
    ensures { IsParted bound (2 ^ 64) values result.marks result.base result.deltas }
{
    let large = (values + u64x8::splat(bound)).simd_ge(u64x8::splat(span));
    let marks = large.to_bitmask();
    let base = base_of_words(values, marks, bound);
    let deltas = large.select(values - u64x8::splat(base), values);
    WordSplit {
        marks,
        base,
        deltas,
    }
}

// Whether both are large and the second isn't near the first: most lines that do not fit are told
// so by their first values.
#[inline]
fn is_far_word(first: u64, second: u64, bound: u64, span: u64) -> bool
    requires positive { 0 < bound }
    requires span { span ≡ 2 * bound }
    ensures { IsTrue result → AreFar bound (2 ^ 64) first second }
{
    first.wrapping_add(bound) >= span
        && second.wrapping_add(bound) >= span
        && second.wrapping_sub(first).wrapping_add(bound) >= span
}

/// The values beside their base, where each is small or near it: `bound` bounds a small value.
#[inline]
pub(crate) fn split_words(values: u64x8, bound: u64, span: u64) -> Option<WordSplit>
    requires positive { 0 < bound }
    requires span { span ≡ 2 * bound }
    ensures some { IfSome result (λ split.
        IsParted bound (2 ^ 64) values split.marks split.base split.deltas) }
    ensures fits { is_some result ≡ is_near bound (2 ^ 64) values }
{
    if is_far_word(values[0], values[1], bound, span) {
        return None;
    }
    if is_far_word(values[0], values[2], bound, span) {
        return None;
    }
    let split = part_words(values, bound, span);
    if marks_of_words(split.deltas, bound, span) != 0 {
        return None;
    }
    Some(split)
}

/// The low byte of each delta. They are stored at once, since `to_array` of 8 bytes takes a step
/// for each.
#[inline]
pub(crate) fn low_1_of_words(deltas: u64x8) -> [u8; 8]
    ensures { result ≡ low_bytes 1 deltas }
{
    let mut bytes = [0; 8];
    deltas
        .to_le_bytes()
        .swizzle::<8>([0, 8, 16, 24, 32, 40, 48, 56])
        .copy_to_slice(&mut bytes);
    bytes
}

/// The low two bytes of each delta.
#[inline]
pub(crate) fn low_2_of_words(deltas: u64x8) -> [u8; 16]
    ensures { result ≡ low_bytes 2 deltas }
{
    deltas
        .to_le_bytes()
        .swizzle::<16>([0, 1, 8, 9, 16, 17, 24, 25, 32, 33, 40, 41, 48, 49, 56, 57])
        .to_array()
}

/// The low four bytes of each delta.
#[inline]
pub(crate) fn low_4_of_words(deltas: u64x8) -> [u8; 32]
    ensures { result ≡ low_bytes 4 deltas }
{
    deltas
        .to_le_bytes()
        .swizzle::<32>([
            0, 1, 2, 3, 8, 9, 10, 11, 16, 17, 18, 19, 24, 25, 26, 27, 32, 33, 34, 35, 40, 41, 42,
            43, 48, 49, 50, 51, 56, 57, 58, 59,
        ])
        .to_array()
}

/// Each delta as a number that wraps: `rest` is what a wrapped number of the delta's width lacks.
#[inline]
pub(crate) fn signed_words(low: u64x8, bound: u64, rest: u64) -> u64x8
    ensures { result ≡ map (λ x. cond (nat_le bound x) ((x + rest) % 2 ^ 64) x) low }
{
    low.simd_ge(u64x8::splat(bound))
        .select(low + u64x8::splat(rest), low)
}

/// The deltas, with the base added to those that are marked.
#[inline]
pub(crate) fn based_words(deltas: u64x8, marks: u64, base: u64) -> u64x8
    requires { length deltas ≡ 8 }
    ensures len { length result ≡ 8 }
    ensures lanes { (j : ℕ) → j < 8 → slice_index result j
        ≡ cond (marks / 2 ^ j % 2 == 1) ((slice_index deltas j + base) % 2 ^ 64)
        (slice_index deltas j) }
{
    let mut values = deltas.to_array();
    for j in 0..8usize {
        if (marks >> j) % 2 == 1 {
            values[j] = values[j].wrapping_add(base);
        }
    }
    u64x8::from_array(values)
}

/// The numbers of one byte at the front.
#[inline]
pub(crate) fn words_from_1(bytes: &[u8]) -> u64x8
    requires { 8 ≤ length bytes.now }
    ensures { result ≡ digits_l 256 8 (number_l 256 (chunk 0 8 bytes.now)) }
{
    u8x8::from_slice(bytes).cast::<u64>()
}

/// The numbers of two bytes at the front.
#[inline]
pub(crate) fn words_from_2(bytes: &[u8]) -> u64x8
    requires { 16 ≤ length bytes.now }
    ensures { result ≡ digits_l (2 ^ 16) 8 (number_l 256 (chunk 0 16 bytes.now)) }
{
    u16x8::from_le_bytes(u8x16::from_slice(bytes)).cast::<u64>()
}

/// The numbers of four bytes at the front.
#[inline]
pub(crate) fn words_from_4(bytes: &[u8]) -> u64x8
    requires { 32 ≤ length bytes.now }
    ensures { result ≡ digits_l (2 ^ 32) 8 (number_l 256 (chunk 0 32 bytes.now)) }
{
    u32x8::from_le_bytes(u8x32::from_slice(bytes)).cast::<u64>()
}
