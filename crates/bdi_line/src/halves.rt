//! A line as 16 values of 4 bytes, a value a lane: the text of `words.rt` for this width.

ghost use Rattle.std.specs.Prelude.{◌≡◌, ℕ, ◌+◌, ◌*◌, ◌/◌, ◌%◌, ◌^◌, ◌<◌, ◌≤◌, ◌==◌, nat_le, map, cond, length, slice_index, is_some, IfSome, IsTrue};
ghost use Rattle.std.specs.Simd.Lanes.{digits_l, number_l, chunk};
ghost use Rattle.bdi_line.specs.Line.{values, is_large, base_of, low_bytes};
ghost use Rattle.bdi_line.specs.Packed.{marks_of, is_near};
ghost use Rattle.bdi_line.specs.Written.{AreFar, IsParted};

use std::simd::prelude::*;

/// The values of a line beside a base.
#[derive(Clone, Copy)]
pub(crate) struct HalfSplit {
    /// Bit j is set where value j is large.
    pub(crate) marks: u64,
    pub(crate) base: u32,
    pub(crate) deltas: u32x16,
}

/// The values of the line.
#[inline]
pub(crate) fn halves_of(line: &[u8; 64]) -> u32x16
    ensures { result ≡ values 4 16 line.now }
{
    u32x16::from_le_bytes(u8x64::from_array(*line))
}

/// The line of these values.
#[inline]
pub(crate) fn line_of_halves(values: u32x16) -> u8x64
    ensures { result ≡ digits_l 256 64 (number_l (2 ^ 32) values) }
{
    values.to_le_bytes()
}

// The marks of the large values.
#[inline]
fn marks_of_halves(values: u32x16, bound: u32, span: u32) -> u64
    requires positive { 0 < bound }
    requires span { span ≡ 2 * bound }
    ensures { result ≡ marks_of (is_large bound (2 ^ 32)) values }
{
    (values + u32x16::splat(bound))
        .simd_ge(u32x16::splat(span))
        .to_bitmask()
}

// The first value that is marked, or 0. Most lines that fit begin with it.
#[inline]
fn base_of_halves(values: u32x16, marks: u64, bound: u32) -> u32
    requires { marks ≡ marks_of (is_large bound (2 ^ 32)) values }
    ensures { result ≡ base_of bound (2 ^ 32) values }
{
    let first = marks.trailing_zeros() as usize;
    if first == 0 {
        return values[0];
    }
    if first < 16 { values[first] } else { 0 }
}

// The values beside their base, near it or not.
#[inline]
fn part_halves(values: u32x16, bound: u32, span: u32) -> HalfSplit
    requires positive { 0 < bound }
    requires span { span ≡ 2 * bound }
    ensures { IsParted bound (2 ^ 32) values result.marks result.base result.deltas }
{
    let large = (values + u32x16::splat(bound)).simd_ge(u32x16::splat(span));
    let marks = large.to_bitmask();
    let base = base_of_halves(values, marks, bound);
    let deltas = large.select(values - u32x16::splat(base), values);
    HalfSplit {
        marks,
        base,
        deltas,
    }
}

// Whether both are large and the second isn't near the first: most lines that do not fit are told
// so by their first values.
#[inline]
fn is_far_half(first: u32, second: u32, bound: u32, span: u32) -> bool
    requires positive { 0 < bound }
    requires span { span ≡ 2 * bound }
    ensures { IsTrue result → AreFar bound (2 ^ 32) first second }
{
    first.wrapping_add(bound) >= span
        && second.wrapping_add(bound) >= span
        && second.wrapping_sub(first).wrapping_add(bound) >= span
}

/// The values beside their base, where each is small or near it: `bound` bounds a small value.
#[inline]
pub(crate) fn split_halves(values: u32x16, bound: u32, span: u32) -> Option<HalfSplit>
    requires positive { 0 < bound }
    requires span { span ≡ 2 * bound }
    ensures some { IfSome result (λ split.
        IsParted bound (2 ^ 32) values split.marks split.base split.deltas) }
    ensures fits { is_some result ≡ is_near bound (2 ^ 32) values }
{
    if is_far_half(values[0], values[1], bound, span) {
        return None;
    }
    if is_far_half(values[0], values[2], bound, span) {
        return None;
    }
    let split = part_halves(values, bound, span);
    if marks_of_halves(split.deltas, bound, span) != 0 {
        return None;
    }
    Some(split)
}

/// The low byte of each delta.
#[inline]
pub(crate) fn low_1_of_halves(deltas: u32x16) -> [u8; 16]
    ensures { result ≡ low_bytes 1 deltas }
{
    deltas
        .to_le_bytes()
        .swizzle::<16>([0, 4, 8, 12, 16, 20, 24, 28, 32, 36, 40, 44, 48, 52, 56, 60])
        .to_array()
}

/// The low two bytes of each delta.
#[inline]
pub(crate) fn low_2_of_halves(deltas: u32x16) -> [u8; 32]
    ensures { result ≡ low_bytes 2 deltas }
{
    deltas
        .to_le_bytes()
        .swizzle::<32>([
            0, 1, 4, 5, 8, 9, 12, 13, 16, 17, 20, 21, 24, 25, 28, 29, 32, 33, 36, 37, 40, 41, 44,
            45, 48, 49, 52, 53, 56, 57, 60, 61,
        ])
        .to_array()
}

/// Each delta as a number that wraps: `rest` is what a wrapped number of the delta's width lacks.
#[inline]
pub(crate) fn signed_halves(low: u32x16, bound: u32, rest: u32) -> u32x16
    ensures { result ≡ map (λ x. cond (nat_le bound x) ((x + rest) % 2 ^ 32) x) low }
{
    low.simd_ge(u32x16::splat(bound))
        .select(low + u32x16::splat(rest), low)
}

/// The deltas, with the base added to those that are marked.
#[inline]
pub(crate) fn based_halves(deltas: u32x16, marks: u64, base: u32) -> u32x16
    requires { length deltas ≡ 16 }
    ensures len { length result ≡ 16 }
    ensures lanes { (j : ℕ) → j < 16 → slice_index result j
        ≡ cond (marks / 2 ^ j % 2 == 1) ((slice_index deltas j + base) % 2 ^ 32)
        (slice_index deltas j) }
{
    let mut values = deltas.to_array();
    for j in 0..16usize {
        if (marks >> j) % 2 == 1 {
            values[j] = values[j].wrapping_add(base);
        }
    }
    u32x16::from_array(values)
}

/// The numbers of one byte at the front.
#[inline]
pub(crate) fn halves_from_1(bytes: &[u8]) -> u32x16
    requires { 16 ≤ length bytes.now }
    ensures { result ≡ digits_l 256 16 (number_l 256 (chunk 0 16 bytes.now)) }
{
    u8x16::from_slice(bytes).cast::<u32>()
}

/// The numbers of two bytes at the front.
#[inline]
pub(crate) fn halves_from_2(bytes: &[u8]) -> u32x16
    requires { 32 ≤ length bytes.now }
    ensures { result ≡ digits_l (2 ^ 16) 16 (number_l 256 (chunk 0 32 bytes.now)) }
{
    u16x16::from_le_bytes(u8x32::from_slice(bytes)).cast::<u32>()
}
