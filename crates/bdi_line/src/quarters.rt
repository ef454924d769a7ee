//! A line as 32 values of 2 bytes, a value a lane: the text of `words.rt` for this width.

ghost use Rattle.std.specs.Prelude.{◌≡◌, ℕ, ◌+◌, ◌*◌, ◌/◌, ◌%◌, ◌^◌, ◌<◌, ◌≤◌, ◌==◌, nat_le, map, cond, length, slice_index, is_some, IfSome, IsTrue};
ghost use Rattle.std.specs.Simd.Lanes.{digits_l, number_l, chunk};
ghost use Rattle.bdi_line.specs.Line.{values, is_large, base_of, low_bytes};
ghost use Rattle.bdi_line.specs.Packed.{marks_of, is_near};
ghost use Rattle.bdi_line.specs.Written.{AreFar, IsParted};

use std::simd::prelude::*;

/// The values of a line beside a base.
#[derive(Clone, Copy)]
pub(crate) struct QuarterSplit {
    /// Bit j is set where value j is large.
    pub(crate) marks: u64,
    pub(crate) base: u16,
    pub(crate) deltas: u16x32,
}

/// The values of the line.
#[inline]
pub(crate) fn quarters_of(line: &[u8; 64]) -> u16x32
    ensures { result ≡ values 2 32 line.now }
{
    u16x32::from_le_bytes(u8x64::from_array(*line))
}

/// The line of these values.
#[inline]
pub(crate) fn line_of_quarters(values: u16x32) -> u8x64
    ensures { result ≡ digits_l 256 64 (number_l (2 ^ 16) values) }
{
    values.to_le_bytes()
}

// The marks of the large values.
#[inline]
fn marks_of_quarters(values: u16x32, bound: u16, span: u16) -> u64
    requires positive { 0 < bound }
    requires span { span ≡ 2 * bound }
    ensures { result ≡ marks_of (is_large bound (2 ^ 16)) values }
{
    (values + u16x32::splat(bound))
        .simd_ge(u16x32::splat(span))
        .to_bitmask()
}

// The first value that is marked, or 0. Most lines that fit begin with it.
#[inline]
fn base_of_quarters(values: u16x32, marks: u64, bound: u16) -> u16
    requires { marks ≡ marks_of (is_large bound (2 ^ 16)) values }
    ensures { result ≡ base_of bound (2 ^ 16) values }
{
    let first = marks.trailing_zeros() as usize;
    if first == 0 {
        return values[0];
    }
    if first < 32 { values[first] } else { 0 }
}

// The values beside their base, near it or not.
#[inline]
fn part_quarters(values: u16x32, bound: u16, span: u16) -> QuarterSplit
    requires positive { 0 < bound }
    requires span { span ≡ 2 * bound }
    ensures { IsParted bound (2 ^ 16) values result.marks result.base result.deltas }
{
    let large = (values + u16x32::splat(bound)).simd_ge(u16x32::splat(span));
    let marks = large.to_bitmask();
    let base = base_of_quarters(values, marks, bound);
    let deltas = large.select(values - u16x32::splat(base), values);
    QuarterSplit {
        marks,
        base,
        deltas,
    }
}

// Whether both are large and the second isn't near the first: most lines that do not fit are told
// so by their first values.
#[inline]
fn is_far_quarter(first: u16, second: u16, bound: u16, span: u16) -> bool
    requires positive { 0 < bound }
    requires span { span ≡ 2 * bound }
    ensures { IsTrue result → AreFar bound (2 ^ 16) first second }
{
    first.wrapping_add(bound) >= span
        && second.wrapping_add(bound) >= span
        && second.wrapping_sub(first).wrapping_add(bound) >= span
}

/// The values beside their base, where each is small or near it: `bound` bounds a small value.
#[inline]
pub(crate) fn split_quarters(values: u16x32, bound: u16, span: u16) -> Option<QuarterSplit>
    requires positive { 0 < bound }
    requires span { span ≡ 2 * bound }
    ensures some { IfSome result (λ split.
        IsParted bound (2 ^ 16) values split.marks split.base split.deltas) }
    ensures fits { is_some result ≡ is_near bound (2 ^ 16) values }
{
    if is_far_quarter(values[0], values[1], bound, span) {
        return None;
    }
    if is_far_quarter(values[0], values[2], bound, span) {
        return None;
    }
    let split = part_quarters(values, bound, span);
    if marks_of_quarters(split.deltas, bound, span) != 0 {
        return None;
    }
    Some(split)
}

/// The low byte of each delta.
#[inline]
pub(crate) fn low_1_of_quarters(deltas: u16x32) -> [u8; 32]
    ensures { result ≡ low_bytes 1 deltas }
{
    deltas
        .to_le_bytes()
        .swizzle::<32>([
            0, 2, 4, 6, 8, 10, 12, 14, 16, 18, 20, 22, 24, 26, 28, 30, 32, 34, 36, 38, 40, 42, 44,
            46, 48, 50, 52, 54, 56, 58, 60, 62,
        ])
        .to_array()
}

/// Each delta as a number that wraps: `rest` is what a wrapped number of the delta's width lacks.
#[inline]
pub(crate) fn signed_quarters(low: u16x32, bound: u16, rest: u16) -> u16x32
    ensures { result ≡ map (λ x. cond (nat_le bound x) ((x + rest) % 2 ^ 16) x) low }
{
    low.simd_ge(u16x32::splat(bound))
        .select(low + u16x32::splat(rest), low)
}

/// The deltas, with the base added to those that are marked.
#[inline]
pub(crate) fn based_quarters(deltas: u16x32, marks: u64, base: u16) -> u16x32
    requires { length deltas ≡ 32 }
    ensures len { length result ≡ 32 }
    ensures lanes { (j : ℕ) → j < 32 → slice_index result j
        ≡ cond (marks / 2 ^ j % 2 == 1) ((slice_index deltas j + base) % 2 ^ 16)
        (slice_index deltas j) }
{
    let mut values = deltas.to_array();
    for j in 0..32usize {
        if (marks >> j) % 2 == 1 {
            values[j] = values[j].wrapping_add(base);
        }
    }
    u16x32::from_array(values)
}

/// The numbers of one byte at the front.
#[inline]
pub(crate) fn quarters_from_1(bytes: &[u8]) -> u16x32
    requires { 32 ≤ length bytes.now }
    ensures { result ≡ digits_l 256 32 (number_l 256 (chunk 0 32 bytes.now)) }
{
    u8x32::from_slice(bytes).cast::<u16>()
}
