//! Outside vectors, and lines at the edges of what each code holds.
use super::{Code, decode_line, pack_line, unpack_line};
use arrayvec::ArrayVec;
use std::process::Abort;
use std::simd::prelude::*;

// How a line goes on after its first three words: words with deltas of one, two and four bytes at
// their edges, small halves, small quarters, and the rest of a tie of B4D2 and B2D1.
const BYTES: [u64; 5] = [0x7f, 0xffffffffffffff80, 0x0, 0x0, 0x1];

const TWO_BYTES: [u64; 5] = [0x7fff, 0xffffffffffff8000, 0x0, 0x0, 0x1];

const FOUR_BYTES: [u64; 5] = [0x7fffffff, 0xffffffff80000000, 0x0, 0x0, 0x1];

const HALVES: [u64; 5] = [
    0x100000000,
    0x300000002,
    0x100000000,
    0x300000002,
    0x100000000,
];

const QUARTERS: [u64; 5] = [
    0x1000000030002,
    0x1000000030002,
    0x1000000030002,
    0x1000000030002,
    0x1000000030002,
];

const TIE: [u64; 5] = [
    0x3000300000003000,
    0x300030003000,
    0x3000300000003000,
    0x300030003000,
    0x3000300000003000,
];

// For each code a line at the edges of its deltas (greatest and least, beside the base and by
// themselves), four that pass one edge by one, and one whose sums wrap at the sign; and a tie. Each
// row has the first three words, the other five, and the number of the line's code.
const EDGES: [([u64; 3], [u64; 5], u8); 37] = [
    (
        [0x123456789abcdef0, 0x123456789abcdf6f, 0x123456789abcde70],
        BYTES,
        2,
    ),
    (
        [0x123456789abcdef0, 0x123456789abcdf70, 0x123456789abcde70],
        BYTES,
        3,
    ),
    (
        [0x123456789abcdef0, 0x123456789abcde6f, 0x123456789abcde70],
        BYTES,
        3,
    ),
    ([0x123456789abcdef0, 0x80, 0x123456789abcde70], BYTES, 3),
    (
        [0x123456789abcdef0, 0xffffffffffffff7f, 0x123456789abcde70],
        BYTES,
        3,
    ),
    (
        [0x7ffffffffffffffb, 0x800000000000007a, 0x7fffffffffffff7b],
        BYTES,
        2,
    ),
    (
        [0x123456789abcdef0, 0x123456789abd5eef, 0x123456789abc5ef0],
        TWO_BYTES,
        3,
    ),
    (
        [0x123456789abcdef0, 0x123456789abd5ef0, 0x123456789abc5ef0],
        TWO_BYTES,
        4,
    ),
    (
        [0x123456789abcdef0, 0x123456789abc5eef, 0x123456789abc5ef0],
        TWO_BYTES,
        4,
    ),
    (
        [0x123456789abcdef0, 0x8000, 0x123456789abc5ef0],
        TWO_BYTES,
        4,
    ),
    (
        [0x123456789abcdef0, 0xffffffffffff7fff, 0x123456789abc5ef0],
        TWO_BYTES,
        4,
    ),
    (
        [0x7ffffffffffffedd, 0x8000000000007edc, 0x7fffffffffff7edd],
        TWO_BYTES,
        3,
    ),
    (
        [0x123456789abcdef0, 0x123456791abcdeef, 0x123456781abcdef0],
        FOUR_BYTES,
        4,
    ),
    (
        [0x123456789abcdef0, 0x123456791abcdef0, 0x123456781abcdef0],
        FOUR_BYTES,
        8,
    ),
    (
        [0x123456789abcdef0, 0x123456781abcdeef, 0x123456781abcdef0],
        FOUR_BYTES,
        8,
    ),
    (
        [0x123456789abcdef0, 0x80000000, 0x123456781abcdef0],
        FOUR_BYTES,
        8,
    ),
    (
        [0x123456789abcdef0, 0xffffffff7fffffff, 0x123456781abcdef0],
        FOUR_BYTES,
        8,
    ),
    (
        [0x7ffffffffedcba99, 0x800000007edcba98, 0x7fffffff7edcba99],
        FOUR_BYTES,
        4,
    ),
    ([0x123456f712345678, 0x7f123455f8, 0xffffff80], HALVES, 5),
    ([0x123456f812345678, 0x7f123455f8, 0xffffff80], HALVES, 6),
    ([0x123455f712345678, 0x7f123455f8, 0xffffff80], HALVES, 6),
    ([0x8012345678, 0x7f123455f8, 0xffffff80], HALVES, 6),
    ([0xffffff7f12345678, 0x7f123455f8, 0xffffff80], HALVES, 6),
    ([0x8000007a7ffffffb, 0x7f7fffff7b, 0xffffff80], HALVES, 5),
    ([0x1234d67712345678, 0x7fff1233d678, 0xffff8000], HALVES, 6),
    ([0x1234d67812345678, 0x7fff1233d678, 0xffff8000], HALVES, 8),
    ([0x1233d67712345678, 0x7fff1233d678, 0xffff8000], HALVES, 8),
    ([0x800012345678, 0x7fff1233d678, 0xffff8000], HALVES, 8),
    ([0xffff7fff12345678, 0x7fff1233d678, 0xffff8000], HALVES, 8),
    ([0x80007edc7ffffedd, 0x7fff7fff7edd, 0xffff8000], HALVES, 6),
    (
        [0x7f11b412b31234, 0x100000000ff80, 0x1000000030002],
        QUARTERS,
        7,
    ),
    (
        [0x7f11b412b41234, 0x100000000ff80, 0x1000000030002],
        QUARTERS,
        8,
    ),
    (
        [0x7f11b411b31234, 0x100000000ff80, 0x1000000030002],
        QUARTERS,
        8,
    ),
    (
        [0x7f11b400801234, 0x100000000ff80, 0x1000000030002],
        QUARTERS,
        8,
    ),
    (
        [0x7f11b4ff7f1234, 0x100000000ff80, 0x1000000030002],
        QUARTERS,
        8,
    ),
    (
        [0x7f7f7b807a7ffb, 0x100000000ff80, 0x1000000030002],
        QUARTERS,
        7,
    ),
    ([0x300030003000, 0x3000300000003000, 0x300030003000], TIE, 6),
];

fn line_of(words: &[u64; 8]) -> [u8; 64] {
    u64x8::from_array(*words).to_le_bytes().to_array()
}

fn check(rt: &impl Abort, words: [u64; 8], code: Code, payload: &[u8]) {
    let line = line_of(&words);
    let mut out = ArrayVec::<u8, 4128>::new();
    assert_eq!(rt; pack_line(&line, &mut out).number(), code.number());
    assert_eq!(rt; out.as_slice(), payload);
    assert_eq!(rt; unpack_line(code, payload), Some(line));
}

// Eight words that rise by a step.
fn rising(base: u64, step: u64) -> [u64; 8] {
    let mut words = [base; 8];
    for k in 1..8usize {
        words[k] = words[k - 1].wrapping_add(step);
    }
    words
}

#[test]
fn packs_the_vectors(rt: HostRuntime) {
    let small = [0, 0, 0, 0, 0, 0, 0, 0, 0, 0, 1, 2, 3, 4, 5, 6, 7];
    let near = [
        0xff, 0x40, 0x42, 0x0f, 0, 0, 0, 0, 0, 0, 1, 2, 3, 4, 5, 6, 7,
    ];
    let halves = [
        0xff, 0xff, 0x40, 0x42, 0x0f, 0, 0, 0, 1, 1, 2, 2, 3, 3, 4, 4, 5, 5, 6, 6, 7, 7,
    ];
    let wide = [
        0x80, 0, 0, 0, 0x93, 0, 0, 0, 0, 0, 0, 0, 0, 0, 0, 0, 0x15, 0, 0, 0, 0x2a, 0, 0, 0, 0x3f,
        0, 0, 0, 0x54, 0, 0, 0, 0x69, 0, 0, 0, 0x7e, 0, 0, 0, 0,
    ];
    check(&rt, rising(1, 0), Code::Repeated, &[1, 0, 0, 0, 0, 0, 0, 0]);
    check(&rt, rising(0, 1), Code::B8D1, &small);
    check(&rt, rising(1000000, 1), Code::B8D1, &near);
    let base = 0x000f_4240_000f_4240;
    check(
        &rt,
        rising(base, 0x0000_0001_0000_0001),
        Code::B4D1,
        &halves,
    );
    check(&rt, rising(0, 0x1500_0000), Code::B8D4, &wide);
}

#[test]
fn codes_the_edges(rt: HostRuntime) {
    for (first, rest, number) in EDGES.iter() {
        let [a, b, c] = *first;
        let [d, e, f, g, h] = *rest;
        let line = line_of(&[a, b, c, d, e, f, g, h]);
        let mut out = ArrayVec::<u8, 4128>::new();
        let code = pack_line(&line, &mut out);
        assert_eq!(rt; code.number(), *number);
        assert_eq!(rt; decode_line(code, out.as_slice()), line);
        assert_eq!(rt; unpack_line(code, out.as_slice()), Some(line));
    }
}
