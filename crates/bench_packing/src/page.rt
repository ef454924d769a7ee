//! The pages that are packed.

ghost use Rattle.std.specs.Prelude.{◌≡◌, ◌+◌, ◌*◌, ◌≤◌, length};

use std::simd::prelude::*;
use zr_base::Page;

// The fractional part of the golden ratio: lines of its multiples fit no code.
const GOLD: u64 = 0x9e37_79b9_7f4a_7c15;

// For each code a line of words that rise by a step from a base, as (base, step).
const LINES: [(u64, u64); 9] = [
    (0, 0),
    (0x1234_5678_9abc_def0, 0),
    (0x1234_5678_9abc_def0, 3),
    (0x1234_5678_9abc_def0, 0x123),
    (0x1234_5678_9abc_def0, 0x0123_4567),
    (0x1234_5670_1234_5678, 0x0000_0003_0000_0002),
    (0x1234_0000_1234_5678, 0x0000_0123_0000_0234),
    (0x1230_1234_1238_123c, 0x0001_0002_0003_0004),
    (0, GOLD),
];

// Writes `base`, `base + step` and so on from word `first` on.
fn put_seq(bytes: &mut [u8], first: usize, words: usize, base: u64, step: u64)
    requires size { length bytes.old ≡ 4096 }
    requires within { first + words ≤ 512 }
    ensures { length bytes.new ≡ 4096 }
{
    let mut word = base;
    for k in 0..words {
        u8x8::from_array(word.to_le_bytes()).copy_to_slice(&mut bytes[8 * (first + k)..]);
        word = word.wrapping_add(step);
    }
}

/// The page of a kind: 0 is same filled, 1 has deltas of a byte, 2 is huge, 3 has deltas of four
/// bytes, and any other has lines of all codes in turn.
pub fn page_of(kind: u8) -> Page {
    let mut bytes = [0u8; 4096];
    match kind {
        0 => put_seq(&mut bytes, 0, 512, 0x1234_5678_9abc_def0, 0),
        1 => put_seq(&mut bytes, 0, 512, 1000000, 1),
        2 => put_seq(&mut bytes, 0, 512, 0, GOLD),
        3 => put_seq(&mut bytes, 0, 512, 1000000, 0x0100_0000),
        _ => {
            for i in 0..64usize {
                let (base, step) = LINES[i % 9];
                put_seq(&mut bytes, 8 * i, 8, base, step);
            }
        }
    }
    let mut page = Page::zero();
    page.put_bytes(&bytes);
    page
}
