//! Finds a byte in a text: sixteen bytes at a time are passed over, and the last ones are looked at
//! one by one.

ghost use Rattle.std.specs.Prelude.{◌≡◌, ℕ, ◌+◌, ◌<◌, ◌≤◌, ◌==◌, false, length, position, slice_index};

use std::simd::prelude::*;

// Whether the byte is among the sixteen from there on.
#[inline(always)]
fn is_near(byte: u8, text: &[u8], at: usize) -> bool
    requires { at + 16 ≤ length text.now }
    ensures { result ≡ false → (k : ℕ) → at ≤ k → k < at + 16
        → (slice_index text.now k == byte) ≡ false }
{
    u8x16::from_slice(&text[at..])
        .simd_eq(u8x16::splat(byte))
        .to_bitmask()
        != 0
}

// How many bytes from the first on are passed over, since the byte isn't among them.
fn passed(byte: u8, text: &[u8]) -> usize
    ensures within { result ≤ length text.now }
    ensures others { (k : ℕ) → k < result → (slice_index text.now k == byte) ≡ false }
{
    let whole = text.len() / 16;
    for k in 0..whole {
        if is_near(byte, text, 16 * k) {
            return 16 * k;
        }
    }
    16 * whole
}

fn position(byte: u8, text: &[u8]) -> Option<usize>
    ensures { result ≡ position (λ c. c == byte) text.now }
{
    text.iter().position(|c| *c == byte)
}

/// Where the byte stands first.
pub(crate) fn find(byte: u8, text: &[u8]) -> Option<usize>
    ensures { result ≡ position (λ c. c == byte) text.now }
{
    let from = passed(byte, text);
    let at = position(byte, &text[from..])?;
    Some(from + at)
}
