//! Same-filled pages, as zram has them: all 512 words of 8 bytes are equal. The words are little
//! endian; they are compared eight at a time, and written a sector at a time.
#![tactic(auto)]

ghost use Rattle.std.specs.Prelude.{◌≡◌, ◌+◌, ◌*◌, ◌^◌, ◌<◌, ◌≤◌, ◌↔◌, ℕ, List, length, IfSome, IsNone, IsTrue, slice_index};
ghost use Rattle.std.specs.Simd.Lanes.{put_chunk};
ghost use Rattle.same_fill.specs.Filled.{word_at, IsFilled};

use std::simd::prelude::*;
use zr_base::Page;

/// The word that all 512 words of the page equal; None where two differ.
pub fn same_word(page: &Page) -> Option<u64>
    ensures some { IfSome result (IsFilled page.now) }
    ensures none { IsNone result → (word : ℕ) → IsFilled page.now word → ⊥ }
{
    let bytes = page.bytes();
    let first = first_word(bytes);
    for i in 0..64usize {
        if !is_filled_at(bytes, i, first) {
            return None;
        }
    }
    Some(first)
}

/// Sets all 512 words of the page.
pub fn fill(page: &mut Page, word: u64)
    ensures words { IsFilled page.new word }
    ensures size { length page.new ≡ 4096 }
{
    let sector = sector_of(word);
    for at in 0..8u8 {
        page.put_sector(at, &sector);
    }
    // What is read tells the page's size.
    let _bytes = page.bytes();
}

// A sector of 64 such words.
#[inline]
fn sector_of(word: u64) -> [u8; 512]
    ensures len { length result ≡ 512 }
    ensures words { (j : ℕ) → j < 64 → word_at result j ≡ word }
{
    let mut bytes = [0u8; 512];
    for k in 0..64usize {
        put_word(&mut bytes, k, word);
    }
    bytes
}

// The word at the front.
#[inline]
fn first_word(page: &[u8]) -> u64
    requires { length page.now ≡ 4096 }
    ensures { result ≡ word_at page.now 0 }
{
    line_at(page, 0)[0]
}

// The eight words from word 8 * i on.
#[inline]
fn line_at(page: &[u8], i: usize) -> u64x8
    requires size { length page.now ≡ 4096 }
    requires within { i < 64 }
    ensures len { length result ≡ 8 }
    ensures words { (j : ℕ) → j < 8 → slice_index result j ≡ word_at page.now (8 * i + j) }
{
    u64x8::from_le_bytes(u8x64::from_slice(&page[64 * i..]))
}

// Whether the eight words from word 8 * i on are this one.
#[inline]
fn is_filled_at(page: &[u8], i: usize, word: u64) -> bool
    requires size { length page.now ≡ 4096 }
    requires within { i < 64 }
    ensures { IsTrue result ↔ ((j : ℕ) → j < 8 → word_at page.now (8 * i + j) ≡ word) }
{
    all_are(line_at(page, i), word)
}

#[inline]
fn all_are(words: u64x8, word: u64) -> bool
    ensures { IsTrue result ↔ ((j : ℕ) → j < 8 → slice_index words j ≡ word) }
{
    words.simd_ne(u64x8::splat(word)).to_bitmask() == 0
}

// Writes word k.
#[inline]
fn put_word(bytes: &mut [u8], k: usize, word: u64)
    requires { 8 * k + 8 ≤ length bytes.old }
    ensures size { length bytes.new ≡ length bytes.old }
    ensures word { word_at bytes.new k ≡ word }
    ensures others { (j : ℕ) → j < k → word_at bytes.new j ≡ word_at bytes.old j }
{
    u8x8::from_array(word.to_le_bytes()).copy_to_slice(&mut bytes[8 * k..]);
}

#[cfg(test)]
mod tests;
