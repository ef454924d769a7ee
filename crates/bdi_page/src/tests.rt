//! Pages with packings of known lengths, and damaged packings.
ghost use Rattle.std.specs.Prelude.{◌≡◌, ◌+◌, ◌≤◌, length};

use super::{decode, pack, unpack};
use arrayvec::ArrayVec;
use std::process::Abort;
use std::simd::prelude::*;
use zr_base::Page;

// The fractional part of the golden ratio: lines of its multiples fit no code.
const GOLD: u64 = 0x9e37_79b9_7f4a_7c15;

// Writes `base`, `base + step` and so on from word `first` on.
fn put_seq(bytes: &mut [u8], first: usize, words: usize, base: u64, step: u64)
    requires size { length bytes.old ≡ 4096 }
    requires within { first + words ≤ 512 }
{
    let mut word = base;
    for k in 0..words {
        u8x8::from_array(word.to_le_bytes()).copy_to_slice(&mut bytes[8 * (first + k)..]);
        word = word.wrapping_add(step);
    }
}

// The length of the page's packing, which unpacks to the page.
fn packed_len(rt: &impl Abort, bytes: &[u8; 4096]) -> usize {
    let mut page = Page::zero();
    page.put_bytes(bytes);
    let mut out = ArrayVec::<u8, 4128>::new();
    pack(&page, &mut out);
    let mut again = Page::zero();
    assert!(rt; unpack(out.as_slice(), &mut again));
    assert_eq!(rt; *again.bytes(), *bytes);
    let mut known = Page::zero();
    decode(out.as_slice(), &mut known);
    assert_eq!(rt; *known.bytes(), *bytes);
    out.len()
}

#[test]
fn packs_pages(rt: HostRuntime) {
    assert_eq!(rt; packed_len(&rt, &[0; 4096]), 32);
    let mut bytes = [0; 4096];
    put_seq(&mut bytes, 0, 512, 1000000, 1);
    assert_eq!(rt; packed_len(&rt, &bytes), 1120);
    put_seq(&mut bytes, 0, 512, 1000000, 0x0100_0000);
    assert_eq!(rt; packed_len(&rt, &bytes), 2656);
    put_seq(&mut bytes, 0, 512, 0, GOLD);
    assert_eq!(rt; packed_len(&rt, &bytes), 4128);
    put_seq(&mut bytes, 320, 64, 1000000, 0x0100_0000);
    put_seq(&mut bytes, 384, 64, 1000000, 1);
    put_seq(&mut bytes, 448, 64, 1000000, 0x100);
    assert_eq!(rt; packed_len(&rt, &bytes), 3256);
    put_seq(&mut bytes, 320, 64, 0, 0x1500_0000);
    put_seq(
        &mut bytes,
        384,
        64,
        0x000f_4240_000f_4240,
        0x0000_0001_0000_0001,
    );
    put_seq(&mut bytes, 448, 64, 0, 0);
    assert_eq!(rt; packed_len(&rt, &bytes), 3257);
}

// Whether 32 bytes of codes, of which only the first isn't 0, and this payload are a packing.
fn is_packing(code: u8, payload: &[u8], page: &mut Page) -> bool
    requires { length payload.now ≤ 64 }
{
    let mut bytes = ArrayVec::<u8, 96>::new();
    bytes.push(code);
    bytes.try_extend_from_slice(&[0; 31]).unwrap();
    bytes.try_extend_from_slice(payload).unwrap();
    unpack(bytes.as_slice(), page)
}

#[test]
fn refuses_damaged_packings(rt: HostRuntime) {
    let line = [
        0xff, 0x40, 0x42, 0x0f, 0, 0, 0, 0, 0, 0, 1, 2, 3, 4, 5, 6, 7,
    ];
    let base_is_not_0 = [0, 1, 0, 0, 0, 0, 0, 0, 0, 0, 1, 2, 3, 4, 5, 6, 7];
    let value_0_is_small = [1, 5, 0, 0, 0, 0, 0, 0, 0, 0, 1, 2, 3, 4, 5, 6, 7];
    let mut page = Page::zero();
    assert!(rt; !unpack(&[0; 31], &mut page));
    assert!(rt; !is_packing(0, &[0], &mut page));
    assert!(rt; !is_packing(9, &[], &mut page));
    assert!(rt; !is_packing(1, &[0; 8], &mut page));
    assert!(rt; !is_packing(8, &[0; 64], &mut page));
    assert!(rt; !is_packing(2, &line[..16], &mut page));
    assert!(rt; !is_packing(2, &base_is_not_0, &mut page));
    assert!(rt; !is_packing(2, &value_0_is_small, &mut page));
    assert_eq!(rt; *page.bytes(), [0; 4096]);
    assert!(rt; is_packing(2, &line, &mut page));
    assert_eq!(rt; page.bytes()[56], 0x47);
    assert_eq!(rt; page.bytes()[120], 0);
    assert!(rt; is_packing(0x20, &line, &mut page));
    assert_eq!(rt; page.bytes()[56], 0);
    assert_eq!(rt; page.bytes()[120], 0x47);
}
