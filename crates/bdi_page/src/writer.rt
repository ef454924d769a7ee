//! A page is read once, two lines at a time, and its packing is written after room for the codes.

ghost use Rattle.std.specs.Prelude.{◌≡◌, ◌+◌, ◌*◌, ◌<◌, ◌≤◌, ℕ, List, [], ◌++◌, length, drop};
ghost use Rattle.std.specs.Simd.Lanes.{chunk};
ghost use Rattle.arrayvec.specs.ArrayVec.{array_vec_len};
ghost use Rattle.bdi_line.specs.Packed.{payload_of};
ghost use Rattle.bdi_page.specs.Packing.{IsPacking, packed};
ghost use Rattle.bdi_page.specs.Pairs.{first_line, second_line, number_in};

use arrayvec::ArrayVec;
use bdi_line::{lines_have_one_coding, pack_line};
use zr_base::Page;

/// Leaves the page's packing in `out`, which is empty before: 32 to 4128 bytes.
pub fn pack(page: &Page, out: &mut ArrayVec<u8, 4128>)
    requires { out.old.items ≡ [] }
    ensures packing { IsPacking page.now out.new.items }
    ensures one { (bytes : List ℕ) → IsPacking page.now bytes → bytes ≡ out.new.items }
    ensures written { out.new.items ≡ packed page.now }
{
    lines_have_one_coding();
    let bytes = page.bytes();
    let mut codes = [0u8; 32];
    out.try_extend_from_slice(&codes).unwrap();
    for j in 0..32usize {
        codes[j] = pack_pair(bytes, j, out);
    }
    put_codes(out, &codes);
}

// Appends the payloads of the lines 2j and 2j + 1, and answers the byte of their codes.
#[inline]
fn pack_pair(page: &[u8], j: usize, out: &mut ArrayVec<u8, 4128>) -> u8
    requires size { length page.now ≡ 4096 }
    requires pair { j < 32 }
    requires room { array_vec_len out.old + 128 ≤ 4128 }
    ensures byte { result ≡ number_in (first_line page.now j)
        + 16 * number_in (second_line page.now j) }
    ensures payloads { out.new.items ≡ out.old.items
        ++ (payload_of (first_line page.now j) ++ payload_of (second_line page.now j)) }
    ensures room { array_vec_len out.new ≤ array_vec_len out.old + 128 }
    ensures grows { array_vec_len out.old ≤ array_vec_len out.new }
{
    lines_have_one_coding();
    let low = pack_line(line_at(page, 128 * j), out);
    let high = pack_line(line_at(page, 128 * j + 64), out);
    low.number() + 16 * high.number()
}

#[inline]
fn line_at(page: &[u8], at: usize) -> &[u8; 64]
    requires { at + 64 ≤ length page.now }
    ensures { result.now ≡ chunk at 64 page.now }
{
    let from_there = &page[at..];
    match from_there.first_chunk() {
        Some(line) => line,
        None => unreachable!(),
    }
}

// Writes the codes over the first 32 bytes.
#[inline]
fn put_codes(out: &mut ArrayVec<u8, 4128>, codes: &[u8; 32])
    requires { 32 ≤ array_vec_len out.old }
    ensures { out.new.items ≡ codes.now ++ drop 32 out.old.items }
{
    for k in 0..32usize {
        out[k] = codes[k];
    }
}
