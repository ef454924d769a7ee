//! What follows of the definitions alone, for those who keep pages packed.

ghost use Rattle.std.specs.Prelude.{◌≡◌, ◌<◌, ◌≤◌, ℕ, List, length, All};
ghost use Rattle.bdi_page.specs.Packing.{packed, HasOnePacking, IsPacking, IsPage};

use bdi_line::{codings_have_one_line, lines_have_one_coding, payloads_are_bytes};

/// Each page has one packing.
#[inline]
pub fn pages_have_one_packing()
    ensures one { (page : List ℕ) → length page ≡ 4096 → HasOnePacking page }
{
    lines_have_one_coding();
}

/// Bytes are the packing of one page at most.
#[inline]
pub fn packings_have_one_page()
    ensures { (bytes page other : List ℕ) → IsPage page → IsPage other → IsPacking page bytes
        → IsPacking other bytes → page ≡ other }
{
    lines_have_one_coding();
    codings_have_one_line();
}

/// The packing of a page has bytes, and 32 of them at least.
#[inline]
pub fn packings_are_bytes()
    ensures some { (page : List ℕ) → 32 ≤ length (packed page) }
    ensures bytes { (page : List ℕ) → IsPage page → All (λ b. b < 256) (packed page) }
{
    lines_have_one_coding();
    payloads_are_bytes();
}
