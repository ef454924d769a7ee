//! What follows of the definitions alone, for those who keep pages.

ghost use Rattle.std.specs.Prelude.{◌≡◌, ℕ, ◌+◌, ◌<◌, ◌≤◌, ◌^◌, List, Bool, true, false, length};
ghost use Rattle.mem_account.specs.declared.weight.Weight.{Weight};
ghost use Rattle.same_fill.specs.Filled.{IsFilled};
ghost use Rattle.bdi_page.specs.Packing.{IsPage, IsPacking};
ghost use Rattle.size_class.specs.Classes.{IsLeastFitting, stands_of};
ghost use Rattle.slot_entry.specs.Forms.{Blank, Word, Pooled, form_of, page_weight, page_kept_as, zero_page, filled_page, class_for, HasForm, IsSame, IsPacked};

use crate::limits::MOST_PACKED;
use bdi_page::{packings_are_bytes, packings_have_one_page, pages_have_one_packing};
use size_class::packed_classes_stay_below;

/// The page that is kept as some bytes is the one whose form has them.
#[inline]
pub fn kept_bytes_have_one_page()
    ensures { (page bytes : List ℕ) → (huge : Bool) → IsPage page
        → form_of page ≡ Pooled bytes huge → page_kept_as bytes huge ≡ page }
{
    pages_have_one_packing();
    packings_have_one_page();
}

/// What the form of a page that was written says of the page.
#[inline]
pub fn forms_tell_pages()
    ensures written { (page : List ℕ) → IsPage page → form_of page ≡ Blank → ⊥ }
    ensures word { (page : List ℕ) → (w : ℕ) → IsPage page → form_of page ≡ Word w
        → (filled_page w ≡ page) × (w < 2 ^ 64) }
    ensures filled { (page : List ℕ) → (w : ℕ) → IsPage page → IsFilled page w
        → form_of page ≡ Word w }
    ensures packed { (page bytes : List ℕ) → IsPage page → form_of page ≡ Pooled bytes false
        → IsPacked page bytes × (IsSame page → ⊥) }
    ensures short { (page bytes : List ℕ) → IsPage page → (IsSame page → ⊥)
        → IsPacking page bytes → length bytes ≤ MOST_PACKED → form_of page ≡ Pooled bytes false }
    ensures long { (page bytes : List ℕ) → IsPage page → (IsSame page → ⊥)
        → IsPacking page bytes → MOST_PACKED < length bytes → form_of page ≡ Pooled page true }
    ensures huge { (page bytes : List ℕ) → IsPage page → form_of page ≡ Pooled bytes true
        → (bytes ≡ page) × (IsSame page → ⊥) }
{
    pages_have_one_packing();
    packings_are_bytes();
}

/// Pages without an object are pages: the page of zeros, and each page of one word.
#[inline]
pub fn plain_pages_are_pages()
    ensures zero { IsPage zero_page }
    ensures filled { (w : ℕ) → IsPage (filled_page w) }
    ensures words { (w : ℕ) → w < 2 ^ 64 → IsFilled (filled_page w) w }
    ensures same { zero_page ≡ filled_page 0 }
{}

/// A page has one weight, that of its form.
#[inline]
pub fn weights_tell_forms()
    ensures has { (page : List ℕ) → IsPage page → HasForm (page_weight page) page }
    ensures one { (page : List ℕ) → (w : Weight) → IsPage page → HasForm w page
        → w ≡ page_weight page }
{
    pages_have_one_packing();
    packings_are_bytes();
}

/// A packed object's class is what the least class that takes it stands as, and below that of huge
/// pages.
#[inline]
pub fn packed_objects_have_classes()
    ensures least { (chain len k : ℕ) → 32 ≤ len → IsLeastFitting (len + 8) k
        → class_for chain len ≡ stands_of chain k }
    ensures below { (chain len : ℕ) → 4 ≤ chain → chain ≤ 16 → len ≤ MOST_PACKED
        → class_for chain len < 254 }
{
    packed_classes_stay_below();
}
